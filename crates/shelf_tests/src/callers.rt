// What a caller can prove: over any shelf, and of the memory that it lends.
ghost use Rattle.std.specs.Prelude.{◌≡◌, ◌==◌, ◌-◌, ◌<◌, ◌≤◌, min, true, false, [], ◌∷◌, ◌++◌, length, take, drop, set as written, count_by, is_ok, Ok, MatchResult};
ghost use Rattle.atoms.specs.Atoms.{bits, index};
ghost use Rattle.atoms.specs.Sets.{hasb};
ghost use Rattle.lists.specs.Limit.{limit};
ghost use Rattle.shelves.specs.Shelves.{Holds};

use atoms::{Atom, AtomSet};
use lists::BoundedList;
use shelves::{FlatShelf, Full, Shelf};

// Keeps a set unless the shelf holds a subset of it.
pub fn keep_new<S: Shelf>(shelf: &mut S, set: AtomSet) -> Result<bool, Full>
    ensures kept { result ≡ Ok true → (Holds (S.Shelf.sets shelf.old) set → ⊥)
        × (S.Shelf.sets shelf.new ≡ S.Shelf.sets shelf.old ++ set ∷ []) }
    ensures held { result ≡ Ok false → Holds (S.Shelf.sets shelf.old) set
        × (shelf.new ≡ shelf.old) }
    ensures full { is_ok result ≡ false → (length (S.Shelf.sets shelf.old) ≡ S.Shelf.room shelf.old)
        × (shelf.new ≡ shelf.old) }
{
    if shelf.holds_subset_of(set) {
        Ok(false)
    } else {
        shelf.keep(set)?;
        Ok(true)
    }
}

// Keeps a set alone. Only a shelf with no places refuses it.
pub fn keep_alone<S: Shelf>(shelf: &mut S, set: AtomSet) -> Result<(), Full>
    ensures answer { MatchResult result
        (λ _. S.Shelf.sets shelf.new ≡ set ∷ [])
        (λ _. S.Shelf.room shelf.old ≡ 0) }
    ensures lender { S.Shelf.lender shelf.new ≡ S.Shelf.lender shelf.old }
{
    shelf.clear();
    shelf.keep(set)
}

// How many sets on a shelf have an atom.
pub fn count_with<S: Shelf>(shelf: &S, atom: Atom) -> usize
    ensures { result ≡ count_by (λ s. hasb (bits s) (index atom)) (S.Shelf.sets shelf.now) }
{
    shelf.iter().filter(|set| set.contains(atom)).count()
}

// How many sets on a shelf are the given one: what `==` of sets says outside their crate.
pub fn count_same<S: Shelf>(shelf: &S, set: AtomSet) -> usize
    ensures { result ≡ count_by (λ s. bits s == bits set) (S.Shelf.sets shelf.now) }
{
    shelf.iter().filter(|held| *held == set).count()
}

// How many places are free on a shelf of any kind, of which the function has no type parameter.
pub fn count_free(shelf: &dyn Shelf) -> usize
    ensures { result ≡ room shelf.now - length (sets shelf.now) }
{
    shelf.places() - shelf.len()
}

// A lender knows its memory after calls over any shelf: it begins with the sets on the shelf.
pub fn lend(memory: &mut [AtomSet], set: AtomSet) -> Result<(), Full>
    ensures { MatchResult result
        (λ _. take 1 memory.new ≡ set ∷ [])
        (λ _. length memory.old ≡ 0) }
{
    let mut shelf = FlatShelf::new(memory);
    keep_alone(&mut shelf, set)?;
    Ok(())
}

// The calls of a flat shelf itself tell all of the memory: the second set stands in the place of the first.
pub fn lend_twice(memory: &mut [AtomSet], first: AtomSet, second: AtomSet) -> Result<(), Full>
    ensures { MatchResult result
        (λ _. (0 < length memory.old)
        × (memory.new ≡ written (written memory.old 0 first) 0 second))
        (λ _. (length memory.old ≡ 0) × (memory.new ≡ memory.old)) }
{
    let mut shelf = FlatShelf::new(memory);
    shelf.keep(first)?;
    shelf.clear();
    shelf.keep(second)
}

// Lists the elements from the start of the memory, if there are places for all, and leaves the rest of it as it is.
pub fn list_all(memory: &mut [u8], elements: &[u8]) -> Result<(), Full>
    ensures { MatchResult result
        (λ _. (length elements.now ≤ min (length memory.old) limit)
        × (memory.new ≡ elements.now ++ drop (length elements.now) memory.old))
        (λ _. (min (length memory.old) limit < length elements.now)
        × (memory.new ≡ memory.old)) }
{
    let mut list = BoundedList::new(memory);
    if list.places() < elements.len() {
        return Err(Full);
    }
    for element in elements {
        list.push(*element)?;
    }
    Ok(())
}
