#![tactic(auto)]
// Shelves: lists of sets with a fixed number of places.
ghost use Rattle.std.specs.Prelude.{◌≡◌, ℕ, ◌≤◌, List, [], length, MatchBool, MatchResult};
ghost use Rattle.atoms.specs.declared.AtomSet.{AtomSet};
ghost use Rattle.lists.specs.Limit.{limit};
ghost use Rattle.shelves.specs.Left.{sets_left};
ghost use Rattle.shelves.specs.Shelves.{Holds, Kept, Refused};
ghost use Rattle.std.specs.List.{slice_get};

use atoms::AtomSet;

mod flat;
mod sets;

pub use flat::FlatShelf;
pub use lists::Full;
pub use sets::Sets;

// A list of sets, in the order in which they were kept, with a fixed number of places.
// `room` and `lender` are kept by each call: two clauses of each, since one definition would take both members and be no shorter.
pub trait Shelf {
    // The list.
    ghost sets: { Self → List AtomSet };

    // The number of places.
    ghost room: { Self → ℕ };

    // The name of the loan of its memory, by which a lender knows the memory again. A shelf with no such loan keeps the 0.
    ghost lender: { Self → ℕ } = { λ _. 0 };

    // How many sets stand on the shelf: no more than it has places, and those are 1,048,576 at most.
    fn len(&self) -> usize
        ensures value { result ≡ length (sets self.now) }
        ensures fits { result ≤ room self.now }
        ensures limited { room self.now ≤ limit };

    // How many places it has, those of its sets among them.
    fn places(&self) -> usize
        ensures value { result ≡ room self.now }
        ensures limited { result ≤ limit };

    // The set at a position, or `None` past the end.
    fn get(&self, position: usize) -> Option<AtomSet>
        ensures { result ≡ slice_get (sets self.now) position };

    // Is some set on the shelf contained in the given one?
    fn holds_subset_of(&self, set: AtomSet) -> bool
        ensures { MatchBool result (Holds (sets self.now) set) (Holds (sets self.now) set → ⊥) };

    // All sets on the shelf, in order. Not through a `dyn Shelf`, which all other calls go through.
    fn iter(&self) -> Sets<'_, Self>
    where
        Self: Sized,
        ensures { sets_left sets result ≡ sets self.now }
    {
        Sets {
            shelf: self,
            places: 0..self.len(),
        }
    }

    // Puts a set at the end. Refused exactly where the sets fill all places, and then nothing changes.
    fn keep(&mut self, set: AtomSet) -> Result<(), Full>
        ensures answer { MatchResult result
            (λ _. Kept sets room self.old set self.new)
            (λ _. Refused sets room self.old self.new) }
        ensures places { room self.new ≡ room self.old }
        ensures lender { lender self.new ≡ lender self.old };

    // Takes all sets off the shelf, and every place serves again.
    fn clear(&mut self)
        ensures empty { sets self.new ≡ [] }
        ensures places { room self.new ≡ room self.old }
        ensures lender { lender self.new ≡ lender self.old };
}
