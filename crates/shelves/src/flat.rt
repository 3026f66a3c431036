// The flat shelf: the sets one after another, in memory that its maker lends.
ghost use Rattle.std.specs.Prelude.{◌≡◌, [], length, set as written, MatchResult};
ghost use Rattle.lists.specs.Items.{cells, items, lender, room};
ghost use Rattle.shelves.specs.Shelves.{Kept, Refused};

use crate::Shelf;
use atoms::AtomSet;
use lists::{BoundedList, Full};

// It has one place for each set of the memory, up to `lists::MAX_PLACES`.
pub type FlatShelf<'a> = BoundedList<'a, AtomSet>;

impl Shelf for BoundedList<'_, AtomSet> {
    ghost sets = { items };

    ghost room = { room };

    ghost lender = { lender };

    fn len(&self) -> usize {
        self.len()
    }

    fn places(&self) -> usize {
        self.places()
    }

    fn get(&self, position: usize) -> Option<AtomSet> {
        self.get(position)
    }

    // Looks at each set.
    fn holds_subset_of(&self, set: AtomSet) -> bool {
        self.as_slice().iter().any(|held| held.is_subset(set))
    }

    // Of the memory it writes the place of the set alone.
    fn keep(&mut self, set: AtomSet) -> Result<(), Full>
        ensures answer { MatchResult result
            (λ _. Kept items room self.old set self.new)
            (λ _. Refused items room self.old self.new) }
        ensures places { room self.new ≡ room self.old }
        ensures lender { lender self.new ≡ lender self.old }
        ensures memory { MatchResult result
            (λ _. cells self.new ≡ written (cells self.old) (length (items self.old)) set)
            (λ _. cells self.new ≡ cells self.old) }
    {
        self.push(set)
    }

    // It writes nothing into the memory.
    fn clear(&mut self)
        ensures empty { items self.new ≡ [] }
        ensures places { room self.new ≡ room self.old }
        ensures lender { lender self.new ≡ lender self.old }
        ensures untouched { cells self.new ≡ cells self.old }
    {
        self.clear()
    }
}
