// Making a list and changing it. `items l` is the list that `l` holds, and `cells l` its memory, whole.
// Every call keeps the number of places and the name of the loan, so that a lender knows its memory again.
ghost use Rattle.std.specs.Prelude.{◌≡◌, min, [], length, MatchResult};
ghost use Rattle.lists.specs.Items.{Pushed, Refused, cells, items, lender, room};
ghost use Rattle.lists.specs.Limit.{limit};

use crate::{BoundedList, Full};

impl<'a, T> BoundedList<'a, T> {
    // An empty list in the memory, which is left as it is.
    pub fn new(memory: &'a mut [T]) -> Self
        ensures empty { items result ≡ [] }
        ensures places { room result ≡ min (length memory.old) limit }
        ensures untouched { cells result ≡ memory.old }
        ensures lender { lender result ≡ memory.entry.ghost_name }
    {
        BoundedList { memory, len: 0 }
    }

    // Makes the list empty, and writes nothing into the memory.
    pub fn clear(&mut self)
        ensures empty { items self.new ≡ [] }
        ensures places { room self.new ≡ room self.old }
        ensures untouched { cells self.new ≡ cells self.old }
        ensures lender { lender self.new ≡ lender self.old }
    {
        self.len = 0;
    }
}

impl<T: Copy> BoundedList<'_, T> {
    // Puts an element at the end. Refused exactly where the list fills all places, and then nothing changes.
    pub fn push(&mut self, element: T) -> Result<(), Full>
        ensures answer { MatchResult result
            (λ _. Pushed self.old element self.new)
            (λ _. Refused self.old self.new) }
        ensures places { room self.new ≡ room self.old }
        ensures lender { lender self.new ≡ lender self.old }
    {
        if self.len < self.places() {
            self.memory[self.len] = element;
            self.len += 1;
            Ok(())
        } else {
            Err(Full)
        }
    }
}
