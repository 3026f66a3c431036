// Reading a list. `items l` is the list that `l` holds.
ghost use Rattle.std.specs.Prelude.{◌≡◌, length};
ghost use Rattle.lists.specs.Items.{items, room};
ghost use Rattle.std.specs.List.{slice_get};

use crate::{BoundedList, MAX_PLACES};

impl<T> BoundedList<'_, T> {
    // How many elements the list has.
    pub fn len(&self) -> usize
        ensures { result ≡ length (items self.now) }
    {
        self.len
    }

    // How many places the list has, those of its elements among them.
    pub fn places(&self) -> usize
        ensures { result ≡ room self.now }
    {
        self.memory.len().min(MAX_PLACES)
    }

    // The list as a slice.
    pub fn as_slice(&self) -> &[T]
        ensures { result.now ≡ items self.now }
    {
        &self.memory[..self.len]
    }
}

impl<T: Copy> BoundedList<'_, T> {
    // The element at a position, or `None` past the end.
    pub fn get(&self, position: usize) -> Option<T>
        ensures { result ≡ slice_get (items self.now) position }
    {
        self.as_slice().get(position).copied()
    }
}
