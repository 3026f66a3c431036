// The sets on a shelf, one after another.
ghost use Rattle.shelves.specs.Left.{sets_left};
ghost use Rattle.std.specs.Iterator.{YieldsFirst, item_count};

use crate::Shelf;
use atoms::AtomSet;
use std::ops::Range;

// Hands out the sets on a shelf, in the order in which they were kept. `places` are those of the sets that are left.
#[derive(Drop)]
pub struct Sets<'a, H> {
    pub(crate) shelf: &'a H,
    pub(crate) places: Range<usize>,
}

impl<'a, H: Shelf> Iterator for Sets<'a, H> {
    type Item = AtomSet;

    ghost next_gives = { YieldsFirst (sets_left H.sets) };

    ghost remaining = { item_count (sets_left H.sets) };

    fn next(&mut self) -> Option<AtomSet> {
        self.shelf.get(self.places.next()?)
    }
}
