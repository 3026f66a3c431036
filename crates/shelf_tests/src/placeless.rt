// A shelf that keeps nothing. It is a shelf only since it has no places.
ghost use Rattle.std.specs.Prelude.{[]};

use atoms::AtomSet;
use shelves::{Full, Shelf};

#[derive(Drop)]
pub struct Placeless;

impl Shelf for Placeless {
    ghost sets = { λ _. [] };

    ghost room = { λ _. 0 };

    fn len(&self) -> usize {
        0
    }

    fn places(&self) -> usize {
        0
    }

    fn get(&self, _position: usize) -> Option<AtomSet> {
        None
    }

    fn holds_subset_of(&self, _set: AtomSet) -> bool {
        false
    }

    fn keep(&mut self, _set: AtomSet) -> Result<(), Full> {
        Err(Full)
    }

    fn clear(&mut self) {}
}
