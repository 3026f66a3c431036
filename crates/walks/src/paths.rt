// Paths from the root of a search to the node at which it stands.
ghost use Rattle.std.specs.Prelude.{reverse};
ghost use Rattle.walks.specs.Branches.{Apart, Live, Sized};

use crate::branches::Branch;
use arrayvec::ArrayVec;
use atoms::AtomSet;

// A place for each atom: each record has taken one atom more than the one before it, so that the places always suffice.
const PLACES: usize = AtomSet::WIDTH as usize;

// The records of the branches that a search is on, the deepest last.
#[derive(Drop)]
pub struct Path {
    pub(crate) branches: ArrayVec<Branch, PLACES>,
    ghost live: { Live (reverse branches.items) },
    ghost sized: { Sized (reverse branches.items) },
    ghost apart: { Apart (reverse branches.items) },
}
