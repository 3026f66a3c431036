#![tactic(auto)]
// A list of bounded length, in memory that its maker lends.
ghost use Rattle.std.specs.Prelude.{◌≤◌, min, length};
ghost use Rattle.lists.specs.Limit.{limit};

mod reads;
mod writes;

// No list uses more places of its memory than this.
pub const MAX_PLACES: usize = 1_048_576;

// The first `len` elements of the memory are the list. It may grow to the end of the memory, or to `MAX_PLACES` elements
// where that is less.
// The length stands beside the memory by a rule of the project: no heap, and a list fills memory that its maker lends.
#[derive(Drop)]
pub struct BoundedList<'a, T> {
    memory: &'a mut [T],
    len: usize,
    ghost fits: { len ≤ min (length memory.now) limit },
}

// The answer of a push for which there is no place.
#[derive(Clone, Copy, PartialEq, Eq, Debug)]
pub struct Full;
