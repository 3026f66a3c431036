#![tactic(auto, unfolding(crate::specs::Atoms::bits, crate::specs::Atoms::index, crate::specs::Members::atoms_left))]
// Atoms and sets of atoms. The only crate that knows how many atoms there are and how a set lies in words.
ghost use Rattle.std.specs.Prelude.{◌^◌, ◌<◌};

mod indices;
mod iterating;
mod sets;
#[cfg(test)]
mod tests;

pub use iterating::Atoms;

// An atom: a number below `AtomSet::WIDTH`.
#[derive(Clone, Copy, Debug)]
pub struct Atom {
    index: u8,
    ghost within: { index < 64 },
}

// A set of atoms, in one word: the atom `a` is in the set where the digit `a` of the word is set.
#[derive(Clone, Copy, Debug)]
pub struct AtomSet {
    word: u64,
    ghost fits: { word < 2 ^ 64 },
}
