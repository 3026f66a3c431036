// What is written as one line.
ghost use Rattle.std.specs.Prelude.{◌≡◌, ℕ, MatchBool};
ghost use Rattle.atoms.specs.Atoms.{index};
ghost use Rattle.writers.specs.Documents.{Misfit, Unnamed, mark_of, value_of};

use atoms::{Atom, AtomSet};
use clauses::Clause;

// A row is a line with a byte for each name. It fits only where each atom that it uses has a name.
pub(crate) trait Row: Drop {
    ghost byte: { Self → ℕ → ℕ };

    ghost unfit: { ℕ → Self → Type 0 };

    // The byte of an atom.
    fn value(&self, atom: Atom) -> u8
        ensures { result ≡ byte self.now (index atom) };

    // Can the row not be written for `n` names?
    fn is_unfit(&self, n: usize) -> bool
        ensures { MatchBool result (unfit n self.now) (unfit n self.now → ⊥) };
}

impl Row for Clause {
    ghost byte = { value_of };

    ghost unfit = { Misfit };

    fn value(&self, atom: Atom) -> u8 {
        if self.body.contains(atom) {
            b'b'
        } else if self.head.contains(atom) {
            b'h'
        } else {
            b'.'
        }
    }

    fn is_unfit(&self, n: usize) -> bool {
        self.body.union(self.head).is_unfit(n) || self.body.intersects(self.head)
    }
}

impl Row for AtomSet {
    ghost byte = { mark_of };

    ghost unfit = { Unnamed };

    fn value(&self, atom: Atom) -> u8 {
        if self.contains(atom) { b'1' } else { b'0' }
    }

    fn is_unfit(&self, n: usize) -> bool {
        self.greatest()
            .is_some_and(|atom| atom.number() as usize >= n)
    }
}
