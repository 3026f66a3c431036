// Making an atom from its number, and reading it. `index a` is the number of the atom `a`.
ghost use Rattle.std.specs.Prelude.{◌≡◌, ◌<◌, ◌≤◌, MatchOption, nat_eq};
ghost use Rattle.std.specs.Ordering.{as_partial_cmp, nat_cmp, on};
ghost use Rattle.atoms.specs.Atoms.{index, width};
ghost use Rattle.std.specs.Cmp.Rules.{comparing};
ghost use Rattle.std.proofs.Common.{rules, arith};
ghost use Rattle.std.specs.Cmp as Keys;

use crate::{Atom, AtomSet};
use std::cmp::Ordering;

impl Atom {
    // The atom of a number, or `None` where there is no such atom. Constants may call it, which `TryFrom` would not let them.
    pub const fn new(number: u8) -> Option<Atom>
        ensures { MatchOption result (width ≤ number) (λ a. (number < width) × (index a ≡ number)) }
    {
        if number < AtomSet::WIDTH {
            Some(Atom { index: number })
        } else {
            None
        }
    }

    // The number of the atom; a conversion by `From` would not say which number, and no constant could use it.
    pub const fn number(self) -> u8
        ensures value { result ≡ index self }
        ensures bound { result < width }
    {
        self.index
    }
}

// Two atoms are equal where they have one number. A derive would say it of the field, which no other crate can name.
impl PartialEq for Atom {
    ghost eq = { on index nat_eq };

    ghost laws = { Keys.partial_equiv_from_equiv (first_of (Prim.search (comparing, rules), Prim.grind (arith, Self.row.coded.inj))) };

    fn eq(&self, other: &Atom) -> bool {
        self.number() == other.number()
    }
}

impl Eq for Atom {
    ghost laws = { first_of (Prim.search (comparing, rules), Prim.grind (arith, Self.row.coded.inj)) };
}

// Atoms are in the order of their numbers, by hand for the same reason.
impl PartialOrd for Atom {
    ghost partial_cmp = { as_partial_cmp (on index nat_cmp) };

    ghost laws = { Prim.search (comparing, rules) };

    fn partial_cmp(&self, other: &Atom) -> Option<Ordering> {
        Some(self.cmp(other))
    }
}

impl Ord for Atom {
    ghost cmp = { on index nat_cmp };

    ghost total = { Prim.search (comparing, rules) };

    ghost matches_partial_cmp = { Prim.search (comparing, rules) };

    ghost matches_eq = { Prim.search (comparing, rules) };

    fn cmp(&self, other: &Atom) -> Ordering {
        self.number().cmp(&other.number())
    }
}
