// A clause: where a set holds the whole body, it is to hold some atom of the head.
ghost use Rattle.std.specs.Prelude.{◌≡◌, Decides};
ghost use Rattle.atoms.specs.Atoms.{bits, index};
ghost use Rattle.models.specs.Models.{Breaks, breaks};
ghost use Rattle.clauses.specs.Clauses.{denial, fact, language};

use crate::origins::Origin;
use atoms::{Atom, AtomSet};

// A body and a head, and the origin of the clause.
#[derive(Clone, Copy, PartialEq, Eq, Debug)]
pub struct Clause {
    pub body: AtomSet,
    pub head: AtomSet,
    pub origin: Origin,
}

impl Clause {
    // The atom is present: no body, and the atom as head.
    pub fn fact(atom: Atom, origin: Origin) -> Clause
        ensures { result ≡ fact (index atom) origin }
    {
        Clause {
            body: AtomSet::empty(),
            head: AtomSet::single(atom),
            origin,
        }
    }

    // The atom is absent: the atom as body, and no head.
    pub fn denial(atom: Atom, origin: Origin) -> Clause
        ensures { result ≡ denial (index atom) origin }
    {
        Clause {
            body: AtomSet::single(atom),
            head: AtomSet::empty(),
            origin,
        }
    }

    // Does the set hold the whole body and no atom of the head?
    pub fn is_broken_by(&self, set: AtomSet) -> bool
        ensures meaning { Decides result (Breaks language (bits set) self.now) }
        ensures test { result ≡ breaks language (bits set) self.now }
    {
        self.body.is_subset(set) && !self.head.intersects(set)
    }
}
