// An observation, the clause that it stands for, and the observations that stand.
ghost use Rattle.std.specs.Prelude.{◌≡◌, false};
ghost use Rattle.arrayvec.specs.ArrayVec.{array_vec_len};
ghost use Rattle.atoms.specs.Atoms.{bits, index};
ghost use Rattle.atoms.specs.Sets.{size};
ghost use Rattle.layers.specs.Observations.{atoms_of, clause_of};

use arrayvec::ArrayVec;
use atoms::{Atom, AtomSet};
use clauses::{Clause, Kind, Origin};

mod standing;

// One place for each atom: no atom is observed twice, so that the places always suffice.
const PLACES: usize = AtomSet::WIDTH as usize;

// An atom is seen to be present, or to be absent.
#[derive(Clone, Copy, PartialEq, Eq, Debug)]
pub struct Observation {
    pub atom: Atom,
    pub present: bool,
}

// The refusal of an observation whose atom is observed already.
#[derive(Clone, Copy, PartialEq, Eq, Debug)]
pub struct AlreadyObserved;

// The observations that stand, in the order in which they were made, and the set of their atoms.
#[derive(Drop)]
pub struct Observations {
    standing: ArrayVec<Observation, PLACES>,
    atoms: AtomSet,
    // as many atoms as observations: no atom is observed twice
    ghost distinct: { size (bits atoms) ≡ array_vec_len standing },
    ghost members: { bits atoms ≡ atoms_of standing.items },
}

impl Observation {
    // Its clause, where so many observations stand before it.
    pub fn clause(self, before: u64) -> Clause
        ensures { result ≡ clause_of before self }
    {
        let origin = Origin {
            kind: Kind::Observation,
            number: before,
        };
        if self.present {
            Clause::fact(self.atom, origin)
        } else {
            Clause::denial(self.atom, origin)
        }
    }
}

// What fills a place where no observation stands: the first atom, absent.
// By hand: a derive would want a default of every type in it, where only a blank place is wanted.
impl Default for Observation {
    ghost is_default = { λ o. (index o.atom ≡ 0) × (o.present ≡ false) };

    fn default() -> Observation {
        Observation {
            atom: Atom::new(0).unwrap(),
            present: false,
        }
    }
}
