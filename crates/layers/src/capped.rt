// A cap over a source: it admits no set but the proper subsets of the set that it holds.
ghost use Rattle.std.specs.Prelude.{◌≡◌, [], ◌∷◌, map, Some, None};
ghost use Rattle.atoms.specs.Atoms.{bits, index};
ghost use Rattle.clauses.specs.Clauses.{language};
ghost use Rattle.layers.specs.Capped.{below, capped_clauses, held, own_clauses};
ghost use Rattle.layers.specs.Caps.{cap_origin, denied, outside, whole};
ghost use Rattle.layers.specs.Laws.{Caps};
ghost use Rattle.models.specs.Models.{first_broken};

use crate::layering::Layer;
use atoms::{Atom, AtomSet};
use clauses::{Clause, Kind, Origin, Source};

// The cap is off, or holds a set.
#[derive(Clone, Copy)]
pub struct Cap {
    holds: Option<AtomSet>,
}

// A source under a cap. `held` in the contracts is the set that the cap holds, and `below` the source below it.
pub type Capped<S> = Layer<Cap, S>;

// The origin of a clause of a cap.
fn origin(number: u8) -> Origin
    ensures { result ≡ cap_origin number }
{
    Origin {
        kind: Kind::Cap,
        number: number.into(),
    }
}

impl Cap {
    // The clause of an atom outside the cap: it is absent.
    fn denied(atom: Atom) -> Clause
        ensures { result ≡ denied (index atom) }
    {
        Clause::denial(atom, origin(atom.number()))
    }

    // The clause of the atoms of a cap: not all of them are present.
    fn whole(set: AtomSet) -> Clause
        ensures { result ≡ whole set }
    {
        Clause {
            body: set,
            head: AtomSet::empty(),
            origin: origin(AtomSet::WIDTH),
        }
    }

    // The first clause of an atom outside a cap that the set breaks: that of the least.
    fn broken_outside(cap: AtomSet, set: AtomSet) -> Option<Clause>
        ensures { result ≡ first_broken language (map denied (outside (bits cap))) (bits set) }
    {
        set.difference(cap).least().map(Cap::denied)
    }

    // The clause of the whole cap, where the set breaks it.
    fn broken_whole(cap: AtomSet, set: AtomSet) -> Option<Clause>
        ensures { result ≡ first_broken language (whole cap ∷ []) (bits set) }
    {
        let whole = Cap::whole(cap);
        whole.is_broken_by(set).then_some(whole)
    }
}

// It means the clause of each atom outside it, rising, and then that of the whole cap; where it is off, none.
impl Source for Cap {
    ghost clauses = { own_clauses };

    fn first_broken(&self, set: AtomSet) -> Option<Clause> {
        let cap = self.holds?;
        Cap::broken_outside(cap, set).or_else(|| Cap::broken_whole(cap, set))
    }
}

impl<S> Layer<Cap, S> {
    // A cap that is off.
    pub fn new(source: S) -> Capped<S>
        ensures held { held result ≡ None }
        ensures below { below result ≡ source }
    {
        Layer {
            own: Cap { holds: None },
            source,
        }
    }

    // The set that the cap holds, or `None` where it is off.
    pub fn cap(&self) -> Option<AtomSet>
        ensures { result ≡ held self.now }
    {
        self.own.holds
    }

    // Turns the cap off.
    pub fn lift(&mut self)
        ensures held { held self.new ≡ None }
        ensures below { below self.new ≡ below self.old }
    {
        self.own.holds = None;
    }
}

impl<S: Source> Layer<Cap, S> {
    // Has the cap hold a set, whatever it held before. From then on the models are those of the clauses below that are
    // proper subsets of it.
    pub fn set_cap(&mut self, set: AtomSet)
        ensures held { held self.new ≡ Some set }
        ensures below { below self.new ≡ below self.old }
        ensures models { Caps set
            (S.Source.clauses (below self.new))
            (capped_clauses S.Source.clauses self.new) }
    {
        self.own.holds = Some(set);
    }
}
