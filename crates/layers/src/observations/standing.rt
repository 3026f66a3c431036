// Taking an observation and taking it back. `items` in the contracts has the observations, in the order in which they were made.
ghost use Rattle.std.specs.Prelude.{◌≡◌, false, not, [], ◌∷◌, ◌++◌, is_some, is_ok, if◌then◌else◌, MatchOption};
ghost use Rattle.atoms.specs.Atoms.{index};
ghost use Rattle.layers.specs.Observations.{seen};
ghost use Rattle.layers.specs.Standing.{items, own_clauses};

use crate::observations::{AlreadyObserved, Observation, Observations};
use arrayvec::ArrayVec;
use atoms::{Atom, AtomSet};
use clauses::{Clause, Source};

impl Observations {
    // No observation.
    pub(crate) fn new() -> Observations
        ensures { items result ≡ [] }
    {
        Observations {
            standing: ArrayVec::new(),
            atoms: AtomSet::empty(),
        }
    }

    // The observations, in the order in which they were made.
    pub(crate) fn as_slice(&self) -> &[Observation]
        ensures { result.now ≡ items self.now }
    {
        self.standing.as_slice()
    }

    // Is there an observation of the atom?
    pub(crate) fn has(&self, atom: Atom) -> bool
        ensures { result ≡ seen (items self.now) (index atom) }
    {
        self.atoms.contains(atom)
    }

    // Takes one more. Refused exactly where there is one of its atom, and then nothing changes.
    pub(crate) fn push(&mut self, observation: Observation) -> Result<(), AlreadyObserved>
        ensures verdict { is_ok result ≡ not (seen (items self.old) (index observation.atom)) }
        ensures items { items self.new ≡ (if is_ok result then items self.old ++ observation ∷ [] else items self.old) }
        ensures unchanged { is_ok result ≡ false → self.new ≡ self.old }
    {
        if self.has(observation.atom) {
            return Err(AlreadyObserved);
        }
        self.atoms = self.atoms.with(observation.atom);
        self.standing.push(observation);
        Ok(())
    }

    // Takes the latest back, and gives it; `None` exactly where there is none.
    pub(crate) fn pop(&mut self) -> Option<Observation>
        ensures items { MatchOption result
            ((items self.old ≡ []) × (items self.new ≡ []))
            (λ o. items self.old ≡ items self.new ++ o ∷ []) }
        ensures unchanged { is_some result ≡ false → self.new ≡ self.old }
    {
        let latest = self.standing.pop()?;
        self.atoms = self.atoms.without(latest.atom);
        Some(latest)
    }
}

// They mean their clauses, in the order in which they were made.
impl Source for Observations {
    ghost clauses = { own_clauses };

    fn first_broken(&self, set: AtomSet) -> Option<Clause> {
        self.as_slice()
            .iter()
            .enumerate()
            .map(|(before, observation)| observation.clause(before as u64))
            .find(|clause| clause.is_broken_by(set))
    }
}
