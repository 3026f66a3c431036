// A case at rest. `resting c` is its source with the observations that stand.
ghost use Rattle.std.specs.Prelude.{◌≡◌, List, []};
ghost use Rattle.clauses.specs.declared.clauses.Clause.{Clause};
ghost use Rattle.layers.specs.Standing.{below, standing};
ghost use Rattle.cases.specs.Cases.{listed, resting, Sound};
ghost use Rattle.cases.specs.Observing.{observation, observed_with, verdict, withdrawal, withdrawn};

use crate::refusals::{ObserveRefusal, WithdrawRefusal};
use crate::{Case, Listing};
use atoms::Atom;
use layers::{Observation, Observed};
use walks::Walk;

impl<S> Case<S> {
    // A case with no observation.
    pub fn new(source: S) -> Case<S>
        ensures standing { standing (resting result) ≡ [] }
        ensures below { below (resting result) ≡ source }
    {
        Case {
            source: Observed::new(source),
        }
    }

    // The observations that stand, in the order in which they were made.
    pub fn standing(&self) -> &[Observation]
        ensures { result.now ≡ standing (resting self.now) }
    {
        self.source.standing()
    }

    // The source of the case.
    pub fn source(&self) -> &S
        ensures { result.now ≡ below (resting self.now) }
    {
        self.source.below()
    }

    // The source with the observations that stand, as a source of the clauses of both.
    pub fn observed(&self) -> &Observed<S>
        ensures { result.now ≡ resting self.now }
    {
        &self.source
    }

    // Takes one more observation: the atom is present, or absent. Refused where there is no atom of that number, and where
    // the atom is observed already; then nothing changes.
    #[tactic(auto, using(atoms::proofs::Values::atom_is))]
    pub fn observe(&mut self, atom: u8, present: bool) -> Result<(), ObserveRefusal>
        ensures verdict { result ≡ verdict (standing (resting self.old)) atom }
        ensures standing { standing (resting self.new)
            ≡ observed_with (standing (resting self.old)) (observation atom present) result }
        ensures below { below (resting self.new) ≡ below (resting self.old) }
    {
        let atom = Atom::new(atom).ok_or(ObserveRefusal::NoSuchAtom)?;
        self.source.observe(Observation { atom, present })?;
        Ok(())
    }

    // Takes the latest observation back. Refused where none stands.
    pub fn withdraw(&mut self) -> Result<(), WithdrawRefusal>
        ensures verdict { result ≡ withdrawal (standing (resting self.old)) }
        ensures standing { standing (resting self.new) ≡ withdrawn (standing (resting self.old)) }
        ensures below { below (resting self.new) ≡ below (resting self.old) }
    {
        self.source
            .withdraw()
            .ok_or(WithdrawRefusal::NothingObserved)?;
        Ok(())
    }

    // Begins to list the explanations of the observations that stand and the source. Nothing is handed out yet.
    pub fn open(self) -> Listing<S>
        ensures standing { standing (listed result) ≡ standing (resting self) }
        ensures below { below (listed result) ≡ below (resting self) }
        ensures sound { (cs : List Clause) → Sound cs result [] }
    {
        Listing {
            case: self,
            walk: Walk::new(),
            given: 0,
        }
    }

    // Ends the case, and gives its source back.
    pub fn into_source(self) -> S
        ensures { result ≡ below (resting self) }
    {
        self.source.into_below()
    }
}
