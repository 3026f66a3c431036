// Observations over a source. `standing` in the contracts has the observations that stand, and `below` is the source below them.
ghost use Rattle.std.specs.Prelude.{◌≡◌, false, not, [], ◌∷◌, ◌++◌, is_some, is_ok, if◌then◌else◌, MatchOption};
ghost use Rattle.atoms.specs.Atoms.{index};
ghost use Rattle.layers.specs.Observations.{seen};
ghost use Rattle.layers.specs.Standing.{below, standing};

use crate::layering::Layer;
use crate::observations::{AlreadyObserved, Observation, Observations};
use atoms::Atom;

// A source under observations.
pub type Observed<S> = Layer<Observations, S>;

impl<S> Layer<Observations, S> {
    // A layer with no observation.
    pub fn new(source: S) -> Observed<S>
        ensures standing { standing result ≡ [] }
        ensures below { below result ≡ source }
    {
        Layer {
            own: Observations::new(),
            source,
        }
    }

    // The observations that stand, in the order in which they were made.
    pub fn standing(&self) -> &[Observation]
        ensures { result.now ≡ standing self.now }
    {
        self.own.as_slice()
    }

    // Is the atom observed, present or absent?
    pub fn is_observed(&self, atom: Atom) -> bool
        ensures { result ≡ seen (standing self.now) (index atom) }
    {
        self.own.has(atom)
    }

    // Takes one more observation. Refused exactly where its atom is observed already, and then nothing changes.
    pub fn observe(&mut self, observation: Observation) -> Result<(), AlreadyObserved>
        ensures verdict { is_ok result ≡ not (seen (standing self.old) (index observation.atom)) }
        ensures standing { standing self.new
            ≡ (if is_ok result then standing self.old ++ observation ∷ [] else standing self.old) }
        ensures below { below self.new ≡ below self.old }
        ensures unchanged { is_ok result ≡ false → self.new ≡ self.old }
    {
        self.own.push(observation)
    }

    // Takes the latest observation back, and gives it; `None` exactly where none stands.
    pub fn withdraw(&mut self) -> Option<Observation>
        ensures standing { MatchOption result
            ((standing self.old ≡ []) × (standing self.new ≡ []))
            (λ o. standing self.old ≡ standing self.new ++ o ∷ []) }
        ensures below { below self.new ≡ below self.old }
        ensures unchanged { is_some result ≡ false → self.new ≡ self.old }
    {
        self.own.pop()
    }
}
