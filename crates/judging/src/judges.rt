// A set that is judged: is it a model of the standing clauses of a case, and is it a minimal one?
ghost use Rattle.atoms.specs.Atoms.{bits};
ghost use Rattle.clauses.specs.Clauses.{language};
ghost use Rattle.judging.specs.Standing.{judged_by};
ghost use Rattle.models.specs.Models.{Minimal, Model, first_broken};
ghost use Rattle.std.specs.Prelude.{◌≡◌, Decides};

use atoms::AtomSet;
use cases::Case;
use clauses::{Clause, Source};
use layers::Capped;
use shelves::FlatShelf;
use walks::Walk;

// A set, and the case at rest by whose standing clauses it is judged.
#[derive(Drop)]
pub struct Judged<'a, S> {
    pub case: &'a Case<S>,
    pub set: AtomSet,
}

impl<S: Source> Judged<'_, S> {
    // The first standing clause that the set breaks, or `None` exactly where it is a model of them.
    pub fn first_broken(&self) -> Option<Clause>
        ensures { result ≡ first_broken language (judged_by S.Source.clauses self.now) (bits self.now.set) }
    {
        self.case.observed().first_broken(self.set)
    }

    // Is the set a model of the standing clauses?
    pub fn is_model(&self) -> bool
        ensures { Decides result (Model language (judged_by S.Source.clauses self.now) (bits self.now.set)) }
    {
        self.first_broken().is_none()
    }

    // Is the set a minimal model of the standing clauses? A model is minimal where the search under a cap with that set
    // finds no model; it looks for one set only, so that its shelf needs no place.
    pub fn is_minimal(&self) -> bool
        ensures { Decides result (Minimal language (judged_by S.Source.clauses self.now) (bits self.now.set)) }
    {
        if !self.is_model() {
            return false;
        }
        let mut capped = Capped::new(self.case.observed());
        capped.set_cap(self.set);
        let shelf = FlatShelf::new(&mut []);
        let mut walk = Walk::new();
        walk.next(&capped, &shelf).is_none()
    }
}
