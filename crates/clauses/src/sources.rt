// A source means an ordered list of clauses, and answers one question about it.
ghost use Rattle.std.specs.Prelude.{◌≡◌, List};
ghost use Rattle.atoms.specs.Atoms.{bits};
ghost use Rattle.models.specs.Models.{first_broken};
ghost use Rattle.clauses.specs.Clauses.{language};
ghost use Rattle.clauses.specs.declared.clauses.Clause.{Clause};

use crate::clauses::Clause;
use atoms::AtomSet;

pub trait Source {
    // the clauses that the source means, in their order
    ghost clauses: { Self → List Clause };

    // The first clause of the list that the set breaks, or `None` exactly when the set is a model of the list.
    fn first_broken(&self, set: AtomSet) -> Option<Clause>
        ensures { result ≡ first_broken language (clauses self.now) (bits set) };
}

// What lends a source is a source, so that one question needs no copy and no change of the lender.
impl<S: Source> Source for &S {
    ghost clauses = { λ s. S.Source.clauses s.now };

    fn first_broken(&self, set: AtomSet) -> Option<Clause> {
        (**self).first_broken(set)
    }
}
