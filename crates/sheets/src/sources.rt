// A sheet is a source: it means its clauses, and answers straight from its text.
ghost use Rattle.sheets.specs.Sheets.{clauses};

use crate::Sheet;
use atoms::AtomSet;
use clauses::{Clause, Source};

impl Source for Sheet<'_> {
    ghost clauses = { clauses };

    fn first_broken(&self, set: AtomSet) -> Option<Clause> {
        self.clauses().find(|clause| clause.is_broken_by(set))
    }
}
