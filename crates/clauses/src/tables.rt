// A table of clauses: a run of records in memory that another owns.
ghost use Rattle.std.specs.Prelude.{◌≡◌};
ghost use Rattle.clauses.specs.Sources.{placed};
ghost use Rattle.clauses.specs.Tables.{table_clauses};

use crate::clauses::Clause;
use crate::origins::{Kind, Origin};
use crate::sources::Source;
use atoms::AtomSet;

// It means its records in their order, each with its place, from 0, as origin.
#[derive(Clone, Copy)]
pub struct Table<'a> {
    records: &'a [Clause],
}

impl<'a> Table<'a> {
    pub fn new(records: &'a [Clause]) -> Table<'a>
        ensures { table_clauses result ≡ placed records.now }
    {
        Table { records }
    }
}

impl Source for Table<'_> {
    ghost clauses = { table_clauses };

    fn first_broken(&self, set: AtomSet) -> Option<Clause> {
        let place = self
            .records
            .iter()
            .position(|record| record.is_broken_by(set))?;
        let record = self.records[place];
        let origin = Origin {
            kind: Kind::Table,
            number: place as u64,
        };
        Some(Clause { origin, ..record })
    }
}
