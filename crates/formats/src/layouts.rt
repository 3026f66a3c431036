// Reading a whole text.
ghost use Rattle.std.specs.Result.{MatchResult};
ghost use Rattle.formats.specs.Outcomes.Outcome.{accepted};
ghost use Rattle.formats.specs.Outcomes.{Says, outcome_of};
ghost use Rattle.formats.specs.Places.{Lies, names_in, rows_in};

use crate::lines::Columns;
use crate::names::names_line;
use crate::words::repeats;
use crate::{LONGEST, SheetFault};

// Where the parts of a sheet lie in its text: how many names line 1 holds, where the clause lines start, and how many there are.
// Numbers and not slices, since the contract says where in the text the parts lie.
#[derive(Clone, Copy)]
pub struct Layout {
    pub names: usize,
    pub start: usize,
    pub clauses: usize,
}

impl Layout {
    // Reads a text as a sheet, or says why it is none.
    pub fn read(text: &[u8]) -> Result<Layout, SheetFault>
        ensures { MatchResult result
            (λ l. Says text.now (accepted (names_in l text.now) (rows_in l text.now)) × Lies text.now l)
            (λ f. Says text.now (outcome_of f)) }
    {
        if text.len() > LONGEST {
            return Err(SheetFault::Long);
        }
        let Some(first) = names_line(text) else {
            return Err(SheetFault::Names);
        };
        let columns = Columns { names: first.count };
        if repeats(text) {
            return Err(SheetFault::Twice);
        }
        let clauses = columns.clause_lines(&text[first.size..])?;
        Ok(Layout {
            names: first.count,
            start: first.size,
            clauses,
        })
    }
}
