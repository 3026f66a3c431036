#![tactic(auto)]
// Sheets: a table of clauses as text, loaded without a copy, and the clauses read straight from its text.
ghost use Rattle.sheets.specs.Lines.{LinesMakeText};
ghost use Rattle.sheets.specs.Meaning.{RowsReadOff};

mod held;
mod left;
mod loading;
mod lookups;
mod reader;
mod sources;

pub use held::Sheet;
pub use left::SheetClauses;
pub use reader::{SheetLine, SheetLines};

// An atom is in the body of a clause exactly where its value is 'b', and in the head exactly where it is 'h'.
pub fn rows_read_off()
    ensures { RowsReadOff }
{}

// The lines of a sheet that has names, one after another, are its text.
pub fn lines_make_text()
    ensures { LinesMakeText }
{}
