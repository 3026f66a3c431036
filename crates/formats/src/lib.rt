#![tactic(auto)]
// The sheet format: which texts are sheets, and where the names and the clauses of a sheet lie in its text.
ghost use Rattle.formats.specs.Outcomes.{OneOutcome};

mod faults;
mod layouts;
mod lines;
mod names;
mod words;

pub use faults::SheetFault;
pub use layouts::Layout;
pub use names::{NamesLine, names_line};
pub use words::{LineWords, find_word, line_words, repeats, word_at};

// The most bytes of a sheet, the most names, and the most bytes of a name.
pub const LONGEST: usize = 65535;

pub const MOST_NAMES: usize = 64;

pub const LONGEST_NAME: usize = 16;

// The most bytes of line 1: one byte stands after each name.
const LONGEST_LINE: usize = MOST_NAMES * (LONGEST_NAME + 1);

// A text has one outcome: an accepted text means one list of names and one list of clauses, and a refused one has one refusal.
pub fn one_outcome()
    ensures { OneOutcome }
{}
