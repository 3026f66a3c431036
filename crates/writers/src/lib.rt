#![tactic(auto)]
// Writing sheets and reports into a given buffer.
ghost use Rattle.writers.specs.Replies.{OneReply};

mod headings;
mod lines;
mod refusals;
mod reports;
mod rows;
mod sheets;

pub use refusals::WriteRefusal;
pub use reports::write_report;
pub use sheets::write_sheet;

// The contracts of `write_sheet` and `write_report` leave no freedom: to one input there is one reply, and one buffer after it.
pub fn one_reply()
    ensures { OneReply }
{}
