#![tactic(auto)]
// Sheets that are read and written again, and written and read again.
ghost use Rattle.round_trips.specs.Laws.{OneRereadReply, OneRewriteReply, ReadWritten, WrittenRead};

mod reading;
mod refusals;
mod trips;

pub use refusals::{RereadRefusal, RewriteRefusal};
pub use trips::{reread, rewrite};

// An accepted text: its names line and its clauses, written, give the text again.
pub fn read_written()
    ensures { ReadWritten }
{}

// A sheet that was written is accepted, and read it has the names line and the clauses that were written.
pub fn written_read()
    ensures { WrittenRead }
{}

// The contract of `rewrite` leaves no freedom: to one input there is one reply, and one content of all that it could write.
pub fn one_rewrite_reply()
    ensures { OneRewriteReply }
{}

// And so for `reread`.
pub fn one_reread_reply()
    ensures { OneRereadReply }
{}
