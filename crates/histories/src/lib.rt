#![tactic(auto)]
// Histories: runs of calls on a case, and the law that the answers of a whole run keep.
pub mod calls;
pub mod replays;
pub mod standings;
mod states;
pub mod theorems;

pub use calls::{Answer, Call, Entry};
pub use replays::replay;
pub use standings::case_after;
