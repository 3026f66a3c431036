#![tactic(auto)]
// Clauses, where they come from, and sources: a source means a list of clauses.
pub mod clauses;
pub mod origins;
pub mod sources;
pub mod tables;
#[cfg(test)]
mod tests;

pub use clauses::Clause;
pub use origins::{Kind, Origin};
pub use sources::Source;
pub use tables::Table;
