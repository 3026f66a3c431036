#![tactic(auto)]
// Judging a set in a case at rest: is it a model, is it a minimal one, and why is each of its atoms in it?
mod judges;
pub mod laws;
mod reasoning;
pub mod records;

pub use judges::Judged;
pub use records::{Reason, ReasonsRefusal};

#[cfg(test)]
mod tests;
