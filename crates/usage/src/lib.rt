#![tactic(auto)]
// What the programs share in speaking to a person: their arguments, how they run, and what a refused sheet is to be.
pub mod advice;
pub mod arguments;
pub mod programs;
#[cfg(test)]
mod tests;

pub use advice::{Advice, advise};
pub use arguments::{asks_for_help, early_status};
pub use programs::{Program, answer_all, run};
