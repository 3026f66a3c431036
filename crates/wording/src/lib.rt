#![tactic(auto)]
// Clauses, and what reading a sheet comes to, in words.
mod pages;
mod reports;
#[cfg(test)]
mod tests;

pub use pages::Page;
pub use reports::{refusal_line, refusal_words, sheet_report};
