#![tactic(auto)]
// Runs of calls on cases, over tables and flat shelves.
pub mod lending;
pub mod tables;
#[cfg(test)]
mod tests;
