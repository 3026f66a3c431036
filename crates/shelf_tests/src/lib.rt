#![tactic(auto)]
// What callers can prove of lists and shelves, and runs of them.
mod callers;
mod placeless;
#[cfg(test)]
mod tests;
