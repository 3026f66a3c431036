#![tactic(auto)]
// Cases that are listed on an indexed shelf, and runs of it beside the flat one.
pub mod listings;
#[cfg(test)]
mod tests;
