#![tactic(auto)]
// Layers over a source: each adds clauses of its own in front of those of the source below it.
pub mod capped;
pub mod laws;
pub mod layering;
pub mod observations;
pub mod observed;

pub use capped::{Cap, Capped};
pub use layering::Layer;
pub use observations::{AlreadyObserved, Observation, Observations};
pub use observed::Observed;

#[cfg(test)]
mod tests;
