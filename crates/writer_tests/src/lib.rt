#![tactic(auto)]
// Examples of written sheets and reports, of their refusals, and of the round trips.
pub mod alone;
#[cfg(test)]
mod made;
#[cfg(test)]
mod reports;
#[cfg(test)]
mod trips;
#[cfg(test)]
mod written_sheets;
