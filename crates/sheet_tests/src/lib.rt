#![tactic(auto)]
// Examples of sheets: which texts are accepted, which are refused and how, and what a sheet then means.
pub mod loading;
#[cfg(test)]
mod meaning;
#[cfg(test)]
mod refusals;
#[cfg(test)]
mod sizes;
