#![tactic(auto)]
// Cases: observations over a source, and the listing of the explanations of both.
use layers::Observed;
use walks::Walk;

pub mod refusals;
mod requests;
mod resting;

pub use refusals::{ObserveRefusal, RequestRefusal, WithdrawRefusal};

// A case at rest. It takes observations, and can be opened.
#[derive(Drop)]
pub struct Case<S> {
    source: Observed<S>,
}

// A case whose explanations are being listed, where the next is to be found, and how many are handed out. It takes requests, and
// can be closed.
#[derive(Drop)]
pub struct Listing<S> {
    case: Case<S>,
    walk: Walk,
    given: usize,
}
