// A case in either of its states, and one call on it.
ghost use Rattle.std.specs.Prelude.{◌≡◌};
ghost use Rattle.histories.specs.Phases.{onwards, Phase, Rightly};
ghost use Rattle.histories.specs.States.{Agrees, below_of};

use crate::calls::{Answer, Call};
use cases::{Case, Listing};
use clauses::Source;
use shelves::Shelf;

// A case at rest, or one whose explanations are being listed.
pub enum State<S> {
    AtRest(Case<S>),
    Listed(Listing<S>),
}

impl<S> State<S> {
    // Ends the case, and gives its source back.
    pub(crate) fn into_source(self) -> S
        ensures { result ≡ below_of self }
    {
        match self {
            State::AtRest(case) => case.into_source(),
            State::Listed(listing) => listing.close().into_source(),
        }
    }
}

impl<S: Source> State<S> {
    // Makes a call, and answers it; no answer where the call is not for the state.
    pub(crate) fn perform<H: Shelf>(self, call: Call, shelf: &mut H) -> (State<S>, Option<Answer>)
        ensures below { below_of result.0 ≡ below_of self }
        ensures room { H.Shelf.room shelf.new ≡ H.Shelf.room shelf.old }
        ensures lender { H.Shelf.lender shelf.new ≡ H.Shelf.lender shelf.old }
        ensures right { (p : Phase) → Agrees S.Source.clauses self (H.Shelf.sets shelf.old) p
            → Rightly (S.Source.clauses (below_of self)) (H.Shelf.room shelf.old) p call result.1 }
        ensures agrees { (p : Phase) → Agrees S.Source.clauses self (H.Shelf.sets shelf.old) p
            → Agrees S.Source.clauses result.0 (H.Shelf.sets shelf.new) (onwards p call result.1) }
    {
        match (self, call) {
            (State::AtRest(mut case), Call::Observe(atom, present)) => {
                let answer = Answer::from(case.observe(atom, present));
                (State::AtRest(case), Some(answer))
            }
            (State::AtRest(mut case), Call::Withdraw) => {
                let answer = Answer::from(case.withdraw());
                (State::AtRest(case), Some(answer))
            }
            (State::AtRest(case), Call::Open) => {
                shelf.clear();
                (State::Listed(case.open()), Some(Answer::Done))
            }
            (State::Listed(mut listing), Call::Request) => {
                let answer = Answer::from(listing.request(shelf));
                (State::Listed(listing), Some(answer))
            }
            (State::Listed(listing), Call::Close) => {
                (State::AtRest(listing.close()), Some(Answer::Done))
            }
            (state, _) => (state, None),
        }
    }
}
