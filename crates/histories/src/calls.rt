// The calls that a case takes, and entries of them with their answers.
ghost use Rattle.std.specs.Prelude.{◌≡◌, MatchResult};
ghost use Rattle.histories.specs.Answers.{told_request, unmade};
ghost use Rattle.histories.specs.declared.calls.Answer.TheVariants.{Done, ObserveRefused, WithdrawRefused};

use atoms::AtomSet;
use cases::{ObserveRefusal, RequestRefusal, WithdrawRefusal};

// The calls that a case takes.
#[derive(Clone, Copy, PartialEq, Eq, Debug)]
pub enum Call {
    // the atom of a number is present, or absent
    Observe(u8, bool),
    Withdraw,
    Open,
    Request,
    Close,
}

// What a call is answered. One enum for all calls: as a `Result` it would need an error enum of the three refusals beside it.
#[derive(Clone, Copy, PartialEq, Eq, Debug)]
pub enum Answer {
    // the call is not made yet. With an option in its place an entry takes 32 bytes and not 24 of the memory that is lent.
    Pending,
    Done,
    Explanation(AtomSet),
    NoMore,
    ObserveRefused(ObserveRefusal),
    WithdrawRefused(WithdrawRefusal),
    RequestRefused(RequestRefusal),
}

// A call with its answer.
#[derive(Clone, Copy, PartialEq, Eq, Debug)]
pub struct Entry {
    pub call: Call,
    pub answer: Answer,
}

// What a refused observation is answered.
impl From<ObserveRefusal> for Answer {
    ghost from_gives = { λ refusal answer. answer ≡ ObserveRefused refusal };

    fn from(refusal: ObserveRefusal) -> Answer {
        Answer::ObserveRefused(refusal)
    }
}

// What a refused withdrawal is answered.
impl From<WithdrawRefusal> for Answer {
    ghost from_gives = { λ refusal answer. answer ≡ WithdrawRefused refusal };

    fn from(refusal: WithdrawRefusal) -> Answer {
        Answer::WithdrawRefused(refusal)
    }
}

// What an observation or a withdrawal is answered.
impl<E: Into<Answer>> From<Result<(), E>> for Answer {
    ghost from_gives = { λ reply answer. MatchResult reply (λ _. answer ≡ Done)
        (λ refusal. E.Into.converts refusal answer) };

    fn from(reply: Result<(), E>) -> Answer {
        match reply {
            Ok(()) => Answer::Done,
            Err(refusal) => refusal.into(),
        }
    }
}

// What a request is answered.
impl From<Result<Option<AtomSet>, RequestRefusal>> for Answer {
    ghost from_gives = { λ reply answer. answer ≡ told_request reply };

    fn from(reply: Result<Option<AtomSet>, RequestRefusal>) -> Answer {
        match reply {
            Ok(Some(set)) => Answer::Explanation(set),
            Ok(None) => Answer::NoMore,
            Err(refusal) => Answer::RequestRefused(refusal),
        }
    }
}

// A call that is not made yet.
impl From<Call> for Entry {
    ghost from_gives = { λ call entry. entry ≡ unmade call };

    fn from(call: Call) -> Entry {
        Entry {
            call,
            answer: Answer::Pending,
        }
    }
}
