// Why a call is refused, in words, and the numbers by which refusals are told to other programs.
ghost use Rattle.std.specs.Prelude.{◌≡◌, Some};
ghost use Rattle.cases.specs.Refusals.{observe_number, request_number, withdraw_number};
ghost use Rattle.cases.specs.Refusals.{observe_words, request_words, withdraw_words};
ghost use Rattle.cases.specs.declared.refusals.ObserveRefusal.TheVariants.{AlreadyObserved as observed_already};
ghost use Rattle.cases.specs.declared.refusals.RequestRefusal.TheVariants.{ShelfFull};

use layers::AlreadyObserved;
use shelves::Full;
use std::error::Error;
use std::fmt;

// Why an observation is not taken.
#[derive(Clone, Copy, PartialEq, Eq, Debug)]
pub enum ObserveRefusal {
    NoSuchAtom,
    AlreadyObserved,
}

// Why no observation is taken back.
#[derive(Clone, Copy, PartialEq, Eq, Debug)]
pub enum WithdrawRefusal {
    NothingObserved,
}

// Why a request hands out nothing.
#[derive(Clone, Copy, PartialEq, Eq, Debug)]
pub enum RequestRefusal {
    WrongShelf,
    ShelfFull,
}

impl From<AlreadyObserved> for ObserveRefusal {
    ghost from_gives = { λ _ refusal. refusal ≡ observed_already };

    fn from(_: AlreadyObserved) -> ObserveRefusal {
        ObserveRefusal::AlreadyObserved
    }
}

impl From<Full> for RequestRefusal {
    ghost from_gives = { λ _ refusal. refusal ≡ ShelfFull };

    fn from(_: Full) -> RequestRefusal {
        RequestRefusal::ShelfFull
    }
}

impl From<ObserveRefusal> for u8 {
    ghost from_gives = { λ refusal number. number ≡ observe_number refusal };

    fn from(refusal: ObserveRefusal) -> u8 {
        match refusal {
            ObserveRefusal::NoSuchAtom => 5,
            ObserveRefusal::AlreadyObserved => 6,
        }
    }
}

impl From<WithdrawRefusal> for u8 {
    ghost from_gives = { λ refusal number. number ≡ withdraw_number refusal };

    fn from(refusal: WithdrawRefusal) -> u8 {
        match refusal {
            WithdrawRefusal::NothingObserved => 7,
        }
    }
}

impl From<RequestRefusal> for u8 {
    ghost from_gives = { λ refusal number. number ≡ request_number refusal };

    fn from(refusal: RequestRefusal) -> u8 {
        match refusal {
            RequestRefusal::WrongShelf => 8,
            RequestRefusal::ShelfFull => 9,
        }
    }
}

impl fmt::Display for ObserveRefusal {
    ghost output = { λ refusal. Some (observe_words refusal) };

    fn fmt<W: fmt::Write>(&self, f: &mut fmt::Formatter<W>) -> fmt::Result {
        f.write_str(match self {
            ObserveRefusal::NoSuchAtom => "there is no such atom",
            ObserveRefusal::AlreadyObserved => "it is observed already",
        })
    }
}

impl fmt::Display for WithdrawRefusal {
    ghost output = { λ refusal. Some (withdraw_words refusal) };

    fn fmt<W: fmt::Write>(&self, f: &mut fmt::Formatter<W>) -> fmt::Result {
        f.write_str(match self {
            WithdrawRefusal::NothingObserved => "nothing is observed",
        })
    }
}

impl fmt::Display for RequestRefusal {
    ghost output = { λ refusal. Some (request_words refusal) };

    fn fmt<W: fmt::Write>(&self, f: &mut fmt::Formatter<W>) -> fmt::Result {
        f.write_str(match self {
            RequestRefusal::WrongShelf => "the shelf has another number of sets",
            RequestRefusal::ShelfFull => "the shelf is full, and an explanation is left",
        })
    }
}

impl Error for ObserveRefusal {}

impl Error for WithdrawRefusal {}

impl Error for RequestRefusal {}
