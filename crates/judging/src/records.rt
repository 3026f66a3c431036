// The record of a reason, and why reasons are refused.
ghost use Rattle.std.specs.Prelude.{◌≡◌, Some};
ghost use Rattle.atoms.specs.Atoms.{index};
ghost use Rattle.clauses.specs.declared.origins.Kind.TheVariants.{Sheet};
ghost use Rattle.judging.specs.Refusals.{reasons_number, reasons_words};
ghost use Rattle.judging.specs.declared.records.ReasonsRefusal.TheVariants.{TooFewRecords};

use atoms::Atom;
use clauses::{Kind, Origin};
use lists::Full;
use std::error::Error;
use std::fmt;

// Why an atom is in a set: the origin of the first clause that the set without the atom breaks.
#[derive(Clone, Copy, PartialEq, Eq, Debug)]
pub struct Reason {
    pub atom: Atom,
    pub origin: Origin,
}

impl Reason {
    // A record to be written over.
    pub fn blank() -> Reason
        ensures atom { index result.atom ≡ 0 }
        ensures origin { result.origin ≡ record { kind = Sheet; number = 0 } }
    {
        Reason {
            atom: Atom::new(0).unwrap(),
            origin: Origin {
                kind: Kind::Sheet,
                number: 0,
            },
        }
    }
}

// Why no reasons are given.
#[derive(Clone, Copy, PartialEq, Eq, Debug)]
pub enum ReasonsRefusal {
    NoModel,
    NoReason,
    TooFewRecords,
}

// The number by which a refusal is told to other programs.
impl From<ReasonsRefusal> for u8 {
    ghost from_gives = { λ refusal number. number ≡ reasons_number refusal };

    fn from(refusal: ReasonsRefusal) -> u8 {
        match refusal {
            ReasonsRefusal::NoModel => 10,
            ReasonsRefusal::NoReason => 11,
            ReasonsRefusal::TooFewRecords => 12,
        }
    }
}

// Why, in words.
impl fmt::Display for ReasonsRefusal {
    ghost output = { λ refusal. Some (reasons_words refusal) };

    fn fmt<W: fmt::Write>(&self, f: &mut fmt::Formatter<W>) -> fmt::Result {
        f.write_str(match self {
            ReasonsRefusal::NoModel => "it is no model",
            ReasonsRefusal::NoReason => "one of the names has no reason, and can be left out",
            ReasonsRefusal::TooFewRecords => "there are more names than records",
        })
    }
}

impl Error for ReasonsRefusal {}

// A list of records that is full has too few of them.
impl From<Full> for ReasonsRefusal {
    ghost from_gives = { λ _ r. r ≡ TooFewRecords };

    fn from(_full: Full) -> ReasonsRefusal {
        Self::TooFewRecords
    }
}
