// Why a round trip is not made.
ghost use Rattle.std.specs.Prelude.{◌≡◌};
ghost use Rattle.round_trips.specs.Refusals.{from_fault, from_refusal, reread_number, rewrite_line, rewrite_number};

use formats::SheetFault;
use writers::WriteRefusal;

// Why a sheet is not written again.
#[derive(Clone, Copy, PartialEq, Eq, Debug)]
pub enum RewriteRefusal {
    // The text is no sheet.
    Load(SheetFault),
    // There are fewer places than clauses.
    Places,
    // The buffer is shorter than the text.
    Room,
}

// The number of a refusal: memory that is too short has one number.
impl From<RewriteRefusal> for u8 {
    ghost from_gives = { λ refusal number. number ≡ rewrite_number refusal };

    fn from(refusal: RewriteRefusal) -> u8 {
        match refusal {
            RewriteRefusal::Load(fault) => u8::from(fault),
            RewriteRefusal::Places | RewriteRefusal::Room => 13,
        }
    }
}

impl RewriteRefusal {
    // The number of the line that is no clause line, where that is the refusal.
    pub fn line(self) -> Option<usize>
        ensures { result ≡ rewrite_line self }
    {
        match self {
            RewriteRefusal::Load(fault) => fault.line(),
            RewriteRefusal::Places | RewriteRefusal::Room => None,
        }
    }
}

impl From<SheetFault> for RewriteRefusal {
    ghost from_gives = { λ f r. r ≡ from_fault f };

    fn from(f: SheetFault) -> RewriteRefusal {
        RewriteRefusal::Load(f)
    }
}

// Why clauses are not written and read again.
#[derive(Clone, Copy, PartialEq, Eq, Debug)]
pub enum RereadRefusal {
    // There are fewer places than clauses.
    Places,
    // The clauses are not written.
    Write(WriteRefusal),
}

// The number of a refusal.
impl From<RereadRefusal> for u8 {
    ghost from_gives = { λ refusal number. number ≡ reread_number refusal };

    fn from(refusal: RereadRefusal) -> u8 {
        match refusal {
            RereadRefusal::Places => 13,
            RereadRefusal::Write(refusal) => u8::from(refusal),
        }
    }
}

impl From<WriteRefusal> for RereadRefusal {
    ghost from_gives = { λ f r. r ≡ from_refusal f };

    fn from(f: WriteRefusal) -> RereadRefusal {
        RereadRefusal::Write(f)
    }
}
