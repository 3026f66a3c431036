// Why a text is no sheet.
ghost use Rattle.std.specs.Prelude.{◌≡◌};
ghost use Rattle.formats.specs.Outcomes.{line_of, number_of};

// Why a text is no sheet: it is too long, line 1 is not as described, a name stands twice, or this line is no clause line.
#[derive(Clone, Copy, PartialEq, Eq, Debug)]
pub enum SheetFault {
    Long,
    Names,
    Twice,
    Clause(usize),
}

impl SheetFault {
    // The number of the line that is no clause line, where that is the refusal.
    pub fn line(self) -> Option<usize>
        ensures { result ≡ line_of self }
    {
        match self {
            SheetFault::Clause(line) => Some(line),
            SheetFault::Long | SheetFault::Names | SheetFault::Twice => None,
        }
    }
}

// The number of the refusal.
impl From<SheetFault> for u8 {
    ghost from_gives = { λ f r. r ≡ number_of f };

    fn from(fault: SheetFault) -> u8 {
        match fault {
            SheetFault::Long => 1,
            SheetFault::Names => 2,
            SheetFault::Twice => 3,
            SheetFault::Clause(_) => 4,
        }
    }
}
