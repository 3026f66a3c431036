// Why a text is not written.
ghost use Rattle.std.specs.Prelude.{◌≡◌};
ghost use Rattle.writers.specs.Refusals.{number_of};

// A reason not to write a text.
#[derive(Clone, Copy, PartialEq, Eq, Debug)]
pub enum WriteRefusal {
    // The names line is not as described.
    Names,
    // A name stands twice.
    Twice,
    // A clause or a set uses an atom that has no name, or a clause has one in body and head.
    Atoms,
    // The sheet would be too long.
    Long,
    // The buffer is shorter than the text.
    Room,
}

// The number of a refusal.
impl From<WriteRefusal> for u8 {
    ghost from_gives = { λ refusal number. number ≡ number_of refusal };

    fn from(refusal: WriteRefusal) -> u8 {
        match refusal {
            WriteRefusal::Names => 2,
            WriteRefusal::Twice => 3,
            WriteRefusal::Atoms => 14,
            WriteRefusal::Long => 1,
            WriteRefusal::Room => 13,
        }
    }
}
