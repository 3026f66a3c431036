// The origin of a clause: what kind of source gave it, and under which number.
ghost use Rattle.std.specs.Prelude.{◌≡◌, Some};
ghost use Rattle.clauses.specs.Origins.{code_of, origin_words};

use std::fmt;

// What gave a clause.
#[derive(Clone, Copy, PartialEq, Eq, Debug)]
pub enum Kind {
    Sheet,
    Table,
    Observation,
    Cap,
}

// Where a clause comes from: the number is its line in a sheet, its place in a table, how many observations stand
// before it, or the atom that a cap denies.
#[derive(Clone, Copy, PartialEq, Eq, Debug)]
pub struct Origin {
    pub kind: Kind,
    pub number: u64,
}

// The number by which a kind is told to other programs.
impl From<Kind> for u8 {
    ghost from_gives = { λ k r. r ≡ code_of k };

    fn from(kind: Kind) -> u8 {
        match kind {
            Kind::Sheet => 0,
            Kind::Table => 1,
            Kind::Observation => 2,
            Kind::Cap => 3,
        }
    }
}

// An origin in words, as `line 3` or `observation 1`: lines and observations are counted from 1.
impl fmt::Display for Origin {
    ghost output = { λ o. Some (origin_words o) };

    fn fmt<W: fmt::Write>(&self, f: &mut fmt::Formatter<W>) -> fmt::Result {
        let number = u128::from(self.number);
        match self.kind {
            Kind::Sheet => write!(f, "line {number}"),
            Kind::Table => write!(f, "record {number}"),
            Kind::Observation => {
                let place = number + 1;
                write!(f, "observation {place}")
            }
            Kind::Cap => write!(f, "cap {number}"),
        }
    }
}
