// Records of the tables of examples.
ghost use Rattle.std.specs.Prelude.{◌≡◌};
ghost use Rattle.atoms.specs.Atoms.{bits};
ghost use Rattle.clauses.specs.declared.origins.Kind.TheVariants.{Table};

use atoms::AtomSet;
use clauses::{Clause, Kind, Origin};

// Asks for one of the atoms of the word. Its origin is the first place: a table tells its own.
pub fn one_of(word: u64) -> Clause
    ensures body { bits result.body ≡ 0 }
    ensures head { bits result.head ≡ word }
    ensures origin { result.origin ≡ record { kind = Table; number = 0 } }
{
    Clause {
        body: AtomSet::empty(),
        head: AtomSet::from_word(word),
        origin: Origin {
            kind: Kind::Table,
            number: 0,
        },
    }
}
