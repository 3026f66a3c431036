// Runs of calls on a case over a table, with an indexed shelf.
ghost use Rattle.std.specs.Prelude.{min, length, take};
ghost use Rattle.clauses.specs.Sources.{placed};
ghost use Rattle.histories.specs.Answers.{Made};
ghost use Rattle.histories.specs.Histories.{Complete};
ghost use Rattle.lists.specs.Limit.{limit};

use clauses::{Clause, Table};
use histories::{Entry, replay};
use indexed::{IndexedShelf, ShelfRecord};

// Makes the calls of the entries on a new case over the clauses, with an indexed shelf in the memory, and writes their answers
// into the entries. Gives back how many calls it made: it stops before the first that is not in turn.
// Apart from `case_tests::lending::replay_lent`: one function of both needs a trait of shelves made on memory, for two lines.
pub fn replay_indexed(
    clauses: &[Clause],
    memory: &mut [ShelfRecord],
    entries: &mut [Entry],
) -> usize
    ensures made { Made entries.old entries.new result }
    ensures complete { Complete (placed clauses.now) (min (length memory.old) limit)
        (take result entries.new) }
{
    let mut shelf = IndexedShelf::new(memory);
    let (_, made) = replay(Table::new(clauses), &mut shelf, entries);
    made
}
