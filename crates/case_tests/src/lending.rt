// Runs of calls on a case over a table, with a flat shelf, and what the lender of its memory then finds there.
ghost use Rattle.std.specs.Prelude.{◌≡◌, List, [], map, min, length, take};
ghost use Rattle.atoms.specs.Atoms.{bits};
ghost use Rattle.clauses.specs.Sources.{placed};
ghost use Rattle.histories.specs.Answers.{Made, handed};
ghost use Rattle.histories.specs.Histories.{Complete, Listed};
ghost use Rattle.histories.specs.declared.calls.Entry.{Entry};
ghost use Rattle.lists.specs.Limit.{limit};

use atoms::AtomSet;
use clauses::{Clause, Table};
use histories::{Entry, replay};
use shelves::FlatShelf;

// Makes the calls of the entries on a new case over the clauses, with a flat shelf in the memory, and writes their answers
// into the entries. Gives back how many calls it made. Where they leave a listing open, the memory begins with the sets that
// the listing has handed out.
pub fn replay_lent(clauses: &[Clause], memory: &mut [AtomSet], entries: &mut [Entry]) -> usize
    ensures made { Made entries.old entries.new result }
    ensures complete { Complete (placed clauses.now) (min (length memory.old) limit)
        (take result entries.new) }
    ensures memory { (before during : List Entry)
        → Listed (take result entries.new) before during []
        → map bits (take (length (handed during)) memory.new) ≡ handed during }
{
    let mut shelf = FlatShelf::new(memory);
    let (_, made) = replay(Table::new(clauses), &mut shelf, entries);
    made
}
