// The report of a list of one set.
ghost use Rattle.std.specs.Prelude.{true, [], ◌∷◌};
ghost use Rattle.writers.specs.Documents.Document.{report};
ghost use Rattle.writers.specs.Replies.{Reply};

use atoms::AtomSet;
use shelves::{FlatShelf, Shelf};
use writers::{WriteRefusal, write_report};

// Writes the report of the set under a names line, as a list that has no other.
pub fn report_alone(names: &[u8], set: AtomSet, out: &mut [u8]) -> Result<usize, WriteRefusal>
    ensures { Reply names.now (report (set ∷ []) true) out.old result out.new }
{
    let mut memory = [AtomSet::empty()];
    let mut shelf = FlatShelf::new(&mut memory);
    shelf.keep(set).unwrap();
    write_report(names, &shelf, true, out)
}
