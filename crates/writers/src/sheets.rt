// Writing a sheet.
ghost use Rattle.std.specs.Prelude.{◌≡◌, ◌+◌, ◌*◌, ◌<◌, ◌≤◌, length, MatchOption};
ghost use Rattle.formats.specs.Format.{longest};
ghost use Rattle.writers.specs.Documents.Document.{sheet};
ghost use Rattle.writers.specs.Replies.{Reply};

use crate::WriteRefusal;
use crate::headings::Heading;
use clauses::Clause;
use formats::LONGEST;

// Writes a sheet to the front of the buffer, from its names line and its clauses, and replies with its length.
// The later bytes stay as they are, and a refusal changes no byte.
// The caller gives the buffer and is told how much of it is filled, by a rule of the project: no heap.
pub fn write_sheet(names: &[u8], clauses: &[Clause], out: &mut [u8]) -> Result<usize, WriteRefusal>
    ensures { Reply names.now (sheet clauses.now) out.old result out.new }
{
    let heading = Heading::read(names)?;
    if heading.any_unfit(clauses.iter().copied()) {
        return Err(WriteRefusal::Atoms);
    }
    let size = sheet_size(&heading, clauses.len()).ok_or(WriteRefusal::Long)?;
    if out.len() < size {
        return Err(WriteRefusal::Room);
    }
    heading.put(clauses.iter().copied(), out);
    Ok(size)
}

// The length of a sheet with so many clauses under the names line, where it is not too long.
fn sheet_size(heading: &Heading, clauses: usize) -> Option<usize>
    ensures { MatchOption result
        (longest < length heading.now.line.now + clauses * (2 * heading.now.count))
        (λ size. (size ≡ length heading.now.line.now + clauses * (2 * heading.now.count)) × (size ≤ longest)) }
{
    let lines = clauses.checked_mul(heading.width())?;
    let size = lines.checked_add(heading.line.len())?;
    (size <= LONGEST).then_some(size)
}
