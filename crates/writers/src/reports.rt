// Writing a report.
ghost use Rattle.std.specs.Prelude.{◌≡◌};
ghost use Rattle.writers.specs.Documents.Document.{report};
ghost use Rattle.writers.specs.Documents.{last_line};
ghost use Rattle.writers.specs.Replies.{Reply};

use crate::WriteRefusal;
use crate::headings::Heading;
use shelves::Shelf;

// Writes a report to the front of the buffer, from a names line, the sets of a shelf and whether these are all, and
// replies with its length. The later bytes stay as they are, and a refusal changes no byte.
// `complete` is no part of the shelf: a full shelf may hold all.
pub fn write_report<H: Shelf>(
    names: &[u8],
    shelf: &H,
    complete: bool,
    out: &mut [u8],
) -> Result<usize, WriteRefusal>
    ensures { Reply names.now (report (H.Shelf.sets shelf.now) complete) out.old result out.new }
{
    let heading = Heading::read(names)?;
    if heading.any_unfit(shelf.iter()) {
        return Err(WriteRefusal::Atoms);
    }
    let last = last_line(complete);
    let lines = names.len() + shelf.len() * heading.width();
    let size = lines + last.len();
    if out.len() < size {
        return Err(WriteRefusal::Room);
    }
    heading.put(shelf.iter(), out);
    out[lines..lines + last.len()].copy_from_slice(last);
    Ok(size)
}

// The last line of a report.
fn last_line(complete: bool) -> &'static [u8]
    ensures { result.now ≡ last_line complete }
{
    if complete { b"end\n" } else { b"more\n" }
}
