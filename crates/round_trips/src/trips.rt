// The round trips.
ghost use Rattle.round_trips.specs.Replies.{RereadReply, RewriteReply};

use crate::reading::read_clauses;
use crate::refusals::{RereadRefusal, RewriteRefusal};
use clauses::Clause;
use sheets::Sheet;
use writers::write_sheet;

// Reads a sheet and writes it again from its clauses: the buffer then begins with the bytes of the sheet, and the places
// with its clauses. Replies with the number of bytes. A refusal changes nothing.
// The caller gives the memory and is told how much of it is filled, by a rule of the project: no heap.
pub fn rewrite(text: &[u8], clauses: &mut [Clause], out: &mut [u8]) -> Result<usize, RewriteRefusal>
    ensures { RewriteReply text.now clauses.old out.old result clauses.new out.new }
{
    let mut sheet = Sheet::empty();
    sheet.load(text)?;
    let count = sheet.clause_count();
    if clauses.len() < count {
        return Err(RewriteRefusal::Places);
    }
    if out.len() < text.len() {
        return Err(RewriteRefusal::Room);
    }
    read_clauses(&sheet, clauses);
    let names = sheet.names_line().unwrap();
    Ok(write_sheet(names, &clauses[..count], out).unwrap())
}

// Writes a sheet into the buffer and reads it again: the places then begin with the clauses that were written, each with
// its line as origin. Replies with the number of clauses. A refusal changes nothing.
pub fn reread(
    names: &[u8],
    clauses: &[Clause],
    text: &mut [u8],
    again: &mut [Clause],
) -> Result<usize, RereadRefusal>
    ensures { RereadReply names.now clauses.now text.old again.old result text.new again.new }
{
    if again.len() < clauses.len() {
        return Err(RereadRefusal::Places);
    }
    let size = write_sheet(names, clauses, text)?;
    let mut sheet = Sheet::empty();
    sheet.load(&text[..size]).unwrap();
    read_clauses(&sheet, again);
    Ok(clauses.len())
}
