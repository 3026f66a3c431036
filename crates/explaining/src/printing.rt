// The bytes that are printed.
ghost use Rattle.std.specs.Prelude.{map, IfOk};
ghost use Rattle.atoms.specs.Atoms.{bits};
ghost use Rattle.formats.specs.Format.{Content};
ghost use Rattle.sheets.specs.Sheets.{clauses, names, rows};
ghost use Rattle.explaining.specs.Explained.{Listed};
ghost use Rattle.explaining.specs.Firsts.{Firsts};
ghost use Rattle.explaining.specs.Reports.{most};

use crate::MOST;
use crate::copying::copy_clauses;
use crate::listing::list_first;
use clauses::Table;
use formats::{LONGEST_NAME, MOST_NAMES};
use indexed::{IndexedShelf, ShelfRecord};
use sheets::Sheet;
use shelves::Shelf;
use std::alloc::{AllocError, Global};
use writers::write_report;

// The most bytes of a report: the names line, a line for each set, and the last line.
const LONGEST_REPORT: usize = MOST_NAMES * (LONGEST_NAME + 1) + MOST * (2 * MOST_NAMES) + 5;

// The report of the first explanations of a sheet. The search asks for the clauses again and again, so it has them as a table.
pub(crate) fn print_sheet(heap: Global, sheet: &Sheet<'_>) -> Result<Vec<u8>, AllocError>
    requires { Content (names sheet.now) (rows sheet.now) }
    ensures { IfOk result (λ v. Listed (names sheet.now) (rows sheet.now) v.items) }
{
    let records = copy_clauses(heap, sheet)?;
    let mut memory = [ShelfRecord::blank(); MOST];
    let mut shelf = IndexedShelf::new(&mut memory);
    let complete = list_first(Table::new(&records), &mut shelf);
    print_report(heap, sheet, &shelf, complete)
}

// The report of the sets on the shelf, which are the first explanations of the sheet.
// `complete` is no part of the shelf: a full shelf may hold all.
fn print_report<H: Shelf>(
    heap: Global,
    sheet: &Sheet<'_>,
    shelf: &H,
    complete: bool,
) -> Result<Vec<u8>, AllocError>
    requires { (Content (names sheet.now) (rows sheet.now)) × (Firsts (clauses sheet.now) most complete (map bits (H.Shelf.sets shelf.now))) }
    ensures { IfOk result (λ v. Listed (names sheet.now) (rows sheet.now) v.items) }
{
    let names = sheet.names_line().unwrap();
    let mut out = vec![in heap; 0; LONGEST_REPORT]?;
    let size = write_report(names, shelf, complete, &mut out).unwrap();
    out.truncate(size);
    Ok(out)
}
