// What reading a text as a sheet comes to, in words.
ghost use Rattle.std.specs.Prelude.{◌≡◌, IfOk};
ghost use Rattle.formats.specs.Outcomes.{line_of, number_of};
ghost use Rattle.sheets.specs.Sheets.{clauses, names};
ghost use Rattle.wording.specs.Words.{Report, refusal_line, sheet_text};

use crate::Page;
use formats::SheetFault;
use sheets::Sheet;
use std::alloc::{AllocError, Global};

// The report on a sheet.
fn accepted(heap: Global, sheet: &Sheet<'_>) -> Result<Vec<u8>, AllocError>
    ensures { IfOk result (λ v. v.items ≡ sheet_text (names sheet.now) (clauses sheet.now)) }
{
    let names = sheet.name_count();
    let clauses = sheet.clause_count();
    let mut page = Page::new(heap, sheet);
    write!(page, "accepted: {names} names, {clauses} clauses\n")?;
    page.add_clauses()?;
    Ok(page.into_text())
}

// A refusal: its number, and the line that it names.
// By number and line: the refusals of loading and of round trips are different enums, and both have these two.
pub fn refusal_words(heap: Global, number: u8, line: Option<usize>) -> Result<Vec<u8>, AllocError>
    ensures { IfOk result (λ v. v.items ≡ refusal_line number line) }
{
    let words = match line {
        Some(at) => format!(in heap; "refused {number} line {at}\n")?,
        None => format!(in heap; "refused {number}\n")?,
    };
    Ok(words.into_bytes())
}

// The report on a text that is no sheet.
pub fn refusal_line(heap: Global, fault: SheetFault) -> Result<Vec<u8>, AllocError>
    ensures { IfOk result (λ v. v.items ≡ refusal_line (number_of fault) (line_of fault)) }
{
    refusal_words(heap, u8::from(fault), fault.line())
}

// The report on a text: the names and clauses of a sheet, or why it is none.
// `explain` and `diagnose` begin alike: a closure over the loaded sheet would save two lines of four.
pub fn sheet_report(heap: Global, text: &[u8]) -> Result<Vec<u8>, AllocError>
    ensures { IfOk result (λ v. Report text.now v.items) }
{
    let mut sheet = Sheet::empty();
    match sheet.load(text) {
        Ok(()) => accepted(heap, &sheet),
        Err(fault) => refusal_line(heap, fault),
    }
}
