#![tactic(auto)]
// From the bytes of a sheet to the bytes of the report of its explanations.
ghost use Rattle.std.specs.Prelude.{IfOk};
ghost use Rattle.explaining.specs.Explained.{Explained, OnePrinted};

use sheets::Sheet;
use std::alloc::{AllocError, Global};
use wording::refusal_line;

mod copying;
mod listing;
mod printing;

pub use copying::copy_clauses;
pub use listing::list_first;
use printing::print_sheet;

// How many explanations are printed at most.
pub const MOST: usize = 256;

// What `explain` prints for a text: of a sheet its explanations in list order, the first 256 of them, then `end` where there
// are no more and else `more`; of any other text the line of its refusal.
pub fn explain(heap: Global, text: &[u8]) -> Result<Vec<u8>, AllocError>
    ensures { IfOk result (λ v. Explained text.now v.items) }
{
    let mut sheet = Sheet::empty();
    match sheet.load(text) {
        Ok(()) => print_sheet(heap, &sheet),
        Err(fault) => refusal_line(heap, fault),
    }
}

// The contract of `explain` leaves no freedom: for one text, one text is printed.
pub fn one_printed()
    ensures { OnePrinted }
{}
