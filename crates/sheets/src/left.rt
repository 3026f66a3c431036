// The struct `SheetClauses`, and what holds of its fields.
ghost use Rattle.std.specs.Prelude.{◌≡◌};

use crate::Sheet;
use std::ops::Range;

// The clauses of a sheet, in their order: `left` are the places, from 0, of those that are left.
#[derive(Drop)]
pub struct SheetClauses<'a> {
    pub(crate) sheet: Sheet<'a>,
    pub(crate) left: Range<usize>,
    ghost last: { left.end ≡ sheet.layout.clauses },
}
