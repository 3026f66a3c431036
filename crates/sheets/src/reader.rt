// Reading a sheet line by line, or clause by clause.
ghost use Rattle.std.specs.Prelude.{◌≡◌, length};
ghost use Rattle.std.specs.Iterator.{YieldsFirst, at_most, item_count};
ghost use Rattle.sheets.specs.Lines.{Step, clauses_left, left as lines_left, sheet_lines};
ghost use Rattle.sheets.specs.Sheets.{clauses, names, rows};

use crate::{Sheet, SheetClauses};
use clauses::Clause;

// A line of a sheet: a part of its text, with its byte 10, and the line's number.
#[derive(Clone, Copy)]
pub enum SheetLine<'a> {
    Names { text: &'a [u8], number: usize },
    Clause { text: &'a [u8], number: usize },
}

// A reader of the lines of a sheet, which has handed out the first `read` of them.
// `read` is a number: a `Range` is not `Copy`, and a reader is.
#[derive(Clone, Copy)]
pub struct SheetLines<'a> {
    sheet: Sheet<'a>,
    read: usize,
}

impl<'a> Sheet<'a> {
    // A reader of the lines, from the first.
    pub fn lines(&self) -> SheetLines<'a>
        ensures { lines_left result ≡ sheet_lines (names self.now) (rows self.now) }
    {
        SheetLines {
            sheet: *self,
            read: 0,
        }
    }

    // The clauses, from the first.
    pub fn clauses(&self) -> SheetClauses<'a>
        ensures { clauses_left result ≡ clauses self.now }
    {
        SheetClauses {
            sheet: *self,
            left: 0..self.layout.clauses,
        }
    }
}

impl<'a> Iterator for SheetLines<'a> {
    type Item = SheetLine<'a>;

    ghost next_gives = { Step };

    ghost remaining = { λ r. at_most (length (lines_left r)) };

    fn next(&mut self) -> Option<SheetLine<'a>> {
        let read = self.read;
        let text = self.sheet.names_line()?;
        if read > self.sheet.layout.clauses {
            return None;
        }
        self.read = read + 1;
        if read == 0 {
            Some(SheetLine::Names { text, number: 1 })
        } else {
            Some(SheetLine::Clause {
                text: self.sheet.row(read - 1),
                number: read + 1,
            })
        }
    }
}

impl Iterator for SheetClauses<'_> {
    type Item = Clause;

    ghost next_gives = { YieldsFirst clauses_left };

    ghost remaining = { item_count clauses_left };

    fn next(&mut self) -> Option<Clause> {
        Some(self.sheet.clause(self.left.next()?))
    }
}
