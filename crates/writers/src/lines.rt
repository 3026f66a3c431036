// The lines under a names line.
ghost use Rattle.std.specs.Prelude.{◌≡◌, ◌+◌, ◌*◌, ◌≤◌, ◌++◌, List, length, drop, MatchBool};
ghost use Rattle.formats.specs.Format.{clause_line};
ghost use Rattle.writers.specs.Documents.{Among, lines_under, row_by, row_lines};
ghost use Rattle.writers.specs.Rows.{Gives};

use crate::headings::Heading;
use crate::rows::Row;
use atoms::Atom;

impl Heading<'_> {
    // Can one of the rows `xs` not be written under the names line?
    pub(crate) fn any_unfit<R: Row, I: Iterator<Item = R> + Drop>(&self, mut rows: I) -> bool
        ghost xs: { List R }
        requires rows { Gives I.can_next I.next_gives I.remaining rows xs }
        ensures { MatchBool result
            (Among (R.unfit self.now.count) xs)
            (Among (R.unfit self.now.count) xs → ⊥) }
    {
        rows.any(|row| row.is_unfit(self.count))
    }

    // Fills the front of `out` with the names line and a line for each of the rows `xs`.
    pub(crate) fn put<R: Row, I: Iterator<Item = R> + Drop>(&self, rows: I, out: &mut [u8])
        ghost xs: { List R }
        requires rows { Gives I.can_next I.next_gives I.remaining rows xs }
        requires room { length self.now.line.now + length xs * (2 * self.now.count) ≤ length out.old }
        ensures { out.new
            ≡ lines_under R.byte self.now.line.now self.now.count xs
            ++ drop (length self.now.line.now + length xs * (2 * self.now.count)) out.old }
    {
        let (front, lines) = out.split_at_mut(self.line.len());
        front.copy_from_slice(self.line);
        self.put_rows(rows, lines);
    }

    // Fills the front of `out` with a line for each of the rows `xs`.
    fn put_rows<R: Row, I: Iterator<Item = R> + Drop>(&self, rows: I, out: &mut [u8])
        ghost xs: { List R }
        requires rows { Gives I.can_next I.next_gives I.remaining rows xs }
        requires room { length xs * (2 * self.now.count) ≤ length out.old }
        ensures { out.new
            ≡ row_lines R.byte self.now.count xs ++ drop (length xs * (2 * self.now.count)) out.old }
    {
        // By place, here and in a line: of what is written through `chunks_exact_mut` no proof knows anything after the loop.
        let width = self.width();
        for (k, row) in rows.enumerate() {
            let at = k * width;
            let line = &mut out[at..at + width];
            self.put_row(&row, line);
        }
    }

    // Fills `out` with the line of a row.
    fn put_row<R: Row>(&self, row: &R, out: &mut [u8])
        requires { length out.old ≡ 2 * self.now.count }
        ensures { out.new ≡ clause_line (row_by (R.byte row.now) self.now.count) }
    {
        for k in 0..self.count {
            out[2 * k] = row.value(Atom::new(k as u8).unwrap());
            out[2 * k + 1] = if k + 1 == self.count { b'\n' } else { b' ' };
        }
    }
}
