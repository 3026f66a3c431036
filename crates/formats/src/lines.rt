// Reading clause lines.
ghost use Rattle.std.specs.Prelude.{◌≡◌, ◌+◌, ◌*◌, ◌/◌, ◌≤◌, length, Decides, MatchOption, MatchResult};
ghost use Rattle.formats.specs.Format.{Value, longest, most_names};
ghost use Rattle.formats.specs.Outcomes.{StopsWith};
ghost use Rattle.formats.specs.Places.{Cell, RowAt, RowsAt, Stops, place};

use crate::SheetFault;

// Is this a value?
fn is_value(b: u8) -> bool
    ensures { Decides result (Value b) }
{
    matches!(b, b'b' | b'h' | b'.')
}

// Is this a value with what stands after it?
fn is_cell(cell: &[u8], after: u8) -> bool
    ensures { Decides result (Cell after cell.now) }
{
    matches!(cell, [value, end] if is_value(*value) && *end == after)
}

// How many values a clause line has, as many as there are names.
#[derive(Clone, Copy)]
pub(crate) struct Columns {
    pub(crate) names: usize,
    ghost some: { 1 ≤ names },
    ghost few: { names ≤ most_names },
}

impl Columns {
    // Is this a clause line?
    fn is_clause_line(self, line: &[u8]) -> bool
        ensures { Decides result ((length line.now ≡ 2 * self.names) × RowAt line.now self.names 0) }
    {
        let last = self.names - 1;
        line.len() == 2 * self.names
            && line.chunks(2).enumerate().all(|(k, cell)| {
                let after = if k == last { b'\n' } else { b' ' };
                is_cell(cell, after)
            })
    }

    // The number, from 0, of the first line that is no clause line.
    fn wrong_line(self, text: &[u8]) -> Option<usize>
        ensures { MatchOption result
            (RowsAt text.now self.names 0 (length text.now / (2 * self.names))
            × (place 0 self.names (length text.now / (2 * self.names)) ≡ length text.now))
            (λ i. Stops text.now self.names 0 (i + 2)) }
    {
        text.chunks(2 * self.names)
            .position(|line| !self.is_clause_line(line))
    }

    // Reads a text as clause lines, and counts them.
    pub(crate) fn clause_lines(self, text: &[u8]) -> Result<usize, SheetFault>
        requires { length text.now ≤ longest }
        ensures { MatchResult result
            (λ count. RowsAt text.now self.names 0 count × (place 0 self.names count ≡ length text.now))
            (StopsWith text.now self.names) }
    {
        match self.wrong_line(text) {
            Some(i) => Err(SheetFault::Clause(i + 2)),
            None => Ok(text.len() / (2 * self.names)),
        }
    }
}
