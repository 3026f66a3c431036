// The names line that a text begins with.
ghost use Rattle.std.specs.Prelude.{◌≡◌, ◌*◌, ◌≤◌, MatchResult};
ghost use Rattle.atoms.specs.Atoms.{width};
ghost use Rattle.writers.specs.Refusals.{Heading as IsHeading, NamesRefused};

use crate::WriteRefusal;
use formats::{names_line, repeats};

// A names line that is as described and repeats no name, and how many names it holds.
#[derive(Clone, Copy)]
pub(crate) struct Heading<'a> {
    pub(crate) line: &'a [u8],
    pub(crate) count: usize,
    ghost some: { 1 ≤ count },
    ghost few: { count ≤ width },
}

impl<'a> Heading<'a> {
    // Reads a names line that ends where the text ends.
    pub(crate) fn read(text: &'a [u8]) -> Result<Heading<'a>, WriteRefusal>
        ensures { MatchResult result
            (λ heading. (heading.line.now ≡ text.now) × IsHeading text.now heading.count)
            (NamesRefused text.now) }
    {
        let Some(first) = names_line(text) else {
            return Err(WriteRefusal::Names);
        };
        if first.size != text.len() {
            return Err(WriteRefusal::Names);
        }
        if repeats(text) {
            return Err(WriteRefusal::Twice);
        }
        Ok(Heading {
            line: text,
            count: first.count,
        })
    }

    // How many bytes each line has under the names line.
    pub(crate) fn width(&self) -> usize
        ensures { result ≡ 2 * self.now.count }
    {
        2 * self.count
    }
}
