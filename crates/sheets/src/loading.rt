// Loading a sheet, and what it then holds.
ghost use Rattle.std.specs.Prelude.{◌≡◌, ◌≤◌, [], length, MatchResult};
ghost use Rattle.formats.specs.Format.{longest, most_names};
ghost use Rattle.formats.specs.Outcomes.Outcome.{accepted};
ghost use Rattle.formats.specs.Outcomes.{Says, outcome_of};
ghost use Rattle.sheets.specs.Sheets.{clauses, names, rows};

use crate::Sheet;
use formats::{Layout, SheetFault};

impl<'a> Sheet<'a> {
    // The sheet with no names and no clauses.
    pub fn empty() -> Sheet<'a>
        ensures { (names result ≡ []) × (clauses result ≡ []) }
    {
        Sheet {
            text: &[],
            layout: Layout {
                names: 0,
                start: 0,
                clauses: 0,
            },
        }
    }

    // Fills the sheet with a text that is one, in place of what it held. A refused text changes nothing.
    // It fills a sheet, and is no `TryFrom`, since a sheet keeps what it held where the text is refused.
    pub fn load(&mut self, text: &'a [u8]) -> Result<(), SheetFault>
        ensures { MatchResult result
            (λ _. Says text.now (accepted (names self.new) (rows self.new)))
            (λ f. Says text.now (outcome_of f) × (self.new ≡ self.old)) }
    {
        let layout = Layout::read(text)?;
        *self = Sheet { text, layout };
        Ok(())
    }

    // How many names the sheet has.
    pub fn name_count(&self) -> usize
        ensures value { result ≡ length (names self.now) }
        ensures bound { result ≤ most_names }
    {
        self.layout.names
    }

    // How many clauses the sheet has.
    pub fn clause_count(&self) -> usize
        ensures value { result ≡ length (clauses self.now) }
        ensures bound { result ≤ longest }
    {
        self.layout.clauses
    }
}
