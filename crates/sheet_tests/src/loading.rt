// Loading a text by itself.
ghost use Rattle.std.specs.Prelude.{ℕ, List, MatchResult};
ghost use Rattle.formats.specs.Outcomes.Outcome.{accepted};
ghost use Rattle.formats.specs.Outcomes.{Says, outcome_of};

use formats::SheetFault;
use sheets::Sheet;

// Is the text a sheet, and if not, why is it none?
pub fn load(text: &[u8]) -> Result<(), SheetFault>
    ensures { MatchResult result
        (λ _. (names : List (List ℕ)) × (rows : List (List ℕ)) × Says text.now (accepted names rows))
        (λ f. Says text.now (outcome_of f)) }
{
    let mut sheet = Sheet::empty();
    sheet.load(text)
}
