// Reading the clauses of a sheet into memory.
ghost use Rattle.std.specs.Prelude.{◌≡◌, ◌≤◌, ◌++◌, length, drop};
ghost use Rattle.sheets.specs.Sheets.{clauses};

use clauses::Clause;
use sheets::Sheet;

// Fills the front of the places with the clauses of the sheet.
// By place: of what is written through `iter_mut` beside another iterator the proof did not close.
pub(crate) fn read_clauses(sheet: &Sheet<'_>, places: &mut [Clause])
    requires { length (clauses sheet.now) ≤ length places.old }
    ensures { places.new ≡ clauses sheet.now ++ drop (length (clauses sheet.now)) places.old }
{
    for (i, clause) in sheet.clauses().enumerate() {
        places[i] = clause;
    }
}
