// The clauses of a sheet as records.
ghost use Rattle.std.specs.Prelude.{◌≡◌, IfOk};
ghost use Rattle.sheets.specs.Sheets.{clauses};

use clauses::Clause;
use sheets::Sheet;
use std::alloc::{AllocError, Global};

// Copies the clauses of a sheet, in their order, by one pass over its text.
pub fn copy_clauses(heap: Global, sheet: &Sheet<'_>) -> Result<Vec<Clause>, AllocError>
    ensures { IfOk result (λ v. v.items ≡ clauses sheet.now) }
{
    let mut records = Vec::with_capacity(heap, sheet.clause_count())?;
    for clause in sheet.clauses() {
        records.push(clause)?;
    }
    Ok(records)
}
