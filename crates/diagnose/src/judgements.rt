// Judgements and reasons in words.
use crate::answers::write_refusal;
use atoms::AtomSet;
use clauses::{Clause, Kind, Source};
use judging::{Judged, Reason};
use std::alloc::AllocError;
use wording::Page;

// A record for each atom suffices for the reasons of any set.
const RECORDS: usize = AtomSet::WIDTH as usize;

// Adds the clause of an observation in words, as `present psu` or `absent psu`.
fn write_observed(page: &mut Page<'_>, clause: &Clause) -> Result<(), AllocError> {
    if clause.head.is_empty() {
        page.add(b"absent ")?;
        page.add_names(clause.body, b"", b" ")
    } else {
        page.add(b"present ")?;
        page.add_names(clause.head, b"", b" ")
    }
}

// Adds which clause is broken, and that clause in words.
fn write_broken(page: &mut Page<'_>, clause: &Clause) -> Result<(), AllocError> {
    let origin = clause.origin;
    write!(page, "no model: {origin} is broken, ")?;
    match origin.kind {
        Kind::Observation => write_observed(page, clause)?,
        _ => page.add_clause(clause)?,
    }
    page.add(b"\n")
}

// Adds whether the set is a model, and a minimal one; of no model the first clause that it breaks.
pub fn write_judgement<S: Source>(
    page: &mut Page<'_>,
    judged: &Judged<S>,
) -> Result<(), AllocError> {
    if let Some(clause) = judged.first_broken() {
        return write_broken(page, &clause);
    }
    if judged.is_minimal() {
        page.add(b"a minimal model\n")
    } else {
        page.add(b"a model, but not minimal\n")
    }
}

// Adds the reason of an atom, on a line of its own.
fn write_reason(page: &mut Page<'_>, reason: &Reason) -> Result<(), AllocError> {
    page.add_names(AtomSet::single(reason.atom), b"", b" ")?;
    let origin = reason.origin;
    write!(page, ": {origin}\n")
}

// Adds the records by rising atom, or `nothing` where there are none.
fn write_records(page: &mut Page<'_>, records: &mut [Reason]) -> Result<(), AllocError> {
    if records.is_empty() {
        return page.add(b"nothing\n");
    }
    records.sort_unstable_by_key(|reason| reason.atom);
    for reason in records {
        write_reason(page, reason)?;
    }
    Ok(())
}

// Adds why each atom of the set is in it, or why no reasons are given.
pub fn write_reasons<S: Source>(page: &mut Page<'_>, judged: &Judged<S>) -> Result<(), AllocError> {
    let mut records = [Reason::blank(); RECORDS];
    match judged.reasons(&mut records) {
        Ok(count) => write_records(page, &mut records[..count]),
        Err(refusal) => write_refusal(page, refusal),
    }
}
