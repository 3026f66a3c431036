#![tactic(auto)]
// Reads a sheet from the standard input, writes it again from its clauses, and prints it, or why it is no sheet.
use atoms::AtomSet;
use clauses::{Clause, Kind, Origin};
use help::HELP;
use round_trips::rewrite;
use std::alloc::AllocError;
use std::io::{self, Read, Write};
use std::process::ExitCode;
use usage::{advise, early_status};
use wording::refusal_words;

mod help;

// The text again, where it is a sheet, and else the line of its refusal, once the advice on it is told.
fn copy(rt: &HostRuntime, text: &[u8]) -> Result<Vec<u8>, AllocError> {
    let heap = rt.alloc();
    let blank = Clause {
        body: AtomSet::empty(),
        head: AtomSet::empty(),
        origin: Origin {
            kind: Kind::Sheet,
            number: 0,
        },
    };
    // A clause takes two bytes at least.
    let mut clauses = vec![in heap; blank; text.len() / 2]?;
    let mut out = vec![in heap; 0; text.len()]?;
    match rewrite(text, &mut clauses, &mut out) {
        Ok(size) => {
            out.truncate(size);
            Ok(out)
        }
        Err(refusal) => {
            advise(rt, text);
            refusal_words(heap, u8::from(refusal), refusal.line())
        }
    }
}

// Apart from `usage::run`: here the advice on a text that is no sheet comes before what is printed, and there after it.
fn main(rt: HostRuntime) -> io::Result<ExitCode> {
    if let Some(status) = early_status(&rt, HELP)? {
        return Ok(status);
    }
    let mut text = Vec::new(rt.alloc());
    rt.stdin().read_to_end(&mut text)?;
    let printed = copy(&rt, &text)?;
    rt.stdout().write_all(&printed)?;
    Ok(ExitCode::SUCCESS)
}
