#![tactic(auto)]
// Reads a sheet from the standard input, and prints its clauses in words or why it is no sheet.
ghost use Rattle.wording.specs.Words.{Report};

use std::alloc::{AllocError, Global};
use std::io;
use std::process::ExitCode;
use usage::{Program, run};
use wording::sheet_report;

mod help;

// The program: it prints the outcome of reading a text, in words.
struct CheckSheet;

impl Program for CheckSheet {
    ghost prints = { Report };

    const HELP: &'static str = help::HELP;

    fn answer(heap: Global, text: &[u8]) -> Result<Vec<u8>, AllocError> {
        sheet_report(heap, text)
    }
}

fn main(rt: HostRuntime) -> io::Result<ExitCode> {
    run::<CheckSheet>(&rt)
}
