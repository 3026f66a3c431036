#![tactic(auto)]
// Reads a sheet, an empty line and commands on a case over it from the standard input, and prints the answers in words.
use std::alloc::{AllocError, Global};
use std::io;
use std::process::ExitCode;
use usage::{Program, run};

mod answers;
mod commands;
mod help;
mod judgements;
mod sessions;

// The program: it prints what the commands of a session are answered.
struct Diagnose;

impl Program for Diagnose {
    // what is printed is only tested
    ghost prints = { λ _ _. Unit };

    const HELP: &'static str = help::HELP;

    fn answer(heap: Global, text: &[u8]) -> Result<Vec<u8>, AllocError> {
        sessions::diagnose(heap, text)
    }

    fn sheet_part(text: &[u8]) -> &[u8] {
        sessions::sheet_part(text)
    }
}

fn main(rt: HostRuntime) -> io::Result<ExitCode> {
    run::<Diagnose>(&rt)
}
