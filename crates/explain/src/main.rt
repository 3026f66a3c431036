#![tactic(auto)]
// Reads a sheet from the standard input, and prints its explanations.
ghost use Rattle.explaining.specs.Explained.{Explained};

use explaining::explain;
use std::alloc::{AllocError, Global};
use std::io;
use std::process::ExitCode;
use usage::{Program, run};

mod help;
#[cfg(test)]
mod tests;

// The program: it prints the report of the first explanations, or the line of a refusal.
struct Explain;

impl Program for Explain {
    ghost prints = { Explained };

    const HELP: &'static str = help::HELP;

    fn answer(heap: Global, text: &[u8]) -> Result<Vec<u8>, AllocError> {
        explain(heap, text)
    }
}

fn main(rt: HostRuntime) -> io::Result<ExitCode> {
    run::<Explain>(&rt)
}
