// Programs that print what they make of a text.
ghost use Rattle.std.specs.Prelude.{◌≡◌, ◌≤◌, List, ℕ, IfOk, IfSome, OnOk, string_bytes};
ghost use Rattle.usage.specs.Answered.{Answered};
ghost use Rattle.std.specs.Process.{exit_status};

use crate::advice::advise;
use crate::arguments::early_status;
use std::alloc::{AllocError, Global};
use std::io::{self, Read, Write};
use std::process::ExitCode;

// A program that answers a text. The text is a sheet, or begins with one.
pub trait Program {
    // what may be printed for a text
    ghost prints: { List ℕ → List ℕ → Type 0 };

    // What `--help` prints.
    const HELP: &'static str;

    // What is printed for a text.
    fn answer(heap: Global, text: &[u8]) -> Result<Vec<u8>, AllocError>
        ensures { IfOk result (λ v. prints text.now v.items) };

    // The part of a text that is to be the sheet.
    fn sheet_part(text: &[u8]) -> &[u8] {
        text
    }
}

// Reads all that a reader gives, writes what the program answers, and gives back what was read.
pub fn answer_all<P: Program, R: Read, W: Write>(
    heap: Global,
    input: &mut R,
    output: &mut W,
) -> io::Result<Vec<u8>>
    ensures { IfOk result (λ v.
        Answered P.prints (R.remaining input.old) v.items (W.contents output.old) (W.contents output.new)) }
{
    let mut text = Vec::new(heap);
    input.read_to_end(&mut text)?;
    let printed = P::answer(heap, &text)?;
    output.write_all(&printed)?;
    Ok(text)
}

// Runs the program on the standard input, unless its argument asks for something else.
pub fn run<P: Program>(rt: &HostRuntime) -> io::Result<ExitCode>
    ensures { IfOk result (λ s. exit_status s ≤ 1) }
{
    if let Some(status) = early_status(rt, P::HELP)? {
        return Ok(status);
    }
    let text = answer_all::<P, _, _>(rt.alloc(), &mut rt.stdin(), &mut rt.stdout())?;
    advise(rt, P::sheet_part(&text));
    Ok(ExitCode::SUCCESS)
}
