// What the argument of a program asks.
ghost use Rattle.std.specs.Prelude.{◌≤◌, Decides, IfOk, IfSome};
ghost use Rattle.std.specs.Process.{exit_status};
ghost use Rattle.usage.specs.Asked.{ForHelp};

use std::env;
use std::io::{self, IsTerminal};
use std::process::ExitCode;

// Does the argument ask for the help text?
pub fn asks_for_help(word: &str) -> bool
    ensures { Decides result (ForHelp word.now) }
{
    matches!(word, "--help" | "-h")
}

// The status that a program ends with before it runs, or `None` where it is to run. It is with no argument; then a person at a
// terminal is told what it waits for. `--help` prints the help text, and any other argument is refused.
pub fn early_status(rt: &HostRuntime, help: &str) -> io::Result<Option<ExitCode>>
    ensures { IfOk result (λ o. IfSome o (λ s. exit_status s ≤ 1)) }
{
    let Some(word) = env::args(rt)?.nth(1) else {
        if rt.stdin().is_terminal() {
            let _ = eprintln!(rt; "reading from the terminal: end with Ctrl-D, or see --help");
        }
        return Ok(None);
    };
    if asks_for_help(&word) {
        rt.print(help)?;
        Ok(Some(ExitCode::SUCCESS))
    } else {
        eprintln!(rt; "there is no argument {word}: see --help")?;
        Ok(Some(ExitCode::FAILURE))
    }
}
