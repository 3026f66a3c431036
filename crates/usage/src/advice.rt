// What a text that is no sheet is to be.
ghost use Rattle.std.specs.Prelude.{Some};
ghost use Rattle.usage.specs.Advice.{advice_on};

use formats::{Layout, SheetFault, names_line};
use std::fmt;

// A fault of a sheet with so many names, to be told in words: what it means, and how the sheet is to be.
#[derive(Clone, Copy)]
pub struct Advice {
    pub fault: SheetFault,
    pub names: usize,
}

impl fmt::Display for Advice {
    ghost output = { λ advice. Some (advice_on advice.fault advice.names) };

    fn fmt<W: fmt::Write>(&self, f: &mut fmt::Formatter<W>) -> fmt::Result {
        let names = self.names;
        match self.fault {
            SheetFault::Long => f.write_str("the sheet has more than 65535 bytes"),
            SheetFault::Names => f.write_str(
                "line 1 is not a names line: it needs 1 to 64 names of at most 16 of a to z, 0 to 9 and -, one space between two, and a line end",
            ),
            SheetFault::Twice => f.write_str("a name stands twice on line 1"),
            SheetFault::Clause(line) => write!(
                f,
                "line {line} is not a clause line: it needs one of b, h and . for each of the {names} names, one space between two, and a line end"
            ),
        }
    }
}

// Tells a person on the standard error what is wrong with a text that is no sheet. Where that cannot be written, nothing is lost.
pub fn advise(rt: &HostRuntime, text: &[u8]) {
    let Err(fault) = Layout::read(text) else {
        return;
    };
    let names = names_line(text).map_or(0, |line| line.count);
    let advice = Advice { fault, names };
    let _ = eprintln!(rt; "{advice}");
}
