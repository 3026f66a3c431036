// The commands that a technician types, one to a line.
use atoms::{Atom, AtomSet};
use histories::{Call, Entry};
use sheets::Sheet;
use std::alloc::AllocError;
use std::iter::{once, repeat_n};
use std::str::SplitWhitespace;

// How many places the shelf has: no list is longer.
pub const MOST: usize = 256;

// What a line asks for.
#[derive(Clone, Copy)]
pub enum Command {
    // An atom is seen to be present, or to be absent.
    Observe(Atom, bool),
    Withdraw,
    // So many requests of a listing.
    List(usize),
    // Is the set of the names on the line a model, and a minimal one?
    Judge,
    // Why is each of the names on the line needed?
    Reasons,
}

// What is told under a command.
#[derive(Clone, Copy)]
pub enum Reply {
    // the answer of its one call
    Answer,
    Listing,
    Judgement,
    Reasons,
}

// Why a line is no command.
#[derive(Clone, Copy, Debug)]
pub enum CommandFault {
    NoSuchName,
    NoSuchCommand,
}

impl CommandFault {
    // Why, in words.
    pub fn words(self) -> &'static str {
        match self {
            CommandFault::NoSuchName => "no such name",
            CommandFault::NoSuchCommand => "no such command",
        }
    }
}

impl Command {
    // Reads a line. The names of a question are not read: `named_set` reads them where it is answered.
    pub fn read(sheet: &Sheet<'_>, line: &str) -> Result<Command, CommandFault> {
        let mut words = line.split_whitespace();
        match words.next() {
            Some("judge") => Ok(Command::Judge),
            Some("reasons") => Ok(Command::Reasons),
            Some(word) => with_argument(sheet, word, words),
            None => Err(CommandFault::NoSuchCommand),
        }
    }

    // Adds the calls that the command makes on the case; none of them is made yet.
    pub fn add_calls(self, entries: &mut Vec<Entry>) -> Result<(), AllocError> {
        match self {
            Command::Observe(atom, present) => {
                entries.push(Call::Observe(atom.number(), present).into())?;
            }
            Command::Withdraw => entries.push(Call::Withdraw.into())?,
            Command::List(count) => add_listing(entries, count)?,
            Command::Judge | Command::Reasons => {}
        }
        Ok(())
    }

    // What is told under the command.
    pub fn reply(self) -> Reply {
        match self {
            Command::Observe(_, _) | Command::Withdraw => Reply::Answer,
            Command::List(_) => Reply::Listing,
            Command::Judge => Reply::Judgement,
            Command::Reasons => Reply::Reasons,
        }
    }
}

impl Reply {
    // How many calls a command with this reply makes: `calls` begins with them.
    pub fn call_count(self, calls: &[Entry]) -> usize {
        match self {
            Reply::Answer => 1,
            Reply::Listing => {
                let inner = calls
                    .iter()
                    .take_while(|made| !matches!(made.call, Call::Close));
                inner.count().saturating_add(1)
            }
            Reply::Judgement | Reply::Reasons => 0,
        }
    }
}

// The atom of a name.
fn named(sheet: &Sheet<'_>, name: &str) -> Result<Atom, CommandFault> {
    sheet
        .atom_of(name.as_bytes())
        .ok_or(CommandFault::NoSuchName)
}

// The set of the atoms that the words after the first name.
pub fn named_set(sheet: &Sheet<'_>, line: &str) -> Result<AtomSet, CommandFault> {
    let mut set = AtomSet::empty();
    for name in line.split_whitespace().skip(1) {
        set = set.with(named(sheet, name)?);
    }
    Ok(set)
}

// A command of a word and at most one later word. No word is asked for after the last one: the blanks behind it would be read again.
fn with_argument(
    sheet: &Sheet<'_>,
    word: &str,
    mut later: SplitWhitespace<'_>,
) -> Result<Command, CommandFault> {
    let argument = later.next();
    if argument.is_some() && later.next().is_some() {
        return Err(CommandFault::NoSuchCommand);
    }
    match (word, argument) {
        ("present", Some(name)) => Ok(Command::Observe(named(sheet, name)?, true)),
        ("absent", Some(name)) => Ok(Command::Observe(named(sheet, name)?, false)),
        ("withdraw", None) => Ok(Command::Withdraw),
        ("list", None) => Ok(Command::List(MOST + 1)),
        ("list", Some(count)) => listing_of(count),
        _ => Err(CommandFault::NoSuchCommand),
    }
}

// A list of so many explanations; more than the shelf has places for are asked for as one more.
fn listing_of(count: &str) -> Result<Command, CommandFault> {
    let count: usize = count.parse().map_err(|_| CommandFault::NoSuchCommand)?;
    Ok(Command::List(count.min(MOST + 1)))
}

// A listing: its opening, the requests and its closing.
fn add_listing(entries: &mut Vec<Entry>, count: usize) -> Result<(), AllocError> {
    let requests = repeat_n(Call::Request, count);
    let calls = once(Call::Open).chain(requests).chain(once(Call::Close));
    entries.extend(calls.map(Entry::from))
}
