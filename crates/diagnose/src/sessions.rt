// A sheet with commands, and what is printed for them.
ghost use Rattle.std.specs.Prelude.{◌≤◌, length};

use crate::answers::{write_fault, write_reply};
use crate::commands::{Command, CommandFault, MOST, Reply};
use atoms::AtomSet;
use histories::{Entry, replay};
use sheets::Sheet;
use shelves::{FlatShelf, Shelf};
use std::alloc::{AllocError, Global};
use std::str::from_utf8;
use wording::{Page, refusal_line};

// What is kept of a line until the calls of all lines are answered: two bytes, since a session may have many lines.
type Turn = Result<Reply, CommandFault>;

// Where the sheet ends: at an empty line, or else at the end of the text.
fn sheet_end(text: &[u8]) -> usize
    ensures { result ≤ length text.now }
{
    match text.windows(2).position(|pair| pair == b"\n\n".as_slice()) {
        Some(at) => at + 1,
        None => text.len(),
    }
}

// The part of a text that is to be the sheet.
pub fn sheet_part(text: &[u8]) -> &[u8] {
    &text[..sheet_end(text)]
}

// The turns of a session, whose calls are added to the entries, to be answered. The calls of all turns stand in one list,
// since one run answers them.
fn read_turns(
    heap: Global,
    sheet: &Sheet<'_>,
    commands: &str,
    entries: &mut Vec<Entry>,
) -> Result<Vec<Turn>, AllocError> {
    let mut turns = Vec::new(heap);
    for line in commands.lines().filter(|line| !line.is_empty()) {
        let command = Command::read(sheet, line);
        turns.push(command.map(Command::reply))?;
        if let Ok(command) = command {
            command.add_calls(entries)?;
        }
    }
    Ok(turns)
}

// Adds a line after `> `, and under it what it is answered.
fn write_turn(
    page: &mut Page<'_>,
    line: &str,
    turn: Turn,
    before: &[Entry],
    calls: &[Entry],
) -> Result<(), AllocError> {
    page.add(b"> ")?;
    page.add(line.as_bytes())?;
    page.add(b"\n")?;
    match turn {
        Ok(reply) => write_reply(page, line, reply, before, calls),
        Err(fault) => write_fault(page, fault),
    }
}

// Adds all lines, and under each what it is answered.
fn write_turns(
    page: &mut Page<'_>,
    commands: &str,
    turns: &[Turn],
    entries: &[Entry],
) -> Result<(), AllocError> {
    let mut made: usize = 0;
    let lines = commands.lines().filter(|line| !line.is_empty());
    for (line, turn) in lines.zip(turns) {
        let (before, calls) = entries.split_at(made.min(entries.len()));
        write_turn(page, line, *turn, before, calls)?;
        made = made.saturating_add(turn.map_or(0, |reply| reply.call_count(calls)));
    }
    Ok(())
}

// Answers commands on a case over the sheet.
fn answer(heap: Global, sheet: &Sheet<'_>, commands: &str) -> Result<Vec<u8>, AllocError> {
    let mut entries = Vec::new(heap);
    let turns = read_turns(heap, sheet, commands, &mut entries)?;
    let mut memory = [AtomSet::empty(); MOST];
    let mut shelf = FlatShelf::new(&mut memory);
    let _ = replay(sheet, &mut shelf, &mut entries);
    let mut page = Page::new(heap, sheet);
    write_turns(&mut page, commands, &turns, &entries)?;
    Ok(page.into_text())
}

// What is printed for a text: the answers of the commands, or why there is no sheet.
pub fn diagnose(heap: Global, text: &[u8]) -> Result<Vec<u8>, AllocError> {
    let (sheet_text, commands) = text.split_at(sheet_end(text));
    let mut sheet = Sheet::empty();
    if let Err(fault) = sheet.load(sheet_text) {
        return refusal_line(heap, fault);
    }
    match from_utf8(commands) {
        Ok(commands) => answer(heap, &sheet, commands),
        Err(_) => b"the commands are not text\n".to_vec(heap),
    }
}
