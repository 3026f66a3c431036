// Answers in words.
use crate::commands::{CommandFault, Reply, named_set};
use crate::judgements::{write_judgement, write_reasons};
use atoms::AtomSet;
use histories::{Answer, Call, Entry, case_after};
use judging::Judged;
use std::alloc::AllocError;
use std::fmt::Display;
use wording::Page;

// Adds why a call is refused, after the number of the refusal.
pub fn write_refusal<R: Display + Copy>(page: &mut Page<'_>, refusal: R) -> Result<(), AllocError>
where
    u8: From<R>,
{
    let number = u8::from(refusal);
    write!(page, "refused {number}: {refusal}\n")
}

// Adds the answer of a call, on a line of its own.
fn write_answer(page: &mut Page<'_>, answer: Answer) -> Result<(), AllocError> {
    match answer {
        Answer::Pending => page.add(b"not asked\n"),
        Answer::Done => page.add(b"taken\n"),
        Answer::Explanation(set) => {
            page.add_names(set, b"nothing", b" ")?;
            page.add(b"\n")
        }
        Answer::NoMore => page.add(b"no more\n"),
        Answer::ObserveRefused(refusal) => write_refusal(page, refusal),
        Answer::WithdrawRefused(refusal) => write_refusal(page, refusal),
        Answer::RequestRefused(refusal) => write_refusal(page, refusal),
    }
}

// Adds the answers of the requests of a listing, up to the first that hands out nothing.
fn write_listing(page: &mut Page<'_>, calls: &[Entry]) -> Result<(), AllocError> {
    let requests = calls
        .iter()
        .skip(1)
        .take_while(|made| matches!(made.call, Call::Request));
    for request in requests {
        write_answer(page, request.answer)?;
        if !matches!(request.answer, Answer::Explanation(_)) {
            return Ok(());
        }
    }
    Ok(())
}

// Adds why a line is no command.
pub fn write_fault(page: &mut Page<'_>, fault: CommandFault) -> Result<(), AllocError> {
    page.add(fault.words().as_bytes())?;
    page.add(b"\n")
}

// Adds what a question about a set comes to in the case that the calls before it leave.
fn write_question(
    page: &mut Page<'_>,
    reply: Reply,
    set: AtomSet,
    before: &[Entry],
) -> Result<(), AllocError> {
    let case = case_after(page.sheet(), before);
    let judged = Judged { case: &case, set };
    match reply {
        Reply::Reasons => write_reasons(page, &judged),
        _ => write_judgement(page, &judged),
    }
}

// Adds what is told under the command on a line, from the calls before its own and from its own, with which `calls` begins.
pub fn write_reply(
    page: &mut Page<'_>,
    line: &str,
    reply: Reply,
    before: &[Entry],
    calls: &[Entry],
) -> Result<(), AllocError> {
    match reply {
        Reply::Answer => {
            let answer = calls.first().map_or(Answer::Pending, |made| made.answer);
            write_answer(page, answer)
        }
        Reply::Listing => write_listing(page, calls),
        Reply::Judgement | Reply::Reasons => match named_set(&page.sheet(), line) {
            Ok(set) => write_question(page, reply, set, before),
            Err(fault) => write_fault(page, fault),
        },
    }
}
