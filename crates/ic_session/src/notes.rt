use crate::advice::{advice, number_of};
use crate::fault::Fault;
use crate::net_notes::net_note;
use crate::place::{ListFault, Place};
use ic_command::{write_reply, wrong_in};
use ic_desk::Answer;
use ic_name::numbers::COMMAND;
use ic_text::Refusal;
use std::alloc::{AllocError, Global};
use std::io::Write;

/// If the request was refused by this answer, says why, and what would be right, with the reason that the answer tells. The line
/// is the one that asked, unless it listed events on further lines. If memory runs out or the writer fails, nothing is said.
pub(crate) fn explain_answer<E: Write>(
    alloc: Global,
    errors: &mut E,
    place: Place,
    line: &[u8],
    answer: &Answer,
) {
    let Some(number) = number_of(answer.bytes()) else {
        return;
    };
    if number == COMMAND {
        if let Ok(Some(said)) = wrong_command(alloc, place, line) {
            return say(errors, line_note(alloc, place.line, &said, None));
        }
    }
    if let Some(said) = advice(place.topic, number) {
        let note = line_note(alloc, place.line, said, answer.reason());
        say(errors, note);
    }
}

/// What is wrong with a line that is no command: in the list that it takes, or in its own words.
fn wrong_command(alloc: Global, place: Place, line: &[u8]) -> Result<Option<String>, AllocError> {
    match place.list_fault {
        Some(ListFault::Line(number)) => Ok(Some(format!(in alloc;
            "line {number} lists no event; expected there: the names of two different agents, such as 0 and 0.2, or a line of a journal"
        )?)),
        Some(ListFault::Ended) => Ok(Some(format!(in alloc;
            "the input ends before the list of absorb is complete"
        )?)),
        None => wrong_in(alloc, place.topic, line),
    }
}

/// Says why a net text is refused, at which line and column, and what would be right. So many lines stand before it.
pub(crate) fn explain_net<E: Write>(
    alloc: Global,
    errors: &mut E,
    before: u64,
    text: &[u8],
    refusal: Refusal,
) {
    say(errors, net_note(alloc, before, text, refusal));
}

/// Says after which line a session broke off.
pub(crate) fn explain_fault<E: Write>(alloc: Global, errors: &mut E, place: Place, fault: Fault) {
    let said = match fault {
        Fault::Read => "the input can't be read after this line; all lines up to it were answered",
        Fault::Write => "the answer to this line can't be written",
        Fault::Memory => "memory ran out for this line or for its answer",
        Fault::Settle => "what the workers report for this line isn't what the history says",
    };
    say(errors, line_note(alloc, place.line, said, None));
}

/// Writes a note, if there is one, as far as that is possible.
fn say<E: Write>(errors: &mut E, note: Result<Vec<u8>, AllocError>) {
    if let Ok(note) = note {
        let _ = write_reply(errors, &note);
    }
}

/// What is said of a line, and the reason for it, if there is one.
fn line_note(
    alloc: Global,
    line: u64,
    said: &str,
    reason: Option<&[u8]>,
) -> Result<Vec<u8>, AllocError> {
    let mut note = format!(in alloc; "line {}: {}", line, said)?.into_bytes();
    if let Some(reason) = reason {
        note.extend_from_slice(b": ")?;
        note.extend_from_slice(reason)?;
    }
    note.push(b'\n')?;
    Ok(note)
}
