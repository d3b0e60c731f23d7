use ic_command::{Asked, Command, Request, asked_of, listed_of};
use ic_desk::{Desk, NoGate};
use ic_link::LinkRows;
use ic_name::EventName;
use ic_session::{Fault, Status};
use ic_text::{TextFault, read_net};
use std::alloc::{AllocError, Global};

/// Runs a session of one worker over the plain store, which searches link by link. Of a net that is refused no fault is
/// named.
pub fn run_plain_session(
    alloc: Global,
    input: &[u8],
    writer: &mut Vec<u8>,
    budget: u32,
) -> Result<Status, Fault> {
    let (text, commands) = parts(input);
    let mut desk = match desk_over(alloc, text)? {
        Some(desk) => desk,
        None => return Ok(Status::NetRefused),
    };
    let mut open = None;
    for line in commands.split(|byte| *byte == b'\n') {
        open = take_line(alloc, &mut desk, open, line, writer, budget)?;
    }
    if open.is_some() {
        answer(alloc, &mut desk, Request::Bench(Command::Malformed), writer)?;
    }
    Ok(Status::Ended)
}

/// The net text and the commands of a session: what stands before its first line `---`, and what stands after it.
fn parts(input: &[u8]) -> (&[u8], &[u8]) {
    let mut end = 0usize;
    for line in input.split(|byte| *byte == b'\n') {
        if line == b"---".as_slice() {
            break;
        }
        end = end.saturating_add(line.len()).saturating_add(1);
    }
    let (text, behind) = input.split_at_checked(end).unwrap_or((input, &[]));
    let commands = behind.strip_prefix(b"---\n".as_slice()).unwrap_or(&[]);
    (text, commands)
}

/// A desk over the net of a text; `None` if that is refused.
fn desk_over(alloc: Global, text: &[u8]) -> Result<Option<Desk<LinkRows>>, Fault> {
    match read_net(alloc, text) {
        Ok(start) => Ok(Some(Desk::over(alloc, start)?)),
        Err(TextFault::Memory) => Err(Fault::Memory),
        Err(TextFault::Refused(_)) => Ok(None),
    }
}

/// The lines of an `absorb` that have come: how many are still to come, the events that were listed, and whether each line
/// listed one.
#[derive(Drop)]
struct List {
    left: u32,
    events: Vec<EventName>,
    all: bool,
}

/// Takes a line: one of the list that is open, or a command. Writes the answer to what is whole, and gives back the list
/// that is open then.
fn take_line(
    alloc: Global,
    desk: &mut Desk<LinkRows>,
    open: Option<List>,
    line: &[u8],
    writer: &mut Vec<u8>,
    budget: u32,
) -> Result<Option<List>, AllocError> {
    let list = match open {
        Some(list) => listed(alloc, list, line)?,
        None => match asked_of(alloc, line)? {
            Asked::Alone(request) => {
                answer(alloc, desk, request.within(budget), writer)?;
                return Ok(None);
            }
            Asked::Absorb(left) => List {
                left,
                events: Vec::new(alloc),
                all: true,
            },
        },
    };
    if list.left > 0 {
        return Ok(Some(list));
    }
    let List { events, all, .. } = list;
    let request = if all {
        Request::Absorb(events)
    } else {
        Request::Bench(Command::Malformed)
    };
    answer(alloc, desk, request, writer)?;
    Ok(None)
}

/// The list with a line more.
fn listed(alloc: Global, list: List, line: &[u8]) -> Result<List, AllocError> {
    let List {
        left,
        mut events,
        mut all,
    } = list;
    match listed_of(alloc, line)? {
        Some(event) => events.push(event)?,
        None => all = false,
    }
    Ok(List {
        left: left.saturating_sub(1),
        events,
        all,
    })
}

/// Writes the answer to a request.
fn answer(
    alloc: Global,
    desk: &mut Desk<LinkRows>,
    request: Request,
    writer: &mut Vec<u8>,
) -> Result<(), AllocError> {
    let answer = desk.carry_out(alloc, request, &NoGate)?;
    writer.extend_from_slice(answer.bytes())
}
