use ic_session::{Fault, Status};
use std::fmt;

/// How a session differs from what is stored.
#[derive(Clone, Copy)]
pub enum Difference {
    /// The session ended so.
    Status(Status),
    /// The session ended before its input did.
    Fault(Fault),
    /// The first line that isn't written as it is stored, counted from 1.
    Line(usize),
    /// The first line that isn't said as it is stored, by a session that explains itself, counted from 1.
    Said(usize),
}

impl fmt::Display for Difference {
    fn fmt<W: fmt::Write>(&self, f: &mut fmt::Formatter<W>) -> fmt::Result {
        match self {
            Difference::Status(status) => write!(f, "the status is {status:?}"),
            Difference::Fault(fault) => write!(f, "the session failed: {fault:?}"),
            Difference::Line(number) => write!(f, "line {number} differs"),
            Difference::Said(number) => write!(f, "line {number} of what is said differs"),
        }
    }
}

/// What differs from a session of this status in which this was to be written.
pub fn first_difference(
    ended: Result<Status, Fault>,
    status: Status,
    written: &[u8],
    wanted: &[u8],
) -> Option<Difference> {
    match ended {
        Ok(found) if found == status => different_line(written, wanted).map(Difference::Line),
        Ok(found) => Some(Difference::Status(found)),
        Err(fault) => Some(Difference::Fault(fault)),
    }
}

/// The number of the first line that differs, counted from 1.
pub fn different_line(written: &[u8], wanted: &[u8]) -> Option<usize> {
    if written == wanted {
        return None;
    }
    let mut number = 1usize;
    for (byte, other) in written.iter().zip(wanted.iter()) {
        if *byte != *other {
            break;
        }
        if *byte == b'\n' {
            number = number.saturating_add(1);
        }
    }
    Some(number)
}
