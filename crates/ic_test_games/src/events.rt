use ic_name::{AgentName, Event, Kind};
use std::alloc::Global;
use std::test::Fail;

/// Two agents that meet: their names as texts, each with its kind.
pub type Meeting = (&'static [u8], Kind, &'static [u8], Kind);

/// The net of two agents from which four events come.
pub const COPYING: &[u8] = b"G(E,a) = D(b,E);";

/// The gamma and the delta of that net meet.
pub const CROSSING: Meeting = (b"0", Kind::Gamma, b"2", Kind::Delta);

/// The gamma's epsilon meets a delta.
pub const FIRST_ERASING: Meeting = (b"1", Kind::Eps, b"0.0", Kind::Delta);

/// The delta's epsilon meets a gamma.
pub const SECOND_ERASING: Meeting = (b"3", Kind::Eps, b"0.3", Kind::Gamma);

/// A child of either epsilon meets one of the other.
pub const VANISHING: Meeting = (b"1.1", Kind::Eps, b"3.0", Kind::Eps);

/// The event of two agents that meet.
pub fn event_of(alloc: Global, meeting: &Meeting) -> Result<Event, Fail> {
    let (a, a_kind, b, b_kind) = *meeting;
    let left = AgentName::read(alloc, a)?;
    let right = AgentName::read(alloc, b)?;
    match Event::of(left, a_kind, right, b_kind) {
        Some(event) => Ok(event),
        None => Err("two names".into()),
    }
}

/// The events of agents that meet.
pub fn events_of(alloc: Global, meetings: &[Meeting]) -> Result<Vec<Event>, Fail> {
    let mut events = Vec::new(alloc);
    for meeting in meetings {
        events.push(event_of(alloc, meeting)?)?;
    }
    Ok(events)
}
