use ic_name::limits::MAX_DEPTH;
use ic_name::{AgentName, ChildFault, Event, EventName, Kind, NameFault};
use std::alloc::{AllocError, Global};
use std::cmp::Ordering;
use std::test::Fail;

/// The event of two start agents, the first a gamma and the second an epsilon.
fn event(alloc: Global, a: u16, b: u16) -> Option<Event> {
    let first = AgentName::start(alloc, a)?;
    let second = AgentName::start(alloc, b)?;
    Event::of(first, Kind::Gamma, second, Kind::Eps)
}

/// The name of the event of two start agents.
pub(crate) fn event_name(alloc: Global, a: u16, b: u16) -> Option<EventName> {
    let first = AgentName::start(alloc, a)?;
    let second = AgentName::start(alloc, b)?;
    EventName::of(first, second)
}

/// Texts of names.
const WRITTEN_NAMES: [&[u8]; 4] = [b"0", b"6553", b"65534", b"10.0.3.2.1"];

/// Texts that are no names, and the offset at which none goes on.
const BAD_NAMES: [(&[u8], usize); 13] = [
    (b"", 0),
    (b"x", 0),
    (b"+5", 0),
    (b".1", 0),
    (b"00", 1),
    (b"1x", 1),
    (b"1.", 2),
    (b"1.4", 2),
    (b"1..", 2),
    (b"1.22", 3),
    (b"65535", 4),
    (b"65540", 4),
    (b"655340", 5),
];

/// How the names of two start agents compare, and whether they are one, if there are such agents.
fn compared(alloc: Global, a: u16, b: u16) -> Option<(Ordering, bool)> {
    let first = AgentName::start(alloc, a)?;
    let second = AgentName::start(alloc, b)?;
    Some((first.cmp(&second), first.is(&second)))
}

/// Whether the name of a start agent is that of its copy.
fn is_its_copy(alloc: Global, number: u16) -> Option<bool> {
    let name = AgentName::start(alloc, number)?;
    let copy = name.copy().ok()?;
    Some(name.is(&copy))
}

#[test]
fn start_names_are_compared(rt: HostRuntime) {
    let compared = compared(rt.alloc(), 0, 65_534);
    assert_eq!(rt; compared, Some((Ordering::Less, false)));
    assert_eq!(rt; is_its_copy(rt.alloc(), 0), Some(true));
}

/// The number and the depth that the name of a start agent has.
fn number_and_depth(alloc: Global, number: u16) -> Option<(u16, usize)> {
    let name = AgentName::start(alloc, number)?;
    Some((name.start_number(), name.depth()))
}

/// Whether this is the text of the name of a start agent.
fn has_start_text(alloc: Global, number: u16, wanted: &[u8]) -> Option<bool> {
    let name = AgentName::start(alloc, number)?;
    let mut text = Vec::new(alloc);
    name.write_to(&mut text).ok()?;
    Some(text.as_slice() == wanted)
}

#[test]
fn the_last_start_name_has_the_number_65534(rt: HostRuntime) {
    assert_eq!(rt; number_and_depth(rt.alloc(), 65_534), Some((65_534, 0)));
    assert_eq!(rt; number_and_depth(rt.alloc(), 65_535), None);
    assert_eq!(rt; has_start_text(rt.alloc(), 65_534, b"65534"), Some(true));
}

/// The start numbers in the copy of the name of an event, the lead's first.
fn numbers_of_the_copy(name: &EventName) -> Option<(u16, u16)> {
    let copy = name.copy().ok()?;
    Some((copy.lead().start_number(), copy.other().start_number()))
}

/// The same of the event of two start agents, if they have an event.
fn numbers_of_event_name(alloc: Global, a: u16, b: u16) -> Option<(u16, u16)> {
    let name = event_name(alloc, a, b)?;
    numbers_of_the_copy(&name)
}

#[test]
fn names_of_events_have_the_lesser_agent_first(rt: HostRuntime) {
    assert_eq!(rt; numbers_of_event_name(rt.alloc(), 7, 3), Some((3, 7)));
    assert_eq!(rt; numbers_of_event_name(rt.alloc(), 3, 3), None);
}

/// The start numbers and the kinds of the lead and the other agent of an event.
pub(crate) fn agents_of(event: &Event) -> (u16, Kind, u16, Kind) {
    (
        event.lead().start_number(),
        event.lead_kind(),
        event.other().start_number(),
        event.other_kind(),
    )
}

/// The same of the copy of an event.
fn agents_of_the_copy(event: &Event) -> Option<(u16, Kind, u16, Kind)> {
    let copy = event.copy().ok()?;
    Some(agents_of(&copy))
}

/// The same of the event of two start agents, the first a gamma and the second an epsilon.
fn agents_of_event(alloc: Global, a: u16, b: u16) -> Option<(u16, Kind, u16, Kind)> {
    let event = event(alloc, a, b)?;
    agents_of_the_copy(&event)
}

#[test]
fn events_have_the_lesser_agent_first(rt: HostRuntime) {
    let agents = agents_of_event(rt.alloc(), 7, 3);
    assert_eq!(rt; agents, Some((3, Kind::Eps, 7, Kind::Gamma)));
}

#[test]
fn kinds_have_arities(rt: HostRuntime) {
    let arities = [Kind::Eps.arity(), Kind::Gamma.arity()];
    assert_eq!(rt; arities, [0, 2]);
}

/// Whether the text of a name is read, and written again as it was.
fn is_read_and_written(alloc: Global, text: &[u8]) -> Option<bool> {
    let name = AgentName::read(alloc, text).ok()?;
    let mut written = Vec::new(alloc);
    name.write_to(&mut written).ok()?;
    Some(written.as_slice() == text)
}

/// The start number and the depth of the name that a text writes.
fn read_number_and_depth(alloc: Global, text: &[u8]) -> Option<(u16, usize)> {
    let name = AgentName::read(alloc, text).ok()?;
    Some((name.start_number(), name.depth()))
}

#[test]
fn texts_of_names_are_read(rt: HostRuntime) {
    for text in &WRITTEN_NAMES {
        assert_eq!(rt; is_read_and_written(rt.alloc(), text), Some(true));
    }
    assert_eq!(rt; read_number_and_depth(rt.alloc(), b"12.3.0"), Some((12, 2)));
}

/// The offset at which a text is no name, if it is none.
fn bad_at(alloc: Global, text: &[u8]) -> Option<usize> {
    match AgentName::read(alloc, text).err() {
        Some(NameFault::BadName(offset)) => Some(offset),
        _ => None,
    }
}

#[test]
fn other_texts_are_bad_where_no_name_goes_on(rt: HostRuntime) {
    for (text, offset) in &BAD_NAMES {
        assert_eq!(rt; bad_at(rt.alloc(), text), Some(*offset));
    }
}

/// The deepest descendant of start agent 7 by children 2.
pub(crate) fn deepest_name(alloc: Global) -> Option<AgentName> {
    let mut name = AgentName::start(alloc, 7)?;
    for _ in 0..MAX_DEPTH {
        let Ok(child) = name.child(2) else {
            return None;
        };
        name = child;
    }
    Some(name)
}

/// The text of the deepest descendant of start agent 7 by children 2.
fn deepest_text(alloc: Global) -> Result<Vec<u8>, AllocError> {
    let mut text = Vec::new(alloc);
    text.push(b'7')?;
    for _ in 0..MAX_DEPTH {
        text.extend_from_slice(b".2")?;
    }
    Ok(text)
}

/// Whether a text is read as this name.
fn reads_as(alloc: Global, text: &[u8], name: &AgentName) -> bool {
    match AgentName::read(alloc, text) {
        Ok(read) => read.is(name),
        Err(_) => false,
    }
}

/// The depth of the deepest name, and why it has no child 0.
fn depth_and_fault(alloc: Global) -> Option<(usize, ChildFault)> {
    let name = deepest_name(alloc)?;
    Some((name.depth(), name.child(0).err()?))
}

/// Whether the deepest name is read from a text.
fn is_deepest(alloc: Global, text: &[u8]) -> Option<bool> {
    let name = deepest_name(alloc)?;
    Some(reads_as(alloc, text, &name))
}

#[test]
fn children_end_at_the_greatest_depth(rt: HostRuntime) {
    assert_eq!(rt;
        depth_and_fault(rt.alloc()),
        Some((MAX_DEPTH, ChildFault::Deep))
    );
}

#[test]
fn texts_end_at_the_greatest_depth(rt: HostRuntime) -> Result<(), Fail> {
    let mut text = deepest_text(rt.alloc())?;
    assert!(rt; is_deepest(rt.alloc(), text.as_slice()) == Some(true));
    text.extend_from_slice(b".0")?;
    assert_eq!(rt;
        AgentName::read(rt.alloc(), text.as_slice()).err(),
        Some(NameFault::Deep)
    );
    text.push(b'0')?;
    assert_eq!(rt; bad_at(rt.alloc(), text.as_slice()), Some(text.len() - 1));
    Ok(())
}

#[test]
fn faults_have_numbers(rt: HostRuntime) {
    let numbers = [
        NameFault::BadName(3).number(),
        NameFault::Deep.number(),
        NameFault::Memory.number(),
        ChildFault::Deep.number(),
        ChildFault::Memory.number(),
    ];
    assert_eq!(rt; numbers, [11, 22, 25, 22, 25]);
}

#[test]
fn faults_have_messages(rt: HostRuntime) -> Result<(), Fail> {
    let message = format!(in rt.alloc(); "{}", NameFault::BadName(3))?;
    assert_eq!(rt;
        message.as_str(),
        "byte 3: expected an agent's name, a number up to 65534 and then any number of .0, .1, .2 or .3"
    );
    Ok(())
}
