use ic_name::Event;
use ic_name::limits::MAX_LINES;
use ic_test_games::events::{
    COPYING, CROSSING, FIRST_ERASING, Meeting, SECOND_ERASING, VANISHING, events_of,
};
use ic_text::read_net;
use ic_trace::is_causal_order;
use std::alloc::Global;
use std::test::Fail;

/// Whether the events are few enough for a history and a causal order over the net.
fn is_order_of(alloc: Global, events: &[Event]) -> Result<bool, Fail> {
    if events.len() > MAX_LINES {
        return Ok(false);
    }
    let start = read_net(alloc, COPYING)?;
    Ok(is_causal_order(alloc, &start, events)?)
}

/// Whether the events of these meetings are.
fn is_order(alloc: Global, meetings: &[Meeting]) -> Result<bool, Fail> {
    let events = events_of(alloc, meetings)?;
    is_order_of(alloc, &events)
}

#[test]
fn events_stand_after_their_causes(rt: HostRuntime) -> Result<(), Fail> {
    let meetings = [CROSSING, SECOND_ERASING, FIRST_ERASING, VANISHING];
    assert!(rt; is_order(rt.alloc(), &meetings)?);
    Ok(())
}

#[test]
fn no_event_stands_before_a_cause(rt: HostRuntime) -> Result<(), Fail> {
    let meetings = [CROSSING, FIRST_ERASING, VANISHING, SECOND_ERASING];
    assert!(rt; !is_order(rt.alloc(), &meetings)?);
    Ok(())
}

#[test]
fn no_event_stands_twice(rt: HostRuntime) -> Result<(), Fail> {
    assert!(rt; !is_order(rt.alloc(), &[CROSSING, CROSSING])?);
    Ok(())
}

#[test]
fn no_events_are_a_causal_order(rt: HostRuntime) -> Result<(), Fail> {
    assert!(rt; is_order(rt.alloc(), &[])?);
    Ok(())
}
