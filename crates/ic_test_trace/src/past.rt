ghost use Rattle.std.specs.Prelude.{◌<◌, length};
ghost use Rattle.ic_name.specs.declared.limits.TheConstants.{MAX_LINES};

use ic_name::{AgentName, EventName, Kind};
use ic_net::Start;
use ic_test_games::events::{COPYING, CROSSING, event_of};
use ic_text::read_net;
use ic_trace::Past;
use std::alloc::Global;
use std::test::Fail;

/// The name of the event in which the gamma and the delta meet.
fn crossing_name(alloc: Global) -> Result<EventName, Fail> {
    let lead = AgentName::read(alloc, b"0")?;
    let other = AgentName::read(alloc, b"2")?;
    match EventName::of(lead, other) {
        Some(name) => Ok(name),
        None => Err("two names".into()),
    }
}

/// Whether the event comes and consumes its lead.
fn comes(alloc: Global, past: &mut Past) -> Result<bool, Fail>
    requires { length past.old.events < MAX_LINES }
{
    let event = event_of(alloc, &CROSSING)?;
    Ok(past.fire(&event)? && past.kind(event.lead()).is_none())
}

/// Whether the event stands, and nothing causes it.
fn is_uncaused(past: &Past, name: &EventName) -> Result<bool, Fail> {
    match past.causes(name)? {
        Some(causes) => Ok(causes.is_empty()),
        None => Ok(false),
    }
}

/// Whether the event goes once, and its lead, a gamma, is there again.
fn goes(past: &mut Past, name: &EventName) -> bool {
    past.undo(name) && !past.undo(name) && past.kind(name.lead()) == Some(Kind::Gamma)
}

/// Whether the event comes, stands uncaused, and goes.
fn comes_and_goes(alloc: Global, past: &mut Past) -> Result<bool, Fail>
    requires { length past.old.events < MAX_LINES }
{
    if !comes(alloc, past)? {
        return Ok(false);
    }
    let name = crossing_name(alloc)?;
    Ok(is_uncaused(past, &name)? && goes(past, &name))
}

/// Whether it does so where nothing stands yet.
fn comes_first(alloc: Global, start: &Start) -> Result<bool, Fail> {
    let mut past = Past::over(alloc, start)?;
    comes_and_goes(alloc, &mut past)
}

#[test]
fn an_event_comes_and_goes(rt: HostRuntime) -> Result<(), Fail> {
    let start = read_net(rt.alloc(), COPYING)?;
    assert!(rt; comes_first(rt.alloc(), &start)?);
    Ok(())
}
