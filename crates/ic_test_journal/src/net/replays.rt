use crate::net::steps::is_printed;
use crate::orders::is_replayed;
use ic_name::{Event, Kind};
use ic_net::{ReplayFault, Start, StepFault, replay};
use ic_test_games::events::{
    COPYING, CROSSING, FIRST_ERASING, Meeting, SECOND_ERASING, VANISHING, events_of,
};
use ic_test_games::player::{Game, Player, Step, wins};
use ic_text::read_net;
use std::alloc::Global;
use std::test::Fail;

/// A gamma is erased.
const ERASING: Meeting = (b"0", Kind::Gamma, b"1", Kind::Eps);

/// Whether the replay of events is printed so.
fn is_replayed_to(
    alloc: Global,
    start: &Start,
    events: &[Event],
    printed: &[u8],
) -> Result<bool, Fail> {
    match replay(alloc, start, events) {
        Ok(net) => is_printed(alloc, &net, start, printed),
        Err(_) => Ok(false),
    }
}

/// Whether that of the erasing alone is.
fn is_erased_to(alloc: Global, printed: &[u8]) -> Result<bool, Fail> {
    let start = read_net(alloc, b"G(a,b) = E;")?;
    let events = events_of(alloc, &[ERASING])?;
    is_replayed_to(alloc, &start, &events, printed)
}

#[test]
fn an_event_is_replayed(rt: HostRuntime) -> Result<(), Fail> {
    let printed = b"# agents 2 wires 2 rings 0\nE = a;\nE = b;\n";
    assert!(rt; is_erased_to(rt.alloc(), printed)?);
    Ok(())
}

/// Why a replay of these meetings is refused.
fn fault_of(alloc: Global, text: &[u8], meetings: &[Meeting]) -> Result<Option<ReplayFault>, Fail> {
    let start = read_net(alloc, text)?;
    let events = events_of(alloc, meetings)?;
    Ok(replay(alloc, &start, &events).err())
}

/// Whether a replay of these meetings is refused at this place, with an event that isn't active.
fn is_refused_at(
    alloc: Global,
    text: &[u8],
    meetings: &[Meeting],
    place: usize,
) -> Result<bool, Fail> {
    let fault = ReplayFault {
        place,
        cause: StepFault::NotActive,
    };
    Ok(fault.cause.number() == 21 && fault_of(alloc, text, meetings)? == Some(fault))
}

#[test]
fn an_event_is_replayed_once(rt: HostRuntime) -> Result<(), Fail> {
    assert!(rt; is_refused_at(rt.alloc(), b"G(a,b) = E;", &[ERASING, ERASING], 1)?);
    assert!(rt; is_refused_at(rt.alloc(), COPYING, &[CROSSING, CROSSING], 1)?);
    Ok(())
}

#[test]
fn an_event_is_replayed_after_its_causes(rt: HostRuntime) -> Result<(), Fail> {
    let meetings = [CROSSING, FIRST_ERASING, VANISHING, SECOND_ERASING];
    assert!(rt; is_refused_at(rt.alloc(), COPYING, &meetings, 2)?);
    Ok(())
}

const FOUR: [(Step, u8); 4] = [
    (Step::Fire(b"0", b"2"), 0),
    (Step::Fire(b"1", b"0.0"), 0),
    (Step::Fire(b"3", b"0.3"), 0),
    (Step::Fire(b"1.1", b"3.0"), 0),
];

/// After these four, these meetings are replayed to the net of the bench.
struct Replayed(&'static [Meeting]);

impl Game for Replayed {
    fn is_won(&self, alloc: Global, player: &mut Player) -> Result<bool, Fail> {
        if !player.plays(&FOUR)? {
            return Ok(false);
        }
        let events = events_of(alloc, self.0)?;
        is_replayed(alloc, &player.bench, &events)
    }
}

const ANOTHER_ORDER: &[Meeting] = &[CROSSING, SECOND_ERASING, FIRST_ERASING, VANISHING];

#[test]
fn another_causal_order_is_replayed(rt: HostRuntime) -> Result<(), Fail> {
    assert!(rt; wins(rt.alloc(), COPYING, &Replayed(ANOTHER_ORDER))?);
    Ok(())
}
