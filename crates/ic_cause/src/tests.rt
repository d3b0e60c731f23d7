ghost use Rattle.std.specs.Prelude.{◌<◌, ◌≤◌, OnOk};
ghost use Rattle.ic_name.specs.declared.ids.Link.{Link as ALink};
ghost use Rattle.ic_path.specs.Orders.{IsIn};

use crate::{RankedEvent, canonical_cmp, direct_causes, journal_text, rank_of};
use ic_link::{Far, LinkRows, LinkStore, has_room};
use ic_name::{AgentId, AgentName, Event, EventId, Kind, Link, LinkId, MakerId, Spot};
use smallvec::SmallVec;
use std::alloc::{AllocError, Global};
use std::cmp::Ordering;
use std::test::Fail;

const FIRST: EventId = EventId { slot: 0, line: 4 };

const SECOND: EventId = EventId { slot: 1, line: 2 };

const NEAR: AgentId = AgentId { slot: 0, serial: 0 };

const FAR: AgentId = AgentId { slot: 1, serial: 5 };

/// The event of two start agents, the first a gamma and the second an epsilon.
fn event(alloc: Global, a: u16, b: u16) -> Option<Event> {
    let first = AgentName::start(alloc, a)?;
    let second = AgentName::start(alloc, b)?;
    Event::of(first, Kind::Gamma, second, Kind::Eps)
}

/// Puts in a link. Its place is above those of the links before it. An error comes if it finds no room, or memory
/// runs out.
fn put(store: &mut LinkRows, maker: MakerId, place: u32, a: Spot, b: Spot) -> Result<(), AllocError>
    requires { (m : ALink) → IsIn m store.old → m.id.place < place }
    ensures { OnOk result ((m : ALink) → IsIn m store.new → m.id.place ≤ place) }
{
    let link = Link {
        id: LinkId { maker, place },
        a,
        b,
    };
    if !has_room(store, &link) {
        return Err(AllocError);
    }
    store.add(link)?;
    Ok(())
}

/// Links of the start and of two events, which make a path between the principal ports of two agents.
fn path(alloc: Global) -> Result<LinkRows, AllocError> {
    let mut store = LinkRows::empty(alloc);
    let near = Spot::Agent(NEAR, 0);
    let far = Spot::Agent(FAR, 0);
    let (first, second) = (MakerId::Event(FIRST), MakerId::Event(SECOND));
    put(&mut store, second, 0, near, Spot::Name(4))?;
    put(&mut store, first, 1, Spot::Name(6), Spot::Name(4))?;
    put(&mut store, MakerId::Start, 2, Spot::Name(6), Spot::Name(5))?;
    put(&mut store, second, 3, Spot::Name(5), far)?;
    Ok(store)
}

/// The direct causes of the event of the two agents, where a path joins their principal ports.
fn causes_of_the_pair(store: &LinkRows) -> Option<SmallVec<EventId, 4>> {
    match store.far(Spot::Agent(NEAR, 0)) {
        Far::End(Spot::Agent(FAR, 0)) => direct_causes(store, NEAR, FAR).ok(),
        _ => None,
    }
}

#[test]
fn causes_are_the_makers_of_the_path(rt: HostRuntime) -> Result<(), Fail> {
    let store = path(rt.alloc())?;
    let causes = causes_of_the_pair(&store).ok_or("the causes")?;
    assert_eq!(rt; causes.len(), 2);
    assert!(rt; causes.contains(&FIRST));
    assert!(rt; causes.contains(&SECOND));
    Ok(())
}

#[test]
fn a_rank_is_one_above_the_greatest(rt: HostRuntime) {
    assert_eq!(rt; rank_of(&[]), 0);
    assert_eq!(rt; rank_of(&[0]), 1);
    assert_eq!(rt; rank_of(&[2, 5, 1]), 6);
}

/// An event of two start agents by their numbers, with its rank.
type Row = (u16, u16, u32);

/// How two events with their ranks compare.
fn compared(alloc: Global, a: Row, b: Row) -> Option<Ordering> {
    let first = event(alloc, a.0, a.1)?;
    let second = event(alloc, b.0, b.1)?;
    Some(canonical_cmp(&first, a.2, &second, b.2))
}

/// Pairs of events with their ranks, and how they compare.
const ORDERS: [(Row, Row, Ordering); 4] = [
    ((4, 5, 0), (3, 8, 1), Ordering::Less),
    ((4, 5, 2), (3, 8, 2), Ordering::Greater),
    ((3, 8, 2), (3, 9, 2), Ordering::Less),
    ((3, 9, 2), (3, 9, 2), Ordering::Equal),
];

#[test]
fn events_go_by_rank_lead_and_other(rt: HostRuntime) {
    for (a, b, order) in &ORDERS {
        assert_eq!(rt; compared(rt.alloc(), *a, *b), Some(*order));
    }
}

/// The events of these agents and ranks.
fn ranked_events(alloc: Global, rows: &[Row]) -> Option<Vec<RankedEvent>> {
    let mut events = Vec::new(alloc);
    for (lead, other, rank) in rows {
        let event = event(alloc, *lead, *other)?;
        events.push(RankedEvent { event, rank: *rank }).ok()?;
    }
    Some(events)
}

/// Whether this is the journal of the events of these agents and ranks.
fn is_journal(alloc: Global, rows: &[Row], text: &[u8]) -> Option<bool> {
    let events = ranked_events(alloc, rows)?;
    let journal = journal_text(alloc, &events).ok()?;
    Some(journal.as_slice() == text)
}

#[test]
fn a_journal_has_a_line_for_each_event(rt: HostRuntime) {
    assert_eq!(rt; is_journal(rt.alloc(), &[], b"journal 0\n"), Some(true));
    let rows = [(4, 5, 0), (3, 10, 12)];
    let text = b"journal 2\n4 5 rank 0\n3 10 rank 12\n";
    assert_eq!(rt; is_journal(rt.alloc(), &rows, text), Some(true));
}
