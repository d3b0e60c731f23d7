//! Tests of `put_made`, by both stores.

ghost use Rattle.std.specs.Prelude.{◌≡◌, IsTrue};
ghost use Rattle.ic_link.specs.Links.{event_link};
ghost use Rattle.ic_link.specs.Made.{spot_of, HasDigit};

use ic_link::{Far, LinkRows, LinkStore, MAX_JOINS, Principals, RuleLinks, has_room};
use ic_name::{AgentId, EventId, Link, LinkId, MakerId, RuleEnd, Spot};
use ic_table::PortTable;
use std::alloc::{AllocError, Global};
use std::process::Abort;
use std::test::Fail;

/// The link of an event at a place, between two spots.
fn link(event: EventId, place: u32, a: Spot, b: Spot) -> Link
    ensures { result ≡ record { id = event_link event place; a = a; b = b } }
{
    Link {
        id: LinkId {
            maker: MakerId::Event(event),
            place,
        },
        a,
        b,
    }
}

/// Whether the end is one of a child that is there, or of the two agents.
fn has_digit(born: &[AgentId], end: RuleEnd) -> bool
    ensures { IsTrue result → HasDigit born.now end }
{
    match end {
        RuleEnd::Child(digit, _) => (digit as usize) < born.len(),
        RuleEnd::Lead(_) | RuleEnd::Other(_) => true,
    }
}

/// The same of both ends of a link.
fn have_digits(born: &[AgentId], ends: (RuleEnd, RuleEnd)) -> bool
    ensures { IsTrue result → HasDigit born.now ends.0 × HasDigit born.now ends.1 }
{
    has_digit(born, ends.0) && has_digit(born, ends.1)
}

/// The spot that an end of the rule is.
fn spot(made: &RuleLinks<'_>, end: RuleEnd) -> Spot
    requires { HasDigit made.now.born.now end }
    ensures { result ≡ spot_of made.now.lead made.now.other made.now.born.now end }
{
    let (agent, port) = made.port(end);
    Spot::Agent(agent, port)
}

/// Puts in two links of an event at once, as its only ones: between ports of agents 0 and 1, and of agents 2 and 3, its
/// children. It is `false` if they find no room. An error comes if memory runs out. `put_made` wants room for both and
/// `has_room` tells of one link, so each first goes in by `add` and is taken out again.
fn put_two<L: LinkStore>(
    store: &mut L,
    event: EventId,
    first: (RuleEnd, RuleEnd),
    second: (RuleEnd, RuleEnd),
    joins: &mut [Option<Principals>; MAX_JOINS],
) -> Result<bool, AllocError> {
    let born = [agent(2), agent(3)];
    if !have_digits(&born, first) {
        return Ok(false);
    }
    if !have_digits(&born, second) {
        return Ok(false);
    }
    let ends = [first, second];
    let made = RuleLinks {
        event,
        lead: agent(0),
        other: agent(1),
        born: &born,
        ends: &ends,
    };
    store.take_of(event);
    let one = link(event, 0, spot(&made, first.0), spot(&made, first.1));
    if !has_room(store, &one) {
        return Ok(false);
    }
    store.add(one)?;
    let other = link(event, 1, spot(&made, second.0), spot(&made, second.1));
    if !has_room(store, &other) {
        return Ok(false);
    }
    store.add(other)?;
    store.lawful();
    store.take_of(event);
    store.put_made(&made, joins)?;
    Ok(true)
}

/// The event that stands in a line of a history.
fn event(line: u32) -> EventId {
    EventId { slot: line, line }
}

/// The first agent of a slot.
fn agent(slot: u32) -> AgentId {
    AgentId { slot, serial: 0 }
}

/// A port of the agent in the slot.
fn port(slot: u32, port: u8) -> Spot {
    Spot::Agent(agent(slot), port)
}

/// The agents in these slots, joined by their principal ports.
fn pair(one: u32, other: u32) -> Option<Principals> {
    Some(Principals {
        one: agent(one),
        other: agent(other),
    })
}

/// An event that makes two links, and what the store answers of them.
#[derive(Clone, Copy)]
struct Firing {
    /// The line of the history in which the event stands.
    line: u32,
    /// The ends of its links, in the order of their places.
    ends: [(RuleEnd, RuleEnd); 2],
    /// The principal ports that the links join.
    joins: [Option<Principals>; MAX_JOINS],
    /// The number of rings once they are in.
    rings: u64,
}

/// Three events in turn. After two of them, the auxiliary ports of agents 0 and 1 lead to the principal ports of agents 2 and
/// 3, and to each other, and agents 0 and 1 are a pair. Once it has fired, agents 2 and 3 are a pair, and there is a ring.
fn firings() -> [Firing; 3] {
    use RuleEnd::{Child, Lead, Other};
    [
        Firing {
            line: 1,
            ends: [(Lead(1), Child(0, 0)), (Other(1), Child(1, 0))],
            joins: [None; MAX_JOINS],
            rings: 0,
        },
        Firing {
            line: 2,
            ends: [(Lead(2), Other(2)), (Lead(0), Other(0))],
            joins: [None, pair(0, 1), None, None],
            rings: 0,
        },
        Firing {
            line: 3,
            ends: [(Lead(1), Other(1)), (Lead(2), Other(2))],
            joins: [pair(2, 3), None, None, None],
            rings: 1,
        },
    ]
}

/// Puts in the links of each firing in turn. The store answers as each of them says.
fn put_firings<L: LinkStore>(rt: &impl Abort, store: &mut L) -> Result<(), AllocError> {
    for firing in &firings() {
        let mut joins = [pair(0, 0); MAX_JOINS];
        let [first, second] = firing.ends;
        assert!(rt; put_two(store, event(firing.line), first, second, &mut joins)?);
        assert!(rt; joins == firing.joins);
        assert_eq!(rt; store.rings(), firing.rings);
    }
    Ok(())
}

fn a_pair_fires<L: LinkStore>(rt: &impl Abort, alloc: Global) -> Result<(), Fail> {
    let mut store = L::empty(alloc);
    put_firings(rt, &mut store)?;
    assert_eq!(rt; store.far(port(2, 0)), Far::End(port(3, 0)));
    assert_eq!(rt; store.far(port(0, 2)), Far::Joint);
    store.take_of(event(3));
    assert_eq!(rt; store.rings(), 0);
    assert_eq!(rt; store.far(port(2, 0)), Far::End(port(0, 1)));
    Ok(())
}

#[test]
fn a_pair_fires_in_rows(rt: HostRuntime) -> Result<(), Fail> {
    a_pair_fires::<LinkRows>(&rt, rt.alloc())
}

#[test]
fn a_pair_fires_in_a_table(rt: HostRuntime) -> Result<(), Fail> {
    a_pair_fires::<PortTable>(&rt, rt.alloc())
}
