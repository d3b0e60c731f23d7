// Ports of agents of which two are under one slot: a port's own slot has the record of one of them alone, and that of the
// other must not be read from it.
ghost use Rattle.ic_test_text.specs.Stores.{AreSame};

use crate::table::paths::event;
use crate::table::side_by_side::Both;
use ic_link::{Far, LinkRows, LinkStore};
use ic_name::{AgentId, EventId, Link, LinkId, MakerId, Spot};
use ic_table::PortTable;
use smallvec::SmallVec;
use std::alloc::AllocError;
use std::test::Fail;

/// Two agents under one slot, and one under another.
const FIRST: AgentId = AgentId { slot: 3, serial: 1 };

const SECOND: AgentId = AgentId { slot: 3, serial: 2 };

const THIRD: AgentId = AgentId { slot: 1, serial: 2 };

/// A link of an event, by its line, the link's place, and two ports.
type Joined = (u32, u32, (AgentId, u8), (AgentId, u8));

/// The link of two ports.
fn link(joined: Joined) -> Link {
    let (line, place, a, b) = joined;
    Link {
        id: LinkId {
            maker: MakerId::Event(event(line)),
            place,
        },
        a: Spot::Agent(a.0, a.1),
        b: Spot::Agent(b.0, b.1),
    }
}

/// The events that made links of the path from a loose spot.
fn makers<L: LinkStore>(store: &L, spot: Spot) -> Option<SmallVec<EventId, 4>> {
    if store.degree(spot) != 1 {
        return None;
    }
    store.makers(spot).ok()
}

/// Whether these are the events that made links of the path from a loose spot.
fn has_makers(table: &PortTable, spot: Spot, events: &[EventId]) -> bool {
    match makers(table, spot) {
        Some(found) => found.as_slice() == events,
        None => false,
    }
}

/// Whether both stores tell the same makers of a loose spot's path.
fn tell_the_same_makers(table: &PortTable, rows: &LinkRows, spot: Spot) -> bool {
    match makers(rows, spot) {
        Some(events) => has_makers(table, spot, events.as_slice()),
        None => false,
    }
}

/// Whether both stores give the same answers of a port.
fn agree_at(table: &PortTable, rows: &LinkRows, agent: AgentId, port: u8) -> bool {
    let spot = Spot::Agent(agent, port);
    let degree = table.degree(spot);
    degree == rows.degree(spot)
        && table.far(spot) == rows.far(spot)
        && (degree != 1 || tell_the_same_makers(table, rows, spot))
}

/// Whether both stores give the same answers of all ports.
fn agree(table: &PortTable, rows: &LinkRows) -> bool {
    for agent in [FIRST, SECOND, THIRD] {
        for port in 0..3 {
            if !agree_at(table, rows, agent, port) {
                return false;
            }
        }
    }
    table.rings() == rows.rings()
}

/// The links that are put in one after the other, and the event whose links then go.
const ROUNDS: [([Joined; 2], u32); 4] = [
    (
        [
            (1, 0, (FIRST, 0), (SECOND, 0)),
            (1, 1, (FIRST, 1), (THIRD, 0)),
        ],
        9,
    ),
    (
        [
            (2, 0, (SECOND, 1), (THIRD, 1)),
            (2, 1, (SECOND, 0), (FIRST, 1)),
        ],
        1,
    ),
    (
        [
            (3, 0, (FIRST, 2), (SECOND, 2)),
            (3, 1, (FIRST, 0), (FIRST, 2)),
        ],
        2,
    ),
    (
        [
            (4, 0, (SECOND, 1), (FIRST, 1)),
            (4, 1, (SECOND, 2), (FIRST, 0)),
        ],
        3,
    ),
];

/// What a table answers of some ports after that.
const AT_LAST: [(Spot, Far); 4] = [
    (Spot::Agent(FIRST, 0), Far::End(Spot::Agent(SECOND, 2))),
    (Spot::Agent(FIRST, 1), Far::End(Spot::Agent(SECOND, 1))),
    (Spot::Agent(FIRST, 2), Far::Bare),
    (Spot::Agent(SECOND, 0), Far::Bare),
];

/// Whether a table answers so.
fn answers_at_last(table: &PortTable) -> bool {
    for (spot, far) in &AT_LAST {
        if table.far(*spot) != *far {
            return false;
        }
    }
    true
}

/// Whether both stores give the same answers each time, and the table answers so at last.
fn always_agree(both: &mut Both) -> Result<bool, AllocError>
    requires { AreSame both.old.table.links both.old.rows both.old.ids.items }
{
    for (links, taken) in &ROUNDS {
        for joined in links {
            both.put(link(*joined))?;
            if !agree(&both.table, &both.rows) {
                return Ok(false);
            }
        }
        both.take_of(event(*taken));
        if !agree(&both.table, &both.rows) {
            return Ok(false);
        }
    }
    Ok(answers_at_last(&both.table))
}

#[test]
fn agents_under_one_slot_have_ports_of_their_own(rt: HostRuntime) -> Result<(), Fail> {
    let mut both = Both::empty(rt.alloc());
    assert!(rt; always_agree(&mut both)?);
    Ok(())
}
