use crate::places::{Place, is_at, port_at};
use ic_journal::Wire;
use ic_test_games::player::{Game, Player, Step, wins};
use std::alloc::Global;
use std::test::Fail;

/// A port, the port at the other end of its wire, and the numbers of the firings that made the wire.
type WireRow = (Place, Place, &'static [usize]);

/// The wire at a place, if there is one.
fn wire_at(alloc: Global, player: &Player, place: Place) -> Result<Option<Wire>, Fail> {
    let port = port_at(alloc, place)?;
    Ok(player.bench.wire(&port)?)
}

/// Whether just these firings made the wire, in this order.
fn is_made_by(player: &Player, wire: &Wire, firings: &[usize]) -> Result<bool, Fail> {
    if wire.makers.len() != firings.len() {
        return Ok(false);
    }
    for (maker, number) in wire.makers.iter().zip(firings) {
        if *maker != player.id(*number)? {
            return Ok(false);
        }
    }
    Ok(true)
}

/// Steps that are all taken, the wires after them, and places without a wire.
type Round = (&'static [(Step, u8)], &'static [WireRow], &'static [Place]);

/// Rounds, one after the other.
struct Wires(&'static [Round]);

impl Game for Wires {
    fn is_won(&self, alloc: Global, player: &mut Player) -> Result<bool, Fail> {
        for (steps, rows, bare) in self.0 {
            if !player.plays(steps)?
                || !has_wires(alloc, player, rows)?
                || !is_bare(alloc, player, bare)?
            {
                return Ok(false);
            }
        }
        Ok(true)
    }
}

/// Whether these wires are there.
fn has_wires(alloc: Global, player: &Player, rows: &[WireRow]) -> Result<bool, Fail> {
    for (near, far, firings) in rows {
        let Some(wire) = wire_at(alloc, player, *near)? else {
            return Ok(false);
        };
        if !is_at(alloc, &wire.far, *far)? || !is_made_by(player, &wire, firings)? {
            return Ok(false);
        }
    }
    Ok(true)
}

/// Whether there is no wire at these places.
fn is_bare(alloc: Global, player: &Player, places: &[Place]) -> Result<bool, Fail> {
    for place in places {
        if wire_at(alloc, player, *place)?.is_some() {
            return Ok(false);
        }
    }
    Ok(true)
}

/// The wires of a net of a gamma and a delta, before and after they meet, and after two of their children meet. The names
/// `x`, `a` and `b` have the numbers 0, 1 and 2.
const ROUNDS: &[Round] = &[
    (
        &[],
        &[
            (Place::Agent(b"0", 0), Place::Agent(b"1", 0), &[]),
            (Place::Agent(b"1", 1), Place::Agent(b"0", 1), &[]),
            (Place::Agent(b"0", 2), Place::Name(1), &[]),
            (Place::Name(2), Place::Agent(b"1", 2), &[]),
        ],
        &[
            Place::Name(0),
            Place::Name(3),
            Place::Agent(b"0", 3),
            Place::Agent(b"2", 0),
        ],
    ),
    (
        &[(Step::Fire(b"0", b"1"), 0)],
        &[
            (Place::Agent(b"0.2", 0), Place::Agent(b"0.0", 0), &[0]),
            (Place::Agent(b"0.1", 2), Place::Agent(b"0.3", 2), &[0]),
            (Place::Name(1), Place::Agent(b"0.1", 0), &[0]),
        ],
        &[Place::Name(0), Place::Agent(b"0", 0), Place::Agent(b"1", 2)],
    ),
    (
        &[(Step::Fire(b"0.0", b"0.2"), 0)],
        &[
            (
                Place::Agent(b"0.0.2", 0),
                Place::Agent(b"0.0.0", 0),
                &[0, 1],
            ),
            (Place::Agent(b"0.1", 1), Place::Agent(b"0.0.1", 0), &[0, 1]),
            (Place::Agent(b"0.0.0", 1), Place::Agent(b"0.0.2", 1), &[1]),
            (Place::Agent(b"0.3", 0), Place::Name(2), &[0]),
        ],
        &[Place::Agent(b"0.0", 1)],
    ),
    (
        &[(Step::Undo(1), 0)],
        &[(Place::Agent(b"0.2", 0), Place::Agent(b"0.0", 0), &[0])],
        &[Place::Agent(b"0.0.0", 0)],
    ),
];

#[test]
fn a_wire_has_the_events_that_made_it(rt: HostRuntime) -> Result<(), Fail> {
    assert!(rt; wins(rt.alloc(), b"G(x,a) = D(x,b);", &Wires(ROUNDS))?);
    Ok(())
}
