use ic_name::{Call, EventId, Kind, Reply};
use ic_test_games::events::event_of;
use ic_test_games::player::{Game, Player, Step, wins};
use std::alloc::Global;
use std::test::Fail;

/// The ids of these firings.
fn ids_of(alloc: Global, player: &Player, numbers: &[usize]) -> Result<Vec<EventId>, Fail> {
    let mut ids = Vec::new(alloc);
    for number in numbers {
        ids.push(player.id(*number)?)?;
    }
    Ok(ids)
}

/// Whether the direct dependents of the first firing are the events of these, in this order.
fn dependents_are(alloc: Global, player: &Player, numbers: &[usize]) -> Result<bool, Fail> {
    let ids = ids_of(alloc, player, numbers)?;
    match player.bench.dependents(player.id(0)?)? {
        Some(dependents) => Ok(dependents.as_slice() == ids.as_slice()),
        None => Ok(false),
    }
}

/// The event that makes two active pairs, then those, the greater one first, then one that rests on all of them.
const FOUR: [(Step, u8); 4] = [
    (Step::Fire(b"0", b"2"), 0),
    (Step::Fire(b"3", b"0.3"), 0),
    (Step::Fire(b"1", b"0.0"), 0),
    (Step::Fire(b"1.1", b"3.0"), 0),
];

/// After these four, the direct dependents of the first are the events of these firings, in this order.
struct Dependents(&'static [usize]);

impl Game for Dependents {
    fn is_won(&self, alloc: Global, player: &mut Player) -> Result<bool, Fail> {
        Ok(player.plays(&FOUR)? && dependents_are(alloc, player, self.0)?)
    }
}

#[test]
fn dependents_come_in_canonical_order(rt: HostRuntime) -> Result<(), Fail> {
    assert!(rt; wins(rt.alloc(), b"G(E,a) = D(b,E);", &Dependents(&[2, 1, 3]))?);
    Ok(())
}

/// Whether a line of the history is the undo of a firing.
fn is_undo(player: &Player, number: usize, line: u32) -> Result<bool, Fail> {
    let undo = Call::Undo(player.id(number)?.line);
    Ok(player.bench.line_is(line, &undo, Reply::Undone))
}

/// An event is fired and undone.
const UNDONE: [(Step, u8); 2] = [(Step::Fire(b"0", b"1"), 0), (Step::Undo(0), 0)];

/// After that, the undo is found in this line, or isn't.
#[derive(Drop)]
struct UndoAt(u32, bool);

impl Game for UndoAt {
    fn is_won(&self, _alloc: Global, player: &mut Player) -> Result<bool, Fail> {
        Ok(player.plays(&UNDONE)? && is_undo(player, 0, self.0)? == self.1)
    }
}

#[test]
fn an_undo_is_found_by_its_line(rt: HostRuntime) -> Result<(), Fail> {
    for (line, found) in [(0, false), (1, true), (2, false)] {
        assert!(rt; wins(rt.alloc(), b"G(x,a) = D(x,b);", &UndoAt(line, found))?);
    }
    Ok(())
}

/// Whether the line of a firing, which is of the gamma 0 and the delta 1, has this reply.
fn has_reply(alloc: Global, player: &Player, number: usize, reply: Reply) -> Result<bool, Fail> {
    let call = Call::Fire(event_of(alloc, &(b"0", Kind::Gamma, b"1", Kind::Delta))?);
    let id = player.id(number)?;
    Ok(player.bench.line_is(id.line, &call, reply))
}

/// An event is fired, undone, and fired again.
const FIRED_TWICE: [(Step, u8); 3] = [
    (Step::Fire(b"0", b"1"), 0),
    (Step::Undo(0), 0),
    (Step::Fire(b"0", b"1"), 0),
];

/// After that, the last of three lines is found with this reply, or isn't.
#[derive(Drop)]
struct FiringWith(Reply, bool);

impl Game for FiringWith {
    fn is_won(&self, alloc: Global, player: &mut Player) -> Result<bool, Fail> {
        Ok(
            player.plays(&FIRED_TWICE)?
                && player.bench.lines() == 3
                && has_reply(alloc, player, 1, self.0)? == self.1,
        )
    }
}

#[test]
fn a_firing_is_found_by_its_line(rt: HostRuntime) -> Result<(), Fail> {
    for (reply, found) in [(Reply::Fired, true), (Reply::NotActive, false)] {
        assert!(rt; wins(rt.alloc(), b"G(x,a) = D(x,b);", &FiringWith(reply, found))?);
    }
    Ok(())
}
