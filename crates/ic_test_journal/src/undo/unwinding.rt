use ic_name::EventName;
use ic_test_games::names::standing_names;
use ic_test_games::player::{Game, Player, Step, wins};
use ic_undo::{undo_all, unwind};
use std::alloc::{AllocError, Global};
use std::test::Fail;

/// Four events, two of which rest on the first, and one on those.
const FOUR: [(Step, u8); 4] = [
    (Step::Fire(b"0", b"2"), 0),
    (Step::Fire(b"1", b"0.0"), 0),
    (Step::Fire(b"3", b"0.3"), 0),
    (Step::Fire(b"1.1", b"3.0"), 0),
];

/// Writes the name of an event in a line.
fn write_name(name: &EventName, text: &mut Vec<u8>) -> Result<(), AllocError> {
    name.lead().write_to(text)?;
    text.push(b' ')?;
    name.other().write_to(text)?;
    text.push(b'\n')?;
    Ok(())
}

/// Whether the names are those of these lines.
fn are_named(alloc: Global, names: &[EventName], lines: &[u8]) -> Result<bool, Fail> {
    let mut text = Vec::new(alloc);
    for name in names {
        write_name(name, &mut text)?;
    }
    Ok(text.as_slice() == lines)
}

/// The net from which they come.
const NET: &[u8] = b"G(E,a) = D(b,E);";

/// After these four, a firing is unwound with the events of the first lines, and those of the second lines stand.
#[derive(Clone, Copy)]
struct Unwound(usize, &'static [u8], &'static [u8]);

impl Game for Unwound {
    fn is_won(&self, alloc: Global, player: &mut Player) -> Result<bool, Fail> {
        if !player.plays(&FOUR)? {
            return Ok(false);
        }
        let id = player.id(self.0)?;
        let gone = unwind(alloc, &mut player.bench, id)?;
        let left = standing_names(alloc, &player.bench)?;
        Ok(are_named(alloc, &gone, self.1)? && are_named(alloc, &left, self.2)?)
    }
}

/// Each of the four: the last rests on the first in two ways, and nothing else on the last.
const UNWOUND: [Unwound; 4] = [
    Unwound(0, b"1.1 3.0\n3 0.3\n1 0.0\n0 2\n", b""),
    Unwound(1, b"1.1 3.0\n1 0.0\n", b"0 2\n3 0.3\n"),
    Unwound(2, b"1.1 3.0\n3 0.3\n", b"0 2\n1 0.0\n"),
    Unwound(3, b"1.1 3.0\n", b"0 2\n1 0.0\n3 0.3\n"),
];

#[test]
fn an_event_goes_with_what_rests_on_it(rt: HostRuntime) -> Result<(), Fail> {
    for unwound in &UNWOUND {
        assert!(rt; wins(rt.alloc(), NET, unwound)?);
    }
    Ok(())
}

/// After these four, all events are undone in the order of these lines.
struct AllUndone(&'static [u8]);

impl Game for AllUndone {
    fn is_won(&self, alloc: Global, player: &mut Player) -> Result<bool, Fail> {
        if !player.plays(&FOUR)? {
            return Ok(false);
        }
        let names = undo_all(alloc, &mut player.bench)?;
        are_named(alloc, &names, self.0)
    }
}

#[test]
fn all_events_go(rt: HostRuntime) -> Result<(), Fail> {
    assert!(rt; wins(rt.alloc(), NET, &AllUndone(b"1.1 3.0\n3 0.3\n1 0.0\n0 2\n"))?);
    Ok(())
}
