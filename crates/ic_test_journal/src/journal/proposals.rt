use ic_test_games::player::{Game, Player, Step, wins};
use std::alloc::Global;
use std::test::Fail;

/// Steps, each with the number of its refusal or 0, and how many lines the history has after them.
type Round = (&'static [(Step, u8)], usize);

/// Rounds, one after the other.
struct Rounds(&'static [Round]);

impl Game for Rounds {
    fn is_won(&self, _alloc: Global, player: &mut Player) -> Result<bool, Fail> {
        for (steps, lines) in self.0 {
            if !player.plays(steps)? || !player.has_lines(*lines)? {
                return Ok(false);
            }
        }
        Ok(true)
    }
}

const ENDLESS: &[u8] = b"G(x,a) = D(x,b);";

const STALE: &[Round] = &[(
    &[
        (Step::Propose(b"1", b"0"), 0),
        (Step::Fire(b"0", b"1"), 0),
        (Step::FireKept, 21),
    ],
    2,
)];

#[test]
fn a_stale_proposal_is_not_active(rt: HostRuntime) -> Result<(), Fail> {
    assert!(rt; wins(rt.alloc(), ENDLESS, &Rounds(STALE))?);
    Ok(())
}

const UNDONE_TWICE: &[Round] = &[(
    &[
        (Step::Fire(b"0", b"1"), 0),
        (Step::Undo(0), 0),
        (Step::Fire(b"0", b"1"), 0),
        (Step::Undo(0), 31),
    ],
    4,
)];

#[test]
fn an_id_names_one_firing_alone(rt: HostRuntime) -> Result<(), Fail> {
    assert!(rt; wins(rt.alloc(), ENDLESS, &Rounds(UNDONE_TWICE))?);
    Ok(())
}

const ONE_OF_TWO: &[Round] = &[
    (
        &[
            (Step::Propose(b"0", b"1"), 0),
            (Step::Propose(b"0", b"1"), 0),
            (Step::FireKept, 0),
            (Step::FireKept, 21),
        ],
        2,
    ),
    (
        &[
            (Step::Undo(0), 0),
            (Step::Fire(b"0", b"1"), 0),
            (Step::Undo(0), 31),
        ],
        5,
    ),
];

#[test]
fn one_of_two_proposals_is_fired(rt: HostRuntime) -> Result<(), Fail> {
    assert!(rt; wins(rt.alloc(), ENDLESS, &Rounds(ONE_OF_TWO))?);
    Ok(())
}

const WITH_ROOM: &[Round] = &[(
    &[
        (Step::Fire(b"0", b"1"), 0),
        (Step::Fire(b"2", b"3"), 0),
        (Step::Reserve(1), 0),
        (Step::Undo(0), 0),
    ],
    3,
)];

#[test]
fn with_room_an_older_event_is_undone(rt: HostRuntime) -> Result<(), Fail> {
    let text = b"D(x,p) = D(y,q); D(x,r) = D(y,s);";
    assert!(rt; wins(rt.alloc(), text, &Rounds(WITH_ROOM))?);
    Ok(())
}

/// A reservation of so many lines, the number of its refusal, and the room after it.
struct Reservation(usize, u8, usize);

impl Game for Reservation {
    fn is_won(&self, _alloc: Global, player: &mut Player) -> Result<bool, Fail> {
        let number = player.reserve(self.0);
        Ok(number == self.1 && player.bench.room() == self.2)
    }
}

#[test]
fn no_room_beyond_the_limit(rt: HostRuntime) -> Result<(), Fail> {
    assert!(rt; wins(rt.alloc(), b"E = E;", &Reservation(1_048_577, 24, 0))?);
    Ok(())
}
