use crate::places::{Place, is_at};
use ic_name::AgentName;
use ic_test_games::names::names_of;
use ic_test_games::player::{Game, Player, wins};
use ic_undo::{AbsorbFault, Obstacle, absorb};
use std::alloc::Global;
use std::test::Fail;

/// What is in the way of an event: there is no agent of this name, or the principal ports of its agents are joined to these
/// places, the lead's first.
#[derive(Clone, Copy)]
enum Wanted {
    Absent(&'static [u8]),
    Joined(Place, Place),
}

impl Wanted {
    /// Whether the obstacle is this one.
    fn is(self, alloc: Global, obstacle: &Obstacle) -> Result<bool, Fail> {
        match (obstacle, self) {
            (Obstacle::Absent(name), Wanted::Absent(text)) => {
                Ok(name.is(&AgentName::read(alloc, text)?))
            }
            (Obstacle::Joined(lead, other), Wanted::Joined(from_lead, from_other)) => {
                Ok(is_at(alloc, lead, from_lead)? && is_at(alloc, other, from_other)?)
            }
            _ => Ok(false),
        }
    }
}

/// Events are listed, and the least that can't come to stand has this in its way.
struct Hindered(&'static [(&'static [u8], &'static [u8])], Wanted);

impl Game for Hindered {
    fn is_won(&self, alloc: Global, player: &mut Player) -> Result<bool, Fail> {
        let names = names_of(alloc, self.0)?;
        match absorb(alloc, &mut player.bench, &names) {
            Err(AbsorbFault::NeverActive(_, obstacle)) => self.1.is(alloc, &obstacle),
            _ => Ok(false),
        }
    }
}

/// A net without a normal form, whose names `x`, `a` and `b` have the numbers 0, 1 and 2.
const NET: &[u8] = b"G(x,a) = D(x,b);";

/// A net in which port 1 of the agent 0 is joined to port 1 of the agent 2. The names `x` to `e` have the numbers 0 to 5.
const JOINED: &[u8] = b"G(x,a) = D(b,c); G(x,d) = e;";

/// An agent that is nowhere; one that a listed event takes away; a child of a listed event that is joined to another child,
/// beside one that is joined to a free name; and one that is joined to an agent that was there before.
const GAMES: &[(&[u8], Hindered)] = &[
    (NET, Hindered(&[(b"0", b"5")], Wanted::Absent(b"5"))),
    (
        NET,
        Hindered(&[(b"0", b"5"), (b"0", b"1")], Wanted::Absent(b"0")),
    ),
    (
        NET,
        Hindered(
            &[(b"0", b"1"), (b"0.0", b"0.1")],
            Wanted::Joined(Place::Agent(b"0.2", 0), Place::Name(1)),
        ),
    ),
    (
        JOINED,
        Hindered(
            &[(b"0.0", b"2"), (b"0", b"1")],
            Wanted::Joined(Place::Name(5), Place::Agent(b"2", 1)),
        ),
    ),
];

#[test]
fn an_obstacle_is_told(rt: HostRuntime) -> Result<(), Fail> {
    for (net, game) in GAMES {
        assert!(rt; wins(rt.alloc(), net, game)?);
    }
    Ok(())
}
