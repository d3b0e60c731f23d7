use ic_journal::{Bench, LinkStore};
use ic_name::limits::MAX_LINES;
use ic_start::Start;
use ic_test_games::names::{name_of, standing_names};
use ic_test_games::player::{Game, Player, Step, wins};
use ic_text::read_net;
use ic_trace::{Letter, Move, TraceFault, check, letters, moves_to_canonical};
use std::alloc::Global;
use std::test::Fail;

/// A letter: the firing or the undo of the event of two agents.
#[derive(Clone, Copy)]
enum Sign {
    Fire(&'static [u8], &'static [u8]),
    Undo(&'static [u8], &'static [u8]),
}

fn letter_of(alloc: Global, sign: Sign) -> Result<Letter, Fail> {
    match sign {
        Sign::Fire(a, b) => Ok(Letter::Fire(name_of(alloc, a, b)?)),
        Sign::Undo(a, b) => Ok(Letter::Undo(name_of(alloc, a, b)?)),
    }
}

fn letters_of(alloc: Global, signs: &[Sign]) -> Result<Vec<Letter>, Fail> {
    let mut letters = Vec::new(alloc);
    for sign in signs {
        letters.push(letter_of(alloc, *sign)?)?;
    }
    Ok(letters)
}

/// Whether the moves lead from the first list to the second.
pub(crate) fn leads(
    alloc: Global,
    start: &Start,
    letters: &[Letter],
    moves: &[Move],
    to: &[Letter],
) -> Result<bool, Fail> {
    if letters.len() > MAX_LINES {
        return Ok(false);
    }
    Ok(check(alloc, start, letters, moves, to)?)
}

const COPIES: &[u8] = b"G(E,a) = D(b,E); G(E,c) = D(d,E); G(E,e) = D(f,E); G(E,g) = D(h,E);";

/// An event, its undo, one that rests on it, and one of another copy of the net.
const CAUSE: Sign = Sign::Fire(b"0", b"2");

const CAUSE_UNDONE: Sign = Sign::Undo(b"0", b"2");

const EFFECT: Sign = Sign::Fire(b"1", b"0.0");

const OTHER: Sign = Sign::Fire(b"4", b"6");

/// Moves that lead from the first list to the second, or don't.
struct Moved(&'static [Sign], &'static [Move], &'static [Sign], bool);

const MOVED: [Moved; 6] = [
    Moved(
        &[CAUSE, OTHER, CAUSE_UNDONE],
        &[Move::Swap(0), Move::Cancel(1)],
        &[OTHER],
        true,
    ),
    Moved(
        &[CAUSE, OTHER, CAUSE_UNDONE],
        &[Move::Swap(1), Move::Cancel(0)],
        &[OTHER],
        true,
    ),
    Moved(&[CAUSE, EFFECT], &[Move::Swap(0)], &[EFFECT, CAUSE], false),
    Moved(&[CAUSE, CAUSE_UNDONE], &[Move::Cancel(0)], &[], true),
    Moved(&[CAUSE], &[Move::Swap(0)], &[CAUSE], false),
    Moved(&[EFFECT], &[], &[EFFECT], false),
];

/// Whether a check answers as the table says.
fn is_answered(alloc: Global, start: &Start, moved: &Moved) -> Result<bool, Fail> {
    let from = letters_of(alloc, moved.0)?;
    let to = letters_of(alloc, moved.2)?;
    Ok(leads(alloc, start, &from, moved.1, &to)? == moved.3)
}

#[test]
fn moves_are_checked(rt: HostRuntime) -> Result<(), Fail> {
    let start = read_net(rt.alloc(), COPIES)?;
    for moved in &MOVED {
        assert!(rt; is_answered(rt.alloc(), &start, moved)?);
    }
    Ok(())
}

/// Why there are no moves for these letters.
fn fault_of(alloc: Global, letters: &[Letter]) -> Result<Option<TraceFault>, Fail> {
    let start = read_net(alloc, COPIES)?;
    Ok(moves_to_canonical(alloc, &start, letters).err())
}

/// Why there are none for the letters of these signs.
fn fault_of_signs(alloc: Global, signs: &[Sign]) -> Result<Option<TraceFault>, Fail> {
    let letters = letters_of(alloc, signs)?;
    fault_of(alloc, &letters)
}

#[test]
fn the_first_letter_that_is_refused_is_told(rt: HostRuntime) -> Result<(), Fail> {
    let early = fault_of_signs(rt.alloc(), &[EFFECT])?;
    assert!(rt; early == Some(TraceFault::NotLegal(0)));
    let held = [CAUSE, EFFECT, CAUSE_UNDONE, CAUSE_UNDONE];
    assert!(rt; fault_of_signs(rt.alloc(), &held)? == Some(TraceFault::NotLegal(2)));
    Ok(())
}

/// So many letters that fire and undo an event in turn.
fn in_turn(alloc: Global, count: usize) -> Result<Vec<Letter>, Fail> {
    let mut letters = Vec::new(alloc);
    for number in 0..count {
        let sign = if number % 2 == 0 { CAUSE } else { CAUSE_UNDONE };
        letters.push(letter_of(alloc, sign)?)?;
    }
    Ok(letters)
}

/// Why there are no moves for them.
fn fault_in_turn(alloc: Global, count: usize) -> Result<Option<TraceFault>, Fail> {
    let letters = in_turn(alloc, count)?;
    fault_of(alloc, &letters)
}

#[test]
fn refusals_of_lists_have_numbers(rt: HostRuntime) {
    assert!(rt; TraceFault::TooMany.number() == 71);
    assert!(rt; TraceFault::NotLegal(3).number() == 72);
    assert!(rt; TraceFault::Memory.number() == 25);
}

#[test]
fn a_list_has_two_thousand_letters_at_most(rt: HostRuntime) -> Result<(), Fail> {
    assert!(rt; fault_in_turn(rt.alloc(), 2_000)?.is_none());
    assert!(rt; fault_in_turn(rt.alloc(), 2_001)? == Some(TraceFault::TooMany));
    Ok(())
}

/// The firings of what stands on a bench, in canonical order.
pub(crate) fn firings<L: LinkStore>(alloc: Global, bench: &Bench<L>) -> Result<Vec<Letter>, Fail> {
    let mut letters = Vec::new(alloc);
    for name in &standing_names(alloc, bench)? {
        letters.push(Letter::Fire(name.copy()?))?;
    }
    Ok(letters)
}

/// Whether the letters of a bench are those of these signs.
fn has_letters<L: LinkStore>(
    alloc: Global,
    bench: &Bench<L>,
    signs: &[Sign],
) -> Result<bool, Fail> {
    let told = letters(alloc, bench)?;
    let wanted = letters_of(alloc, signs)?;
    Ok(told.as_slice() == wanted.as_slice())
}

/// Whether moves lead from the first list to the second, which are those that bring the first to canonical order.
fn are_brought(
    alloc: Global,
    start: &Start,
    letters: &[Letter],
    to: &[Letter],
) -> Result<bool, Fail> {
    match moves_to_canonical(alloc, start, letters) {
        Ok(moves) => leads(alloc, start, letters, &moves, to),
        Err(_) => Ok(false),
    }
}

/// Whether they lead from the letters of a bench to the firings of what stands.
fn is_brought<L: LinkStore>(alloc: Global, bench: &Bench<L>) -> Result<bool, Fail> {
    let told = letters(alloc, bench)?;
    let to = firings(alloc, bench)?;
    are_brought(alloc, bench.start(), &told, &to)
}

/// After these calls, each with its answer, the letters are these, and moves lead to the firings of what stands.
struct Session(&'static [(Step, u8)], &'static [Sign]);

impl Game for Session {
    fn is_won(&self, alloc: Global, player: &mut Player) -> Result<bool, Fail> {
        Ok(
            player.plays(self.0)?
                && has_letters(alloc, &player.bench, self.1)?
                && is_brought(alloc, &player.bench)?,
        )
    }
}

const HELD: Session = Session(
    &[
        (Step::Fire(b"0", b"2"), 0),
        (Step::Fire(b"1", b"0.0"), 0),
        (Step::Fire(b"3", b"0.3"), 0),
        (Step::Undo(0), 32),
        (Step::Fire(b"1.1", b"3.0"), 0),
        (Step::Undo(3), 0),
        (Step::Undo(2), 0),
    ],
    &[
        CAUSE,
        EFFECT,
        Sign::Fire(b"3", b"0.3"),
        Sign::Fire(b"1.1", b"3.0"),
        Sign::Undo(b"1.1", b"3.0"),
        Sign::Undo(b"3", b"0.3"),
    ],
);

const TWO_USERS: Session = Session(
    &[
        (Step::Fire(b"0", b"2"), 0),
        (Step::Fire(b"12", b"14"), 0),
        (Step::Undo(0), 0),
        (Step::Fire(b"8", b"10"), 0),
        (Step::Fire(b"0", b"2"), 0),
        (Step::Fire(b"4", b"6"), 0),
        (Step::Undo(3), 0),
    ],
    &[
        CAUSE,
        Sign::Fire(b"12", b"14"),
        CAUSE_UNDONE,
        Sign::Fire(b"8", b"10"),
        CAUSE,
        OTHER,
        CAUSE_UNDONE,
    ],
);

const BACK_AND_FORTH: Session = Session(
    &[
        (Step::Fire(b"0", b"1"), 0),
        (Step::Fire(b"0.0", b"0.2"), 0),
        (Step::Fire(b"0.0.0", b"0.0.2"), 0),
        (Step::Undo(2), 0),
        (Step::Undo(1), 0),
        (Step::Fire(b"0.0", b"0.2"), 0),
        (Step::Undo(3), 0),
        (Step::Undo(0), 0),
    ],
    &[
        Sign::Fire(b"0", b"1"),
        Sign::Fire(b"0.0", b"0.2"),
        Sign::Fire(b"0.0.0", b"0.0.2"),
        Sign::Undo(b"0.0.0", b"0.0.2"),
        Sign::Undo(b"0.0", b"0.2"),
        Sign::Fire(b"0.0", b"0.2"),
        Sign::Undo(b"0.0", b"0.2"),
        Sign::Undo(b"0", b"1"),
    ],
);

#[test]
fn sessions_are_brought_to_canonical_order(rt: HostRuntime) -> Result<(), Fail> {
    assert!(rt; wins(rt.alloc(), COPIES, &HELD)?);
    assert!(rt; wins(rt.alloc(), COPIES, &TWO_USERS)?);
    assert!(rt; wins(rt.alloc(), b"G(x,a) = D(x,b);", &BACK_AND_FORTH)?);
    Ok(())
}
