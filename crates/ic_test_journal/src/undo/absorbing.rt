use ic_journal::{Bench, NoGate, Store, fire_least};
use ic_name::EventName;
use ic_test_games::answers::{answer_of, answers};
use ic_test_games::names::{name_of, names_of, standing_names};
use ic_test_games::player::{Game, Player, wins};
use ic_undo::{AbsorbFault, absorb};
use std::alloc::Global;
use std::test::Fail;

/// The number of what absorbing answers, and how many events it absorbed: 0 and that, or the refusal's and 0.
fn absorbs(alloc: Global, bench: &mut Bench<Store>, names: &[EventName]) -> (u8, u32) {
    match absorb(alloc, bench, names) {
        Ok(count) => (0, count),
        Err(fault) => (fault.number(), 0),
    }
}

/// Events are listed; what is answered, how many lines the history has then, and how many events stand.
#[derive(Drop)]
struct Listed(
    &'static [(&'static [u8], &'static [u8])],
    u8,
    u32,
    u32,
    usize,
);

impl Game for Listed {
    fn is_won(&self, alloc: Global, player: &mut Player) -> Result<bool, Fail> {
        let names = names_of(alloc, self.0)?;
        let answer = absorbs(alloc, &mut player.bench, &names);
        let lines = player.bench.lines();
        Ok(answer == (self.1, self.2) && lines == self.3 && player.bench.standing_count() == self.4)
    }
}

/// A net without a normal form.
const NET: &[u8] = b"G(x,a) = D(x,b);";

#[test]
fn what_came_is_taken_back(rt: HostRuntime) -> Result<(), Fail> {
    let game = Listed(&[(b"0", b"5"), (b"0", b"1")], 51, 0, 2, 0);
    assert!(rt; wins(rt.alloc(), NET, &game)?);
    Ok(())
}

#[test]
fn an_order_is_found(rt: HostRuntime) -> Result<(), Fail> {
    let game = Listed(&[(b"0.0", b"0.2"), (b"1", b"0"), (b"0", b"1")], 0, 2, 2, 2);
    assert!(rt; wins(rt.alloc(), NET, &game)?);
    Ok(())
}

/// The listed event that can't come to stand, where one can't.
fn refused(alloc: Global, bench: &mut Bench<Store>, names: &[EventName]) -> Option<EventName> {
    match absorb(alloc, bench, names) {
        Err(AbsorbFault::NeverActive(name, _)) => Some(name),
        _ => None,
    }
}

/// The least listed event that can't come to stand is named, not the first of the list.
struct Least;

impl Game for Least {
    fn is_won(&self, alloc: Global, player: &mut Player) -> Result<bool, Fail> {
        let names = names_of(alloc, &[(b"7", b"8"), (b"0", b"1"), (b"4", b"3")])?;
        let least = name_of(alloc, b"3", b"4")?;
        Ok(refused(alloc, &mut player.bench, &names) == Some(least))
    }
}

#[test]
fn the_least_that_cannot_come_is_named(rt: HostRuntime) -> Result<(), Fail> {
    assert!(rt; wins(rt.alloc(), NET, &Least)?);
    Ok(())
}

/// Four copies of a net.
const COPIES: &[u8] = b"G(E,a) = D(b,E); G(E,c) = D(d,E); G(E,e) = D(f,E); G(E,g) = D(h,E);";

/// Whether so many events are fired.
fn is_reduced(bench: &mut Bench<Store>, most: u32) -> bool {
    let (fired, _) = fire_least(bench, most, &NoGate, 0);
    fired == most
}

/// Whether a bench absorbs what stands on the other, and so many events come.
fn takes_in(
    alloc: Global,
    bench: &mut Bench<Store>,
    other: &Bench<Store>,
    count: u32,
) -> Result<bool, Fail> {
    let names = standing_names(alloc, other)?;
    Ok(absorbs(alloc, bench, &names) == (0, count))
}

/// Whether a bench and another one that has more absorb each other.
fn absorb_each_other(
    alloc: Global,
    less: &mut Bench<Store>,
    more: &mut Bench<Store>,
) -> Result<bool, Fail> {
    if !takes_in(alloc, less, more, 2)? || !takes_in(alloc, more, less, 0)? {
        return Ok(false);
    }
    let journal = answer_of(alloc, less, b"journal")?;
    answers(alloc, more, b"journal", journal.bytes())
}

/// A bench on which three events were fired, and one on which five were, absorb each other.
struct EachOther;

impl Game for EachOther {
    fn is_won(&self, alloc: Global, player: &mut Player) -> Result<bool, Fail> {
        let mut other = Player::over(alloc, COPIES)?;
        if !is_reduced(&mut player.bench, 3) || !is_reduced(&mut other.bench, 5) {
            return Ok(false);
        }
        absorb_each_other(alloc, &mut player.bench, &mut other.bench)
    }
}

#[test]
fn two_benches_absorb_each_other(rt: HostRuntime) -> Result<(), Fail> {
    assert!(rt; wins(rt.alloc(), COPIES, &EachOther)?);
    Ok(())
}

/// A net of so many pairs of epsilons.
fn pairs(alloc: Global, count: usize) -> Result<Vec<u8>, Fail> {
    let mut text = Vec::new(alloc);
    for _ in 0..count {
        text.extend_from_slice(b"E = E;")?;
    }
    Ok(text)
}

/// The name of the event of the pair at a place.
fn name_at(alloc: Global, place: usize) -> Result<EventName, Fail> {
    let lead = format!(in alloc; "{}", place.wrapping_mul(2))?;
    let other = format!(in alloc; "{}", place.wrapping_mul(2).wrapping_add(1))?;
    name_of(alloc, lead.as_bytes(), other.as_bytes())
}

/// The names of their events, each once, far from their order: each place is that many behind the one before, around the
/// end.
fn scattered(alloc: Global, count: usize) -> Result<Vec<EventName>, Fail> {
    let mut names = Vec::new(alloc);
    for turn in 0..count {
        let place = turn.wrapping_mul(12_289).checked_rem(count).unwrap_or(0);
        names.push(name_at(alloc, place)?)?;
    }
    Ok(names)
}

/// All of so many events are absorbed.
#[derive(Drop)]
struct Many(usize);

impl Game for Many {
    fn is_won(&self, alloc: Global, player: &mut Player) -> Result<bool, Fail> {
        let names = scattered(alloc, self.0)?;
        let (number, count) = absorbs(alloc, &mut player.bench, &names);
        Ok(number == 0 && count as usize == self.0)
    }
}

#[test]
fn a_long_list_is_absorbed(rt: HostRuntime) -> Result<(), Fail> {
    let text = pairs(rt.alloc(), 32_000)?;
    assert!(rt; wins(rt.alloc(), &text, &Many(32_000))?);
    Ok(())
}
