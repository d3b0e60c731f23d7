use ic_journal::{End, Gate, NoGate, fire_least};
use ic_test_games::player::{Game, Player, wins};
use std::alloc::Global;
use std::sync::atomic::{AtomicU64, Ordering};
use std::test::Fail;

/// A net without an end: each event makes an active pair again.
const ENDLESS: &[u8] = b"G(x,a) = D(x,b);\n";

/// A net of four events.
const ENDING: &[u8] = b"G(E,a) = D(b,E);\n";

/// A reduction: how many events are asked for, how many are fired, and why no more.
type Reduction = (u32, u32, End);

/// Whether a reduction is as it is said, with tickets from 7 on.
fn is_so<G: Gate>(player: &mut Player, reduction: &Reduction, gate: &G) -> bool {
    let (most, fired, end) = *reduction;
    fire_least(&mut player.bench, most, gate, 7) == (fired, end)
}

/// Reductions, one after the other, then so many events that stand, and so many lines.
#[derive(Drop)]
struct Reductions(&'static [Reduction], usize, u32);

impl Game for Reductions {
    fn is_won(&self, _alloc: Global, player: &mut Player) -> Result<bool, Fail> {
        for reduction in self.0 {
            if !is_so(player, reduction, &NoGate) {
                return Ok(false);
            }
        }
        Ok(player.bench.standing_count() == self.1 && player.bench.lines() == self.2)
    }
}

#[test]
fn as_many_are_fired_as_are_asked_for(rt: HostRuntime) -> Result<(), Fail> {
    let reductions = Reductions(&[(1, 1, End::Budget), (2, 2, End::Budget)], 3, 3);
    assert!(rt; wins(rt.alloc(), ENDLESS, &reductions)?);
    Ok(())
}

#[test]
fn names_are_long_at_a_limit(rt: HostRuntime) -> Result<(), Fail> {
    let reductions = Reductions(&[(20_000, 16_383, End::Limit)], 16_383, 16_384);
    assert!(rt; wins(rt.alloc(), ENDLESS, &reductions)?);
    Ok(())
}

/// A reduction to the end, after which no pair is active, and one of none.
struct Normal;

impl Game for Normal {
    fn is_won(&self, _alloc: Global, player: &mut Player) -> Result<bool, Fail> {
        Ok(
            is_so(player, &(100, 4, End::Normal), &NoGate)
                && player.bench.least_active().is_none()
                && is_so(player, &(0, 0, End::Normal), &NoGate),
        )
    }
}

#[test]
fn nothing_is_left_at_a_normal_end(rt: HostRuntime) -> Result<(), Fail> {
    assert!(rt; wins(rt.alloc(), ENDING, &Normal)?);
    Ok(())
}

/// Counts the commits, and adds up their tickets.
#[derive(Drop)]
struct Tally {
    before: AtomicU64,
    after: AtomicU64,
    tickets: AtomicU64,
}

impl Tally {
    fn new() -> Tally {
        Tally {
            before: AtomicU64::new(0),
            after: AtomicU64::new(0),
            tickets: AtomicU64::new(0),
        }
    }

    /// Whether so many commits were begun and answered, and their tickets have this sum.
    fn counts(&self, commits: u64, tickets: u64) -> bool {
        self.before.load(Ordering::SeqCst) == commits
            && self.after.load(Ordering::SeqCst) == commits
            && self.tickets.load(Ordering::SeqCst) == tickets
    }
}

impl Gate for Tally {
    fn before_commit(&self, worker: usize, ticket: u64) {
        if worker == 0 {
            self.before.fetch_add(1, Ordering::SeqCst);
            self.tickets.fetch_add(ticket, Ordering::SeqCst);
        }
    }

    fn after_commit(&self, worker: usize, _ticket: u64) {
        if worker == 0 {
            self.after.fetch_add(1, Ordering::SeqCst);
        }
    }
}

/// Four commits are counted.
struct Counted;

impl Game for Counted {
    fn is_won(&self, _alloc: Global, player: &mut Player) -> Result<bool, Fail> {
        let tally = Tally::new();
        Ok(is_so(player, &(100, 4, End::Normal), &tally) && tally.counts(4, 7 + 8 + 9 + 10))
    }
}

#[test]
fn a_gate_sees_each_commit(rt: HostRuntime) -> Result<(), Fail> {
    assert!(rt; wins(rt.alloc(), ENDING, &Counted)?);
    Ok(())
}
