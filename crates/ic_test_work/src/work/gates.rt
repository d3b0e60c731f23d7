use crate::benches::{FOUR_COPIES, bench_over};
use ic_work::{End, Gate, SweepSize, sweep};
use std::alloc::Global;
use std::sync::Wait;
use std::sync::atomic::{AtomicBool, AtomicU64, Ordering};
use std::test::Fail;
use std::thread::Threads;

/// How often a worker that is held back looks, at most.
const TURNS: u32 = 1_000_000_000;

/// Holds the first commit of each of the first workers, so many of them, until so many of the others' were answered, and each
/// of the others' until all of those have asked for their first.
#[derive(Drop)]
struct HoldsFirst {
    held: usize,
    others: u64,
    budget: u32,
    /// How often a worker looks, at most.
    turns: u32,
    asked: AtomicU64,
    answered: AtomicU64,
    /// How many workers asked before all these answers were there, and were held until they were.
    seen: AtomicU64,
    /// Whether one of the others went on before all of those had asked.
    unheld: AtomicBool,
    /// Whether a ticket was past the budget.
    late: AtomicBool,
}

impl HoldsFirst {
    /// Waits until the number is so great; whether it was in the end.
    fn await_number(&self, number: &AtomicU64, least: u64) -> bool {
        for _ in 0..self.turns {
            if number.load(Ordering::SeqCst) >= least {
                return true;
            }
        }
        false
    }

    /// Holds one of the first workers, if it asks for the first time and the answers aren't there yet.
    fn hold_back(&self) {
        let early = self.answered.load(Ordering::SeqCst) < self.others;
        let first = self.asked.fetch_add(1, Ordering::SeqCst) < self.held as u64;
        if first && early && self.await_number(&self.answered, self.others) {
            self.seen.fetch_add(1, Ordering::SeqCst);
        }
    }

    /// Lets one of the others wait for the first ones. Once one went on too early, none waits any more.
    fn let_wait(&self) {
        if !self.unheld.load(Ordering::SeqCst)
            && !self.await_number(&self.asked, self.held as u64)
        {
            self.unheld.store(true, Ordering::SeqCst);
        }
    }

    /// Whether each of the first workers was held while the others fired, and no ticket was past the budget.
    fn was_kept(&self) -> bool {
        self.seen.load(Ordering::SeqCst) == self.held as u64
            && !self.unheld.load(Ordering::SeqCst)
            && !self.late.load(Ordering::SeqCst)
    }
}

impl Gate for HoldsFirst {
    fn before_commit(&self, worker: usize, ticket: u64) {
        if ticket >= u64::from(self.budget) {
            self.late.store(true, Ordering::SeqCst);
        }
        if worker >= self.held {
            self.let_wait();
        } else {
            self.hold_back();
        }
    }

    fn after_commit(&self, worker: usize, _ticket: u64) {
        if worker >= self.held {
            self.answered.fetch_add(1, Ordering::SeqCst);
        }
    }
}

/// How many workers are held until one more has fired so many events, of how many that there are, and the budget.
#[derive(Clone, Copy)]
struct Hold {
    held: u32,
    others: u64,
    events: u32,
    budget: u32,
}

/// A gate that holds workers so, each of whom looks so often.
fn holding(hold: Hold, turns: u32) -> HoldsFirst {
    HoldsFirst {
        held: hold.held as usize,
        others: hold.others,
        budget: hold.budget,
        turns,
        asked: AtomicU64::new(0),
        answered: AtomicU64::new(0),
        seen: AtomicU64::new(0),
        unheld: AtomicBool::new(false),
        late: AtomicBool::new(false),
    }
}

/// Whether so many workers fire so many events, and all there are, with a gate that holds workers so.
fn fires_all<R: Threads + Wait + Sync>(
    rt: &R,
    alloc: Global,
    text: &[u8],
    hold: Hold,
    gate: &HoldsFirst,
) -> Result<bool, Fail> {
    let workers = hold.held.saturating_add(1);
    let size = SweepSize::new(workers, hold.budget).ok_or("a size within its limits")?;
    let bench = bench_over(alloc, text).ok_or("a bench")?;
    let swept = sweep(rt, alloc, bench, size, gate)
        .ok()
        .ok_or("a sweep that settles")?;
    let whole = swept.fired == hold.events && swept.end == End::Normal;
    Ok(whole && swept.ran == workers)
}

/// Whether all events over the net of this text are fired where workers are held so.
fn goes_on<R: Threads + Wait + Sync>(
    rt: &R,
    alloc: Global,
    text: &[u8],
    hold: Hold,
) -> Result<bool, Fail> {
    let gate = holding(hold, TURNS);
    let whole = fires_all(rt, alloc, text, hold, &gate)?;
    Ok(whole && gate.was_kept())
}

/// Puts the name with this number in.
fn push_name(text: &mut Vec<u8>, number: usize) -> Result<(), Fail> {
    text.extend_from_slice(&[
        b'a' + (number / 676 % 26) as u8,
        b'a' + (number / 26 % 26) as u8,
        b'a' + (number % 26) as u8,
    ])?;
    Ok(())
}

/// Puts so many agents in, none of whose principal ports meets another's, between the wires with this number and the next one.
fn push_idle(text: &mut Vec<u8>, number: usize, agents: usize) -> Result<(), Fail> {
    for _ in 0..agents / 2 {
        text.extend_from_slice(b"G(E,")?;
    }
    push_name(text, number.saturating_add(1))?;
    for _ in 0..agents / 2 {
        text.push(b')')?;
    }
    text.extend_from_slice(b" = ")?;
    push_name(text, number)?;
    text.extend_from_slice(b";\n")?;
    Ok(())
}

/// Four pairs that meet, of which the first and the third have leads that lie so far apart that one word stands for both.
fn colliding(alloc: Global) -> Result<Vec<u8>, Fail> {
    let mut text = Vec::from_slice(alloc, b"E = E; E = E;\n")?;
    for number in 0..10 {
        push_idle(&mut text, number, 102)?;
    }
    text.extend_from_slice(b"E = E; E = E;\n")?;
    Ok(text)
}

/// Pairs that meet, whose leads lie so evenly that one word stands for each sixty-fourth one.
fn even(alloc: Global) -> Result<Vec<u8>, Fail> {
    let mut text = Vec::new(alloc);
    for pair in 0..4_095 {
        text.extend_from_slice(b"E = E;\n")?;
        push_idle(&mut text, pair, 14)?;
    }
    Ok(text)
}

#[test]
fn a_worker_fires_on_while_others_are_held(rt: HostRuntime) -> Result<(), Fail> {
    let far = colliding(rt.alloc())?;
    let evenly = even(rt.alloc())?;
    for (text, held, others, events, budget) in [
        (FOUR_COPIES, 1, 12, 16, 1_000),
        (&far, 1, 2, 4, 1_000),
        (&evenly, 3, 3_400, 4_095, 10_000),
    ] {
        let hold = Hold {
            held,
            others,
            events,
            budget,
        };
        assert!(rt; goes_on(&rt, rt.alloc(), text, hold)?, "{events} events");
    }
    Ok(())
}

/// Whether the gate takes commits of two workers, which are made on one thread in this order, for those of two threads.
fn takes_for_two_threads(workers: &[usize]) -> bool {
    let hold = Hold {
        held: 1,
        others: 3,
        events: 4,
        budget: 4,
    };
    let gate = holding(hold, 1_000);
    for (ticket, worker) in workers.iter().enumerate() {
        gate.before_commit(*worker, ticket as u64);
        gate.after_commit(*worker, ticket as u64);
    }
    gate.was_kept()
}

#[test]
fn one_thread_in_turn_is_told_from_two(rt: HostRuntime) {
    for workers in [[0, 1, 1, 1], [1, 0, 1, 1], [1, 1, 0, 1], [1, 1, 1, 0]] {
        assert!(rt; !takes_for_two_threads(&workers));
    }
}
