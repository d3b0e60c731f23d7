// Which tickets a gate is asked of and told of.
use crate::benches::{ENDLESS, FOUR_COPIES, bench_over};
use ic_work::{Gate, SweepSize, sweep};
use std::alloc::{AllocError, Global};
use std::sync::Wait;
use std::sync::atomic::{AtomicU64, Ordering};
use std::test::Fail;
use std::thread::Threads;

/// How often the gate was asked of each ticket, and told of it.
#[derive(Drop)]
struct Notes {
    asked: Vec<AtomicU64>,
    told: Vec<AtomicU64>,
}

/// So many zeros.
fn zeros(alloc: Global, count: usize) -> Result<Vec<AtomicU64>, AllocError> {
    let mut all = Vec::new(alloc);
    for _ in 0..count {
        all.push(AtomicU64::new(0))?;
    }
    Ok(all)
}

/// Counts one more at this place, if there is such a one.
fn count_at(all: &[AtomicU64], place: u64) {
    if let Some(number) = all.get(place as usize) {
        number.fetch_add(1, Ordering::SeqCst);
    }
}

impl Gate for Notes {
    fn before_commit(&self, _worker: usize, ticket: u64) {
        count_at(&self.asked, ticket);
    }

    fn after_commit(&self, _worker: usize, ticket: u64) {
        count_at(&self.told, ticket);
    }
}

impl Notes {
    /// How often it was told, if each ticket was asked of and told of once at most, and told of once it was asked of.
    fn told_once(&self) -> Option<u64> {
        let mut times = 0u64;
        for (asked, told) in self.asked.iter().zip(self.told.iter()) {
            let told = told.load(Ordering::SeqCst);
            let asked = asked.load(Ordering::SeqCst);
            if asked > 1 || told > asked {
                return None;
            }
            times = times.saturating_add(told);
        }
        Some(times)
    }
}

/// Notes of so many tickets.
fn empty_notes(alloc: Global, count: usize) -> Option<Notes> {
    Some(Notes {
        asked: zeros(alloc, count).ok()?,
        told: zeros(alloc, count).ok()?,
    })
}

/// How many events workers fire with a gate.
fn fired<R: Threads + Wait + Sync>(
    rt: &R,
    alloc: Global,
    text: &[u8],
    limits: (u32, u32),
    gate: &Notes,
) -> Option<u32> {
    let (workers, budget) = limits;
    let size = SweepSize::new(workers, budget)?;
    let bench = bench_over(alloc, text)?;
    let swept = sweep(rt, alloc, bench, size, gate).ok()?;
    Some(swept.fired)
}

/// How many events workers fire, and how often the gate is told of a ticket, of which none comes twice.
fn commits<R: Threads + Wait + Sync>(
    rt: &R,
    alloc: Global,
    text: &[u8],
    workers: u32,
    budget: u32,
) -> Option<(u32, u64)> {
    let gate = empty_notes(alloc, budget as usize * 2)?;
    let fired = fired(rt, alloc, text, (workers, budget), &gate)?;
    Some((fired, gate.told_once()?))
}

#[test]
fn no_ticket_comes_twice(rt: HostRuntime) -> Result<(), Fail> {
    for (text, workers, budget, fired) in [
        (ENDLESS, 4, 1, 1),
        (ENDLESS, 64, 500, 500),
        (FOUR_COPIES, 4, 7, 7),
        (FOUR_COPIES, 8, 100, 16),
    ] {
        let told = commits(&rt, rt.alloc(), text, workers, budget);
        assert!(rt; told == Some((fired, u64::from(fired))), "budget {budget}");
    }
    Ok(())
}
