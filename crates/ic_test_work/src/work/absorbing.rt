// Benches that absorb what a sweep left on another one.
use crate::benches::{FOUR_COPIES, bench_over, shown};
use ic_journal::{Bench, Store};
use ic_name::EventName;
use ic_undo::absorb;
use ic_work::{End, NoGate, SweepSize, sweep};
use std::alloc::Global;
use std::sync::Wait;
use std::test::Fail;
use std::thread::Threads;

/// A bench over the four copies on which two workers fired so many events, and might fire no more.
fn bench_swept<R: Threads + Wait + Sync>(
    rt: &R,
    alloc: Global,
    budget: u32,
) -> Option<Bench<Store>> {
    let size = SweepSize::new(2, budget)?;
    let bench = bench_over(alloc, FOUR_COPIES)?;
    let swept = sweep(rt, alloc, bench, size, &NoGate).ok()?;
    if swept.fired != budget || swept.end != End::Budget {
        return None;
    }
    Some(swept.bench)
}

/// The names of the events that stand on a bench.
fn names_on(alloc: Global, bench: &Bench<Store>) -> Option<Vec<EventName>> {
    let ids = bench.standing().ok()?;
    let mut names = Vec::new(alloc);
    for id in &ids {
        let event = bench.event_of(*id).ok()??;
        let lead = event.lead().copy().ok()?;
        let other = event.other().copy().ok()?;
        names.push(EventName::of(lead, other)?).ok()?;
    }
    Some(names)
}

/// Whether two benches show the same net and journal once each has absorbed what stood on the other.
fn show_the_same_then(
    alloc: Global,
    bench: &mut Bench<Store>,
    other: &mut Bench<Store>,
) -> Option<bool> {
    let names = names_on(alloc, bench)?;
    let other_names = names_on(alloc, other)?;
    absorb(alloc, bench, &other_names).ok()?;
    absorb(alloc, other, &names).ok()?;
    let text = shown(alloc, bench)?;
    let other_text = shown(alloc, other)?;
    Some(text.as_slice() == other_text.as_slice())
}

/// Whether a bench with three events and one with five do so, and how many events stand on each of them then.
fn absorbed<R: Threads + Wait + Sync>(rt: &R, alloc: Global) -> Option<(bool, usize, usize)> {
    let mut less = bench_swept(rt, alloc, 3)?;
    let mut more = bench_swept(rt, alloc, 5)?;
    let same = show_the_same_then(alloc, &mut less, &mut more)?;
    Some((same, less.standing_count(), more.standing_count()))
}

#[test]
fn two_swept_benches_absorb_each_other(rt: HostRuntime) -> Result<(), Fail> {
    for _ in 0..10 {
        let Some((same, count, other_count)) = absorbed(&rt, rt.alloc()) else {
            return Err("two sweeps to their budgets".into());
        };
        assert!(rt; same && count == other_count && 5 <= count && count <= 8);
    }
    Ok(())
}
