// A shared bench, and sweeps, where one allocation is refused, whichever it is: bench/refused_growth.py refuses each in turn.
ghost use Rattle.std.specs.Prelude.{◌≡◌};

use crate::benches::{FOUR_COPIES, bench_over};
use crate::shared::stale::settled_lines;
use ic_journal::{Bench, FireFault, Proposal, Store};
use ic_shared::{Pass, Shared, share};
use ic_work::{NoGate, SweepFault, SweepSize, sweep};
use std::alloc::Global;
use std::marker::Brand;
use std::sync::Wait;
use std::sync::ledger::{Blank, Ledger};
use std::test::Fail;
use std::thread::Threads;

/// A proposal that the first active pair meets.
pub(crate) fn first_pair(bench: &Bench<Store>) -> Option<Proposal> {
    let pairs = bench.active().ok()?;
    let pair = pairs.first()?;
    bench.propose(pair.lead, pair.other).ok()
}

/// The same, at the first try or the second.
fn first_pair_at_last<B: Ledger, R: Wait>(rt: &R, shared: &Shared<B>) -> Option<Proposal> {
    match shared.look(rt, first_pair) {
        Some(proposal) => Some(proposal),
        None => shared.look(rt, first_pair),
    }
}

/// How many events stand.
fn standing<B: Ledger, R: Wait>(rt: &R, shared: &Shared<B>) -> usize {
    shared.look(rt, |bench| bench.standing_count())
}

/// Whether the first active pair is fired, at the first try or the second, and nothing stands more where it is refused.
fn fires<B: Ledger, R: Wait>(rt: &R, shared: &Shared<B>, pass: &mut Pass<B>) -> Option<bool> {
    let proposal = first_pair_at_last(rt, shared)?;
    let before = standing(rt, shared);
    match shared.fire(rt, pass, proposal) {
        Err(FireFault::Memory(proposal)) => {
            let stayed = standing(rt, shared) == before;
            Some(stayed && shared.fire(rt, pass, proposal).is_ok())
        }
        fired => Some(fired.is_ok()),
    }
}

/// Whether this is so of each of the sixteen firings, with the last of these passes.
fn fires_all<B: Ledger, R: Wait>(
    rt: &R,
    shared: &Shared<B>,
    passes: &mut [Pass<B>],
) -> Option<bool> {
    let pass = passes.last_mut()?;
    let mut right = true;
    for _ in 0..16u32 {
        right = right && fires(rt, shared, pass)?;
    }
    Some(right)
}

/// Whether this is so on a bench that is shared by one pass, and as many lines are settled. Where there is no memory to
/// share it, there is nothing to see.
fn settles<B: Ledger, R: Wait>(
    rt: &R,
    alloc: Global,
    bench: Bench<Store>,
    blank: Blank,
) -> Option<bool>
    requires name { blank.name ≡ B.name }
    requires parts { (blank.parts ≡ B.parts) × (blank.parts ≡ 2) }
{
    let Ok((shared, opening, mut passes)) = share::<B>(alloc, bench, blank, 1) else {
        return Some(true);
    };
    let right = fires_all(rt, &shared, passes.as_mut_slice());
    let lines = settled_lines(opening, passes, shared)?;
    Some(right? && lines == 16)
}

/// A bench over the four copies, at the first try or the second.
fn bench_at_last(alloc: Global) -> Option<Bench<Store>> {
    match bench_over(alloc, FOUR_COPIES) {
        Some(bench) => Some(bench),
        None => bench_over(alloc, FOUR_COPIES),
    }
}

fn one_pass<R: Wait>(rt: &R, alloc: Global) -> Option<bool> {
    let bench = bench_at_last(alloc)?;
    settles::<Brand, R>(rt, alloc, bench, Blank::new(2))
}

/// The bench after a sweep by one worker or by two; `None` if its receipts don't settle.
fn swept<R: Threads + Wait + Sync>(
    rt: &R,
    alloc: Global,
    bench: Bench<Store>,
    two: bool,
) -> Option<Bench<Store>> {
    let size = SweepSize::new(if two { 2 } else { 1 }, 100)?;
    match sweep(rt, alloc, bench, size, &NoGate) {
        Ok(swept) => Some(swept.bench),
        Err(SweepFault::Memory(bench)) => Some(bench),
        Err(SweepFault::Settle(..)) => None,
    }
}

/// How many events stand once the four copies are swept, and swept again.
fn stands_after_two_sweeps<R: Threads + Wait + Sync>(
    rt: &R,
    alloc: Global,
    two: bool,
) -> Option<usize> {
    let once = swept(rt, alloc, bench_at_last(alloc)?, two)?;
    let twice = swept(rt, alloc, once, two)?;
    Some(twice.standing_count())
}

#[test]
fn firings_of_a_shared_bench(rt: HostRuntime) -> Result<(), Fail> {
    assert_eq!(rt; one_pass(&rt, rt.alloc()), Some(true));
    Ok(())
}

#[test]
fn a_sweep_by_one_worker(rt: HostRuntime) -> Result<(), Fail> {
    assert_eq!(rt; stands_after_two_sweeps(&rt, rt.alloc(), false), Some(16));
    Ok(())
}

#[test]
fn a_sweep_by_two_workers(rt: HostRuntime) -> Result<(), Fail> {
    assert_eq!(rt; stands_after_two_sweeps(&rt, rt.alloc(), true), Some(16));
    Ok(())
}
