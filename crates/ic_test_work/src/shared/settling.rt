ghost use Rattle.std.specs.Prelude.{◌≡◌};

use crate::benches::{FOUR_COPIES, bench_over, event, fire};
use ic_journal::{Bench, Store};
use ic_shared::{Opening, Pass, Receipt, Shared, settle, share};
use std::alloc::Global;
use std::marker::Brand;
use std::sync::Wait;
use std::sync::ledger::{Blank, Ledger};
use std::test::Fail;
use std::thread::{Threads, join};

/// Fires the event of the agents 0 and 2 and undoes it; whether it then stands no more.
fn fire_and_undo<B: Ledger, R: Wait>(
    rt: &R,
    alloc: Global,
    shared: &Shared<B>,
    pass: &mut Pass<B>,
) -> Option<bool> {
    let id = fire(rt, alloc, shared, pass, 0, 2)?;
    shared.undo(rt, pass, id).ok()?;
    Some(shared.look(rt, |bench| event(bench, alloc, 0, 2)).is_none())
}

/// The same three times.
fn fire_and_undo_thrice<B: Ledger, R: Wait>(
    rt: &R,
    alloc: Global,
    shared: &Shared<B>,
    mut pass: Pass<B>,
) -> Option<Pass<B>> {
    for _ in 0..3u32 {
        if fire_and_undo(rt, alloc, shared, &mut pass) != Some(true) {
            return None;
        }
    }
    Some(pass)
}

/// Fires the events of the other three pairs.
fn fire_others<B: Ledger, R: Wait>(
    rt: &R,
    alloc: Global,
    shared: &Shared<B>,
    mut pass: Pass<B>,
) -> Option<Pass<B>> {
    for (gamma, delta) in [(4, 6), (8, 10), (12, 14)] {
        fire(rt, alloc, shared, &mut pass, gamma, delta)?;
    }
    Some(pass)
}

/// Lets two threads make their calls, each with a pass of its own.
fn call_in_two_threads<B: Ledger + Send + Sync, R: Threads + Wait + Sync>(
    rt: &R,
    alloc: Global,
    shared: &Shared<B>,
    passes: &mut Vec<Pass<B>>,
) -> Option<()> {
    let first = passes.pop()?;
    let second = passes.pop()?;
    let (first, second) = join(
        rt,
        || fire_and_undo_thrice(rt, alloc, shared, first),
        || fire_others(rt, alloc, shared, second),
    );
    passes.push(first?).ok()?;
    passes.push(second?).ok()?;
    Some(())
}

/// Whether each receipt is the line of the history that has its number.
fn are_lines(bench: &Bench<Store>, receipts: &[Receipt]) -> bool {
    receipts.iter().all(|receipt| bench.line_is(receipt.number, &receipt.call, receipt.reply))
}

/// Whether the receipts of all passes are lines of the shared bench.
fn are_confirmed<B: Ledger, R: Wait>(rt: &R, shared: &Shared<B>, passes: &[Pass<B>]) -> bool {
    for pass in passes {
        if !shared.look(rt, |bench| are_lines(bench, pass.receipts())) {
            return false;
        }
    }
    true
}

/// How many lines are settled, and how many events stand then.
fn settled<B: Ledger>(
    opening: Opening<B>,
    passes: Vec<Pass<B>>,
    shared: Shared<B>,
) -> Option<(u32, usize)> {
    let settled = settle(opening, passes, shared).ok()?;
    Some((settled.lines, settled.bench.standing_count()))
}

/// The same after two threads, where each receipt is its line.
fn settled_of_two<B: Ledger + Send + Sync, R: Threads + Wait + Sync>(
    rt: &R,
    alloc: Global,
    bench: Bench<Store>,
    blank: Blank,
) -> Option<(u32, usize)>
    requires name { blank.name ≡ B.name }
    requires parts { (blank.parts ≡ B.parts) × (blank.parts ≡ 3) }
{
    let (shared, opening, mut passes) = share::<B>(alloc, bench, blank, 2).ok()?;
    let called = call_in_two_threads(rt, alloc, &shared, &mut passes);
    let confirmed = are_confirmed(rt, &shared, passes.as_slice());
    let settled = settled(opening, passes, shared)?;
    called?;
    if confirmed { Some(settled) } else { None }
}

fn two_threads<R: Threads + Wait + Sync>(rt: &R, alloc: Global) -> Option<(u32, usize)> {
    let bench = bench_over(alloc, FOUR_COPIES)?;
    settled_of_two::<Brand, R>(rt, alloc, bench, Blank::new(3))
}

#[test]
fn the_passes_of_two_threads_settle(rt: HostRuntime) -> Result<(), Fail> {
    assert_eq!(rt; two_threads(&rt, rt.alloc()), Some((9, 3)));
    Ok(())
}

/// Fires an event with the first pass and one with the last.
fn fire_beside_an_idle_one<B: Ledger, R: Wait>(
    rt: &R,
    alloc: Global,
    shared: &Shared<B>,
    passes: &mut [Pass<B>],
) -> Option<()> {
    fire(rt, alloc, shared, passes.last_mut()?, 4, 6)?;
    fire(rt, alloc, shared, passes.first_mut()?, 0, 2)?;
    Some(())
}

/// How many lines are settled of three passes of which one makes no call, and how many events stand.
fn settled_with_an_idle_one<B: Ledger, R: Wait>(
    rt: &R,
    alloc: Global,
    bench: Bench<Store>,
    blank: Blank,
) -> Option<(u32, usize)>
    requires name { blank.name ≡ B.name }
    requires parts { (blank.parts ≡ B.parts) × (blank.parts ≡ 4) }
{
    let (shared, opening, mut passes) = share::<B>(alloc, bench, blank, 3).ok()?;
    let fired = fire_beside_an_idle_one(rt, alloc, &shared, passes.as_mut_slice());
    let settled = settled(opening, passes, shared)?;
    fired?;
    Some(settled)
}

fn one_idle<R: Wait>(rt: &R, alloc: Global) -> Option<(u32, usize)> {
    let bench = bench_over(alloc, FOUR_COPIES)?;
    settled_with_an_idle_one::<Brand, R>(rt, alloc, bench, Blank::new(4))
}

#[test]
fn a_pass_may_make_no_call(rt: HostRuntime) -> Result<(), Fail> {
    assert_eq!(rt; one_idle(&rt, rt.alloc()), Some((2, 2)));
    Ok(())
}
