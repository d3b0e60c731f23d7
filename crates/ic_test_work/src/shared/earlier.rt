// Benches that are shared with a history behind them.
ghost use Rattle.std.specs.Prelude.{◌≡◌};

use crate::benches::{FOUR_COPIES, bench_over, fire, proposal, shown};
use crate::shared::refused_growth::first_pair;
use ic_journal::{Bench, Store};
use ic_name::{EventId, Reply};
use ic_shared::{Opening, Pass, Shared, settle, share};
use ic_work::{End, NoGate, SweepSize, sweep};
use std::alloc::Global;
use std::marker::Brand;
use std::sync::Wait;
use std::sync::ledger::{Blank, Ledger};
use std::test::Fail;
use std::thread::Threads;

/// Makes calls with each reply but those of limits: an event is fired and is active no more; it is held by another one, which is
/// undone and then stands no more.
fn call_each(alloc: Global, bench: &mut Bench<Store>) -> Option<()> {
    let first = bench.fire(proposal(alloc, 0, 2)?).ok()?;
    let _ = bench.fire(proposal(alloc, 0, 2)?);
    let second = bench.fire(first_pair(bench)?).ok()?;
    let _ = bench.undo(first);
    bench.undo(second).ok()?;
    let _ = bench.undo(second);
    Some(())
}

/// The replies to these calls.
const REPLIES: [Reply; 6] = [
    Reply::Fired,
    Reply::NotActive,
    Reply::Fired,
    Reply::Held(2),
    Reply::Undone,
    Reply::NotStanding,
];

/// Whether these are the replies of a bench's history.
fn replied(bench: &Bench<Store>) -> Option<bool> {
    let lines = bench.history().ok()?;
    for (line, reply) in lines.iter().zip(&REPLIES) {
        if line.reply != *reply {
            return Some(false);
        }
    }
    Some(lines.len() == REPLIES.len())
}

/// Fires an event with the last of these passes.
fn fire_one<B: Ledger, R: Wait>(
    rt: &R,
    alloc: Global,
    shared: &Shared<B>,
    passes: &mut [Pass<B>],
) -> Option<EventId> {
    fire(rt, alloc, shared, passes.last_mut()?, 4, 6)
}

/// How many lines settle, and how many the bench has then.
fn lines_of<B: Ledger>(
    opening: Opening<B>,
    passes: Vec<Pass<B>>,
    shared: Shared<B>,
) -> Option<(u32, u32)> {
    let settled = settle(opening, passes, shared).ok()?;
    Some((settled.lines, settled.bench.lines()))
}

/// Whether a bench on which these calls were made is settled with one line more, once an event was fired on it.
fn settles_with_one_more<B: Ledger, R: Wait>(
    rt: &R,
    alloc: Global,
    bench: Bench<Store>,
    blank: Blank,
) -> Option<bool>
    requires name { blank.name ≡ B.name }
    requires parts { (blank.parts ≡ B.parts) × (blank.parts ≡ 2) }
{
    let (shared, opening, mut passes) = share::<B>(alloc, bench, blank, 1).ok()?;
    let fired = fire_one(rt, alloc, &shared, passes.as_mut_slice());
    let lines = lines_of(opening, passes, shared)?;
    fired?;
    Some(lines == (1, 7))
}

fn all_replies<R: Wait>(rt: &R, alloc: Global) -> Option<bool> {
    let mut bench = bench_over(alloc, FOUR_COPIES)?;
    let called = call_each(alloc, &mut bench);
    let replied = replied(&bench);
    let settled = settles_with_one_more::<Brand, R>(rt, alloc, bench, Blank::new(2))?;
    called?;
    Some(replied? && settled)
}

#[test]
fn a_history_with_every_reply_settles(rt: HostRuntime) -> Result<(), Fail> {
    assert_eq!(rt; all_replies(&rt, rt.alloc()), Some(true));
    Ok(())
}

/// What a bench shows on which sweeps of so many events each follow one another until one ends otherwise than by its budget.
fn swept_by<R: Threads + Wait + Sync>(rt: &R, alloc: Global, budget: u32) -> Option<Vec<u8>> {
    let size = SweepSize::new(2, budget)?;
    let mut bench = bench_over(alloc, FOUR_COPIES)?;
    for _ in 0..100 {
        let swept = sweep(rt, alloc, bench, size, &NoGate).ok()?;
        bench = swept.bench;
        if swept.end != End::Budget {
            return shown(alloc, &bench);
        }
    }
    None
}

#[test]
fn sweeps_in_a_row_leave_what_one_does(rt: HostRuntime) -> Result<(), Fail> {
    let whole = swept_by(&rt, rt.alloc(), 100).ok_or("a sweep")?;
    for budget in [1, 5, 16] {
        let parts = swept_by(&rt, rt.alloc(), budget).ok_or("sweeps")?;
        assert!(rt; parts == whole, "{budget} at a time");
    }
    Ok(())
}
