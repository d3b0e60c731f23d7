ghost use Rattle.std.specs.Prelude.{◌≡◌};

use crate::benches::{FOUR_COPIES, FOUR_COPIES_SWEPT, bench_over, net_of, shown};
use crate::turns::{fire_some, next_number, undo_some};
use ic_journal::{Bench, Proposal, Store};
use ic_name::{Call, Event, EventId, Line};
use ic_shared::{Pass, Shared, settle, share};
use ic_undo::undo_all;
use ic_work::{End, NoGate, SweepSize, sweep};
use std::alloc::Global;
use std::marker::Brand;
use std::sync::Wait;
use std::sync::ledger::{Blank, Ledger};
use std::thread::{Threads, for_each_mut};

/// The turns that each pass makes.
const TURNS: u32 = 1000;

/// The passes that fire; the others undo.
const FIRING: usize = 2;

/// Makes the turns of the pass at this place, by random numbers.
fn make_turns<B: Ledger, R: Wait>(rt: &R, shared: &Shared<B>, pass: &mut Pass<B>, place: usize) {
    let mut number = next_number(place as u64);
    for _ in 0..TURNS {
        number = next_number(number);
        if place < FIRING {
            fire_some(rt, shared, pass, number >> 33);
        } else {
            undo_some(rt, shared, pass, number >> 33);
        }
    }
}

/// A proposal of the event once more.
fn proposal_of(event: &Event) -> Option<Proposal> {
    let lead = event.lead().copy().ok()?;
    let other = event.other().copy().ok()?;
    Proposal::make(lead, event.lead_kind(), other, event.other_kind())
}

/// Makes the call of a line.
fn repeat(bench: &mut Bench<Store>, line: &Line) -> Option<()> {
    match &line.call {
        Call::Fire(event) => {
            let _ = bench.fire(proposal_of(event)?);
        }
        Call::Undo(line) => {
            let id = EventId {
                slot: 0,
                line: *line,
            };
            let _ = bench.undo(id);
        }
    }
    Some(())
}

/// Makes the calls of a history again.
fn repeat_all(bench: &mut Bench<Store>, lines: &[Line]) -> Option<()> {
    for line in lines {
        repeat(bench, line)?;
    }
    Some(())
}

/// Whether two benches show the same net.
fn show_the_same(alloc: Global, bench: &Bench<Store>, other: &Bench<Store>) -> Option<bool> {
    let text = net_of(alloc, bench)?;
    let other_text = net_of(alloc, other)?;
    Some(text.as_slice() == other_text.as_slice())
}

/// Whether another bench shows the same net once the calls of the history are made again on it.
fn shows_the_same(alloc: Global, bench: &Bench<Store>, other: &mut Bench<Store>) -> Option<bool> {
    let lines = bench.history().ok()?;
    repeat_all(other, &lines)?;
    show_the_same(alloc, bench, other)
}

/// Whether a new bench does.
fn shows_the_same_again(alloc: Global, bench: &Bench<Store>) -> Option<bool> {
    let mut again = bench_over(alloc, FOUR_COPIES)?;
    shows_the_same(alloc, bench, &mut again)
}

/// How many receipts all these passes have.
fn count_receipts<B: Ledger>(passes: &[Pass<B>]) -> usize {
    let mut count = 0usize;
    for pass in passes {
        count = count.saturating_add(pass.receipts().len());
    }
    count
}

/// The bench on which four threads made their turns, settled, and whether as many lines settled as there were receipts.
fn settled_of_four<B: Ledger + Send + Sync, R: Threads + Wait + Sync>(
    rt: &R,
    alloc: Global,
    bench: Bench<Store>,
    blank: Blank,
) -> Option<(Bench<Store>, bool)>
    requires name { blank.name ≡ B.name }
    requires parts { (blank.parts ≡ B.parts) × (blank.parts ≡ 5) }
{
    let (shared, opening, mut passes) = share::<B>(alloc, bench, blank, 4).ok()?;
    for_each_mut(
        rt,
        passes.as_mut_slice(),
        4,
        &|place, pass| { make_turns(rt, &shared, pass, place) },
    );
    let receipts = count_receipts(passes.as_slice());
    let settled = settle(opening, passes, shared).ok()?;
    let counted = settled.lines as usize == receipts;
    Some((settled.bench, counted))
}

fn four_threads<R: Threads + Wait + Sync>(rt: &R, alloc: Global) -> Option<(Bench<Store>, bool)> {
    let bench = bench_over(alloc, FOUR_COPIES)?;
    settled_of_four::<Brand, R>(rt, alloc, bench, Blank::new(5))
}

/// Whether the bench shows the net of the start.
fn shows_the_start(alloc: Global, bench: &Bench<Store>) -> Option<bool> {
    let fresh = bench_over(alloc, FOUR_COPIES)?;
    show_the_same(alloc, bench, &fresh)
}

/// Whether sixteen events are undone, and the bench shows the start then.
fn clears(alloc: Global, bench: &mut Bench<Store>) -> Option<bool> {
    let undone = undo_all(alloc, bench).ok()?.len();
    Some(undone == 16 && shows_the_start(alloc, bench)?)
}

/// Whether a sweep by four workers ends with the net and the journal of one worker, and undoing all shows the start again.
fn sweeps_and_clears<R: Threads + Wait + Sync>(
    rt: &R,
    alloc: Global,
    bench: Bench<Store>,
) -> Option<bool> {
    let mut swept = sweep(rt, alloc, bench, SweepSize::new(4, 1_048_576)?, &NoGate).ok()?;
    let text = shown(alloc, &swept.bench)?;
    let whole = swept.end == End::Normal && text.as_slice() == FOUR_COPIES_SWEPT;
    Some(whole && clears(alloc, &mut swept.bench)?)
}

/// Whether each line of the bench of four threads has a receipt, whether it shows the same net again, and whether it is swept
/// and cleared.
fn after_four_threads<R: Threads + Wait + Sync>(
    rt: &R,
    alloc: Global,
) -> Option<(bool, bool, bool)> {
    let (bench, counted) = four_threads(rt, alloc)?;
    let same = shows_the_same_again(alloc, &bench);
    let cleared = sweeps_and_clears(rt, alloc, bench);
    Some((counted, same?, cleared?))
}

#[test]
fn four_threads_settle_under_stress(rt: HostRuntime) {
    assert_eq!(rt;
        after_four_threads(&rt, rt.alloc()),
        Some((true, true, true))
    );
}
