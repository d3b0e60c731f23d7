ghost use Rattle.std.specs.Prelude.{◌≡◌};

// What settling says where a receipt or an opening was changed, which only this crate can do.
use crate::{Opening, Pass, SettleFault, Shared, settle, share};
use ic_journal::{Bench, Store};
use ic_name::{EventId, Profile, Reply};
use ic_start::{Start, StartLinks, Texts};
use std::alloc::{AllocError, Global};
use std::marker::Brand;
use std::sync::Wait;
use std::sync::ledger::{Blank, Ledger};
use std::test::Fail;

/// An event that never stood.
const NOTHING: EventId = EventId { slot: 0, line: 0 };

/// Another one.
const NOTHING_ELSE: EventId = EventId { slot: 0, line: 1 };

/// The start without agents.
fn empty_start(alloc: Global, profile: Profile) -> Result<Start, AllocError> {
    let (links, names) = (StartLinks::new(alloc), Texts::new(alloc));
    Start::make(alloc, Vec::new(alloc), links, names, profile)
}

/// A bench with a line in its history for each of these undos, all of which were refused.
fn begun(alloc: Global, undos: &[EventId]) -> Option<Bench<Store>> {
    let start = empty_start(alloc, Profile::Classic).ok()?;
    let mut bench = Bench::over(alloc, start).ok()?;
    for id in undos {
        let _ = bench.undo(*id);
    }
    Some(bench)
}

/// What is changed before the passes are settled.
#[derive(Clone, Copy)]
enum Change {
    OtherReply,
    OtherStart,
    OtherLine,
}

/// Makes a change.
fn change_one<B: Ledger>(
    alloc: Global,
    change: Change,
    opening: &mut Opening<B>,
    pass: &mut Pass<B>,
) -> Option<()> {
    match change {
        Change::OtherReply => pass.receipts.last_mut()?.reply = Reply::Undone,
        Change::OtherStart => opening.start = empty_start(alloc, Profile::Straight).ok()?,
        Change::OtherLine => {
            let lines = begun(alloc, &[NOTHING_ELSE])?.lines_so_far().ok()?;
            if lines.len() != opening.lines.len() {
                return None;
            }
            opening.lines = lines;
        }
    }
    Some(())
}

/// Makes two calls, which are refused and give a receipt each.
fn call_twice<B: Ledger, R: Wait>(rt: &R, shared: &Shared<B>, pass: &mut Pass<B>) {
    for _ in 0..2u32 {
        let _ = shared.undo(rt, pass, NOTHING);
    }
}

/// The number at which opening and passes are found to be false, and how many lines the bench has that came back.
fn mismatch_of<B: Ledger>(
    opening: Opening<B>,
    passes: Vec<Pass<B>>,
    shared: Shared<B>,
) -> Option<(u32, u32)> {
    match settle(opening, passes, shared) {
        Err(SettleFault::Mismatch(at, bench)) => Some((at, bench.lines())),
        _ => None,
    }
}

/// The same after two calls of the last pass, after something was changed.
fn mismatch_after<B: Ledger, R: Wait>(
    rt: &R,
    alloc: Global,
    bench: Bench<Store>,
    blank: Blank,
    change: Change,
) -> Option<(u32, u32)>
    requires name { blank.name ≡ B.name }
    requires parts { (blank.parts ≡ B.parts) × (blank.parts ≡ 3) }
{
    let (shared, mut opening, mut passes) = share::<B>(alloc, bench, blank, 2).ok()?;
    let pass = passes.last_mut()?;
    call_twice(rt, &shared, pass);
    change_one(alloc, change, &mut opening, pass)?;
    mismatch_of(opening, passes, shared)
}

fn mismatch<R: Wait>(rt: &R, alloc: Global, change: Change) -> Option<(u32, u32)> {
    let bench = begun(alloc, &[NOTHING])?;
    mismatch_after::<Brand, R>(rt, alloc, bench, Blank::new(3), change)
}

#[test]
fn a_change_is_found(rt: HostRuntime) -> Result<(), Fail> {
    for (change, at) in [
        (Change::OtherReply, 2),
        (Change::OtherStart, 3),
        (Change::OtherLine, 0),
    ] {
        assert_eq!(rt; mismatch(&rt, rt.alloc(), change), Some((at, 3)));
    }
    Ok(())
}
