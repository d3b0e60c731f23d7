// A proposal on a shared bench whose pair is fired meanwhile.
ghost use Rattle.std.specs.Prelude.{◌≡◌};

use crate::benches::{FOUR_COPIES, bench_over};
use crate::shared::refused_growth::first_pair;
use ic_journal::{Bench, Store};
use ic_name::Reply;
use ic_shared::{Opening, Pass, Shared, settle, share};
use std::alloc::Global;
use std::marker::Brand;
use std::sync::Wait;
use std::sync::ledger::{Blank, Ledger};
use std::test::Fail;

/// The number of the refusal of a second firing of the first active pair, which was proposed before the first one.
fn second_refusal<B: Ledger, R: Wait>(
    rt: &R,
    shared: &Shared<B>,
    pass: &mut Pass<B>,
) -> Option<u8> {
    let first = shared.look(rt, first_pair)?;
    let stale = shared.look(rt, first_pair)?;
    shared.fire(rt, pass, first).ok()?;
    match shared.fire(rt, pass, stale) {
        Ok(_) => None,
        Err(fault) => Some(fault.number()),
    }
}

/// The number and the reply of a pass's last receipt.
fn last_receipt<B: Ledger>(pass: &Pass<B>) -> Option<(u32, Reply)> {
    let receipt = pass.receipts().last()?;
    Some((receipt.number, receipt.reply))
}

/// That refusal by the last of these passes, and what its last receipt says of it.
fn told<B: Ledger, R: Wait>(
    rt: &R,
    shared: &Shared<B>,
    passes: &mut [Pass<B>],
) -> Option<(u8, (u32, Reply))> {
    let number = second_refusal(rt, shared, passes.last_mut()?)?;
    Some((number, last_receipt(passes.last()?)?))
}

/// How many lines settle.
pub(crate) fn settled_lines<B: Ledger>(
    opening: Opening<B>,
    passes: Vec<Pass<B>>,
    shared: Shared<B>,
) -> Option<u32> {
    let settled = settle(opening, passes, shared).ok()?;
    Some(settled.lines)
}

/// That refusal, what the last receipt says of it, and how many lines settle.
fn refused<B: Ledger, R: Wait>(
    rt: &R,
    alloc: Global,
    bench: Bench<Store>,
    blank: Blank,
) -> Option<(u8, (u32, Reply), u32)>
    requires name { blank.name ≡ B.name }
    requires parts { (blank.parts ≡ B.parts) × (blank.parts ≡ 2) }
{
    let (shared, opening, mut passes) = share::<B>(alloc, bench, blank, 1).ok()?;
    let told = told(rt, &shared, passes.as_mut_slice());
    let lines = settled_lines(opening, passes, shared)?;
    let (number, receipt) = told?;
    Some((number, receipt, lines))
}

fn stale<R: Wait>(rt: &R, alloc: Global) -> Option<(u8, (u32, Reply), u32)> {
    let bench = bench_over(alloc, FOUR_COPIES)?;
    refused::<Brand, R>(rt, alloc, bench, Blank::new(2))
}

#[test]
fn a_stale_proposal_is_not_active(rt: HostRuntime) -> Result<(), Fail> {
    assert_eq!(rt;
        stale(&rt, rt.alloc()),
        Some((21, (1, Reply::NotActive), 2))
    );
    Ok(())
}
