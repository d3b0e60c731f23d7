ghost use Rattle.std.specs.Prelude.{◌≡◌};

use crate::benches::{FOUR_COPIES, bench_over, fire};
use ic_journal::{Bench, Store};
use ic_shared::{Opening, Pass, SettleFault, Shared, settle, share};
use std::alloc::Global;
use std::marker::Brand;
use std::sync::Wait;
use std::sync::ledger::{Blank, Ledger};
use std::test::Fail;

/// The number of the fault with which passes settle, and how many lines the bench has that came back.
fn fault_of<B: Ledger>(
    opening: Opening<B>,
    passes: Vec<Pass<B>>,
    shared: Shared<B>,
) -> Option<(u8, u32)> {
    let fault = settle(opening, passes, shared).err()?;
    let number = fault.number();
    match fault {
        SettleFault::Mismatch(_, bench) => Some((number, bench.lines())),
        SettleFault::Missing(bench) => Some((number, bench.lines())),
    }
}

/// Fires an event with the last pass and one with the first.
fn fire_with_each<B: Ledger, R: Wait>(
    rt: &R,
    alloc: Global,
    shared: &Shared<B>,
    passes: &mut [Pass<B>],
) -> Option<()> {
    fire(rt, alloc, shared, passes.last_mut()?, 4, 6)?;
    fire(rt, alloc, shared, passes.first_mut()?, 8, 10)?;
    Some(())
}

/// The fault after a firing of either pass, of which one is kept back.
fn fault_without_a_pass<B: Ledger, R: Wait>(
    rt: &R,
    alloc: Global,
    bench: Bench<Store>,
    blank: Blank,
) -> Option<(u8, u32)>
    requires name { blank.name ≡ B.name }
    requires parts { (blank.parts ≡ B.parts) × (blank.parts ≡ 3) }
{
    let (shared, opening, mut passes) = share::<B>(alloc, bench, blank, 2).ok()?;
    let fired = fire_with_each(rt, alloc, &shared, passes.as_mut_slice());
    let kept = passes.pop();
    let fault = fault_of(opening, passes, shared)?;
    fired?;
    kept?;
    Some(fault)
}

fn one_kept_back<R: Wait>(rt: &R, alloc: Global) -> Option<(u8, u32)> {
    let bench = bench_over(alloc, FOUR_COPIES)?;
    fault_without_a_pass::<Brand, R>(rt, alloc, bench, Blank::new(3))
}

#[test]
fn a_pass_kept_back_is_missing(rt: HostRuntime) -> Result<(), Fail> {
    assert_eq!(rt; one_kept_back(&rt, rt.alloc()), Some((62, 2)));
    Ok(())
}
