ghost use Rattle.std.specs.Prelude.{◌≡◌};
ghost use Rattle.ic_journal.specs.Reduced.{FiresNext, Reduces};

use crate::reducing::{End, Gate};
use crate::{Bench, LinkStore, PairFault};

/// Fires the active pair with the least lead again and again, at most so often. It answers how many were fired, and why no
/// more. The end is `Normal` exactly if no pair is active any more. It stops at the first firing that meets a limit or
/// finds no memory.
///
/// The gate sees each commit as one of worker 0, with tickets from the first one on.
pub fn fire_least<L: LinkStore, G: Gate>(
    bench: &mut Bench<L>,
    most: u32,
    gate: &G,
    first_ticket: u32,
) -> (u32, End)
    ensures { Reduces bench.old most result.0 result.1 bench.new }
{
    for fired in 0..most {
        if let Some(end) = fire_next(bench, gate, u64::from(first_ticket) + u64::from(fired)) {
            return (fired, end);
        }
    }
    match bench.least_active() {
        Some(_) => (most, End::Budget),
        None => (most, End::Normal),
    }
}

/// Fires the active pair with the least lead; answers why it isn't fired, if it isn't.
fn fire_next<L: LinkStore, G: Gate>(bench: &mut Bench<L>, gate: &G, ticket: u64) -> Option<End>
    ensures { FiresNext bench.old result bench.new }
{
    bench.lawful();
    let Some(pair) = bench.least_active() else {
        return Some(End::Normal);
    };
    let mut awoken = [None; 4];
    gate.before_commit(0, ticket);
    let fired = bench.fire_pair_into(pair, &mut awoken);
    gate.after_commit(0, ticket);
    bench.lawful();
    match fired {
        Ok(_) => None,
        Err(PairFault::Deep) => Some(End::Limit),
        Err(PairFault::Full) => Some(End::Limit),
        Err(PairFault::HistoryFull) => Some(End::Limit),
        Err(PairFault::Memory) => Some(End::Memory),
    }
}
