ghost use Rattle.std.specs.Prelude.{◌≡◌, ◌+◌, ◌<◌, ◌≤◌, ℕ, IfErr, IfOk, max};
ghost use Rattle.ic_journal.specs.Reduced.{Reduces};
ghost use Rattle.ic_work.specs.Sweeps.{IsGivenBack, Sweeps};

use crate::crew::{Crew, Returned, run_crew};
use crate::floor::Floor;
use crate::limits::MOST;
use crate::preparing::{Prepared, prepare};
use crate::sweep_size::SweepSize;
use crate::swept::{SweepFault, Swept};
use crate::worker::Worker;
use ic_claim::MAX_BUDGET;
use ic_journal::{Bench, Gate, Store, fire_least};
use ic_name::AgentId;
use ic_shared::{settle, share};
use std::alloc::Global;
use std::collections::VecDeque;
use std::marker::Brand;
use std::sync::Wait;
use std::sync::ledger::{Blank, Ledger};
use std::thread::Threads;

/// Fires active pairs on a bench by so many workers as the size says. The first one is the caller. They fire at most as many
/// events as it says. What the workers leave of that budget is fired in the order of one worker.
///
/// As many workers are started as were asked for, but no more than the budget says, and the caller even if it says 0. A worker
/// whose thread can't be started is left out, and `ran` counts the others.
///
/// The start stays, and so does all that stood; just the events that are counted are new (Lafont 1997). The end is
/// `Normal` exactly if no pair is active any more, and then each sound set over the start is a part of what stands,
/// so that any two sweeps from one start that end so leave the same. Otherwise a pair is active still, and the end is
/// `Budget` if as many were fired as the budget says, `Limit` if the firing of the active pair with the least
/// lead meets a limit, and `Memory` if fewer were fired and memory ran out.
///
/// `SweepFault::Memory` comes only before anything is fired, and `SweepFault::Settle` if the workers' passes
/// aren't what the history says. Each hands the bench back: the first as it was, the second with at least as many lines.
/// The gate sees each commit; no lock is held then. It may be asked of tickets that aren't used in the end.
pub fn sweep<G: Gate, R: Threads + Wait + Sync>(
    rt: &R,
    alloc: Global,
    bench: Bench<Store>,
    size: SweepSize,
    gate: &G,
) -> Result<Swept, SweepFault>
    ensures swept { IfOk result (λ s. Sweeps bench size.budget s.fired s.end s.bench) }
    ensures ran { IfOk result (λ s. (0 < s.ran) × (s.ran ≤ size.workers) × (s.ran ≤ max size.budget 1)) }
    ensures fault { IfErr result (λ f. IsGivenBack bench f) }
{
    let Ok(leads) = bench.leads() else {
        return Err(SweepFault::Memory(bench));
    };
    let workers = size.workers.min(size.budget.max(1));
    let budget = size.budget;
    let plan = Plan {
        alloc,
        leads: &leads,
        size: SweepSize { workers, budget },
        gate,
    };
    sweep_as::<Brand, G, R>(rt, bench, Blank::new(u64::from(workers) + 1), &plan)
}

/// How many events each worker of a sweep fires under one lock, at most: so few that none holds much of the budget.
fn most_in_a_run(size: SweepSize) -> usize {
    (size.budget / (2 * size.workers)).clamp(1, MOST as u32) as usize
}

/// What a sweep goes by: memory, the agents that are its first hints, its size and its gate.
#[derive(Drop)]
struct Plan<'a, G: Gate> {
    alloc: Global,
    leads: &'a [AgentId],
    size: SweepSize,
    gate: &'a G,
}

/// The sweep over a ledger of its own.
fn sweep_as<B: Ledger + Send + Sync, G: Gate, R: Threads + Wait + Sync>(
    rt: &R,
    bench: Bench<Store>,
    blank: Blank,
    plan: &Plan<'_, G>,
) -> Result<Swept, SweepFault>
    requires name { blank.name ≡ B.name }
    requires parts { (blank.parts ≡ B.parts) × (blank.parts ≡ plan.now.size.workers + 1) }
    ensures swept { IfOk result (λ s. Sweeps bench plan.now.size.budget s.fired s.end s.bench) }
    ensures ran { IfOk result (λ s. (0 < s.ran) × (s.ran ≤ plan.now.size.workers)) }
    ensures fault { IfErr result (λ f. IsGivenBack bench f) }
{
    bench.lawful();
    let stood = bench.standing_count();
    let Ok(mut prepared) = prepare::<B>(plan.alloc, plan.leads.len(), plan.size) else {
        return Err(SweepFault::Memory(bench));
    };
    let (shared, opening, passes) = match share::<B>(plan.alloc, bench, blank, plan.size.workers) {
        Ok(all) => all,
        Err(bench) => return Err(SweepFault::Memory(bench)),
    };
    let (hints, pass) = prepared.split_off_others(plan.alloc, passes);
    let Prepared {
        claims,
        seat,
        stealers,
        off,
        others,
        home,
        ..
    } = prepared;
    let floor = Floor {
        shared: &shared,
        claims: &claims,
        gate: plan.gate,
        hints: stealers.as_slice(),
        leads: plan.leads,
        off: off.as_slice(),
        most: most_in_a_run(plan.size),
    };
    let first = Worker {
        number: 0,
        hints,
        place: 0,
        near: VecDeque::new(plan.alloc),
        seat,
        pass,
    };
    let crew = Crew {
        first,
        others,
        home,
    };
    let Returned {
        first,
        mut home,
        ran,
    } = run_crew(rt, plan.alloc, &floor, crew);
    let Worker { mut seat, pass, .. } = first;
    // The step shows that there are no more tickets than the budget.
    claims.is_stopped(&mut seat);
    home.push_reserved(pass);
    match settle(opening, home, shared) {
        Ok(settled) => {
            settled.bench.lawful();
            let by_workers = (settled.bench.standing_count() - stood) as u32;
            let swept = fire_rest(settled.bench, by_workers, plan.size.budget, plan.gate, ran);
            swept.bench.lawful();
            Ok(swept)
        }
        Err(fault) => Err(SweepFault::Settle(fault)),
    }
}

/// Fires what the workers left of the budget, in the order of one worker.
fn fire_rest<G: Gate>(
    mut bench: Bench<Store>,
    by_workers: u32,
    budget: u32,
    gate: &G,
    ran: u32,
) -> Swept
    requires { (by_workers ≤ budget) × (budget ≤ MAX_BUDGET) }
    ensures fired { (left by_one : ℕ) × (budget ≡ by_workers + left) × (result.fired ≡ by_workers + by_one) × Reduces bench left by_one result.end result.bench }
    ensures ran { result.ran ≡ ran }
{
    let (by_one, end) = fire_least(&mut bench, budget - by_workers, gate, budget);
    Swept {
        bench,
        fired: by_workers + by_one,
        end,
        ran,
    }
}
