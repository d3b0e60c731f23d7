// Turns of a pass: firings and undos that numbers in no order to be seen pick.
use ic_journal::{Bench, Proposal, Store};
use ic_name::EventId;
use ic_shared::{Pass, Shared};
use std::sync::Wait;
use std::sync::ledger::Ledger;

/// The number after this one, of a linear congruence.
pub fn next_number(seed: u64) -> u64 {
    seed.wrapping_mul(6364136223846793005)
        .wrapping_add(1442695040888963407)
}

/// A proposal that an active pair meets, if there is one: the pair that the number picks.
fn picked_pair(bench: &Bench<Store>, number: u64) -> Option<Proposal> {
    let pairs = bench.active().ok()?;
    let count = pairs.len() as u64;
    if count == 0 {
        return None;
    }
    let pair = pairs.get((number % count) as usize)?;
    bench.propose(pair.lead, pair.other).ok()
}

/// A standing event, if there is one: the event that the number picks.
fn picked_event(bench: &Bench<Store>, number: u64) -> Option<EventId> {
    let events = bench.standing().ok()?;
    let count = events.len() as u64;
    if count == 0 {
        return None;
    }
    events.get((number % count) as usize).copied()
}

/// Fires the active pair that the number picks. It may have gone by the time of the call.
pub fn fire_some<B: Ledger, R: Wait>(rt: &R, shared: &Shared<B>, pass: &mut Pass<B>, number: u64) {
    if let Some(proposal) = shared.look(rt, |bench| picked_pair(bench, number)) {
        let _ = shared.fire(rt, pass, proposal);
    }
}

/// Undoes the event that the number picks. It may have gone by the time of the call.
pub fn undo_some<B: Ledger, R: Wait>(rt: &R, shared: &Shared<B>, pass: &mut Pass<B>, number: u64) {
    if let Some(id) = shared.look(rt, |bench| picked_event(bench, number)) {
        let _ = shared.undo(rt, pass, id);
    }
}
