use crate::hints::Hint;
use crossbeam_deque::Stealer;
use ic_claim::Claims;
use ic_journal::Gate;
use ic_name::AgentId;
use ic_shared::Shared;
use std::sync::atomic::AtomicBool;
use std::sync::ledger::Ledger;

/// What all workers of a sweep share.
#[derive(Drop)]
pub(crate) struct Floor<'a, B: Ledger, G: Gate> {
    pub shared: &'a Shared<B>,
    pub claims: &'a Claims,
    pub gate: &'a G,
    /// The hints of all workers, each of whom steals from the others.
    pub hints: &'a [Stealer<Hint>],
    /// The leads that the sweep began with. Hints tell blocks of them.
    pub leads: &'a [AgentId],
    /// For each worker but the first one, whether its thread couldn't be started.
    pub off: &'a [AtomicBool],
    /// How many events a worker fires under one lock, at most.
    pub most: usize,
}
