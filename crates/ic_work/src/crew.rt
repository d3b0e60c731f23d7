ghost use Rattle.std.specs.Prelude.{◌≡◌, ◌≢◌, ◌+◌, ◌<◌, ◌≤◌, All, length, vec_len, vec_capacity};
ghost use Rattle.ic_work.specs.Workers.{IsFirst, IsGuest};

use crate::floor::Floor;
use crate::worker::Worker;
use ic_claim::{Claims, MAX_WORKERS};
use ic_journal::Gate;
use ic_shared::Pass;
use std::alloc::Global;
use std::snapshot::Snapshot;
use std::sync::Wait;
use std::sync::atomic::{AtomicBool, Ordering};
use std::sync::ledger::Ledger;
use std::thread;
use std::thread::{Promise, Threads};

/// What is known of a worker that comes home from its thread.
#[derive(Drop)]
struct ComesHome {
    claims: Snapshot<Claims>,
}

impl<B: Ledger> Promise<Worker<B>> for ComesHome {
    ghost kept_by = { λ p w. IsGuest p.claims.value.table w.seat w.pass };
}

/// A crew before it runs: the first worker, the others, and room for all their passes.
#[derive(Drop)]
pub(crate) struct Crew<B: Ledger> {
    pub first: Worker<B>,
    pub others: Vec<Worker<B>>,
    pub home: Vec<Pass<B>>,
}

/// What a crew leaves: the first worker, with the seats of the others, all their passes, and how many ran.
#[derive(Drop)]
pub(crate) struct Returned<B: Ledger> {
    pub first: Worker<B>,
    pub home: Vec<Pass<B>>,
    pub ran: u32,
}

/// Lets the other workers run, each on a thread of its own, and the first one on the caller's, and takes them all in
/// again: their seats into the first one's, their passes into `home`. A worker whose thread can't be started is taken
/// in as it is; if there is no memory for the threads, that is each but the first one.
pub(crate) fn run_crew<B: Ledger + Send + Sync, G: Gate, R: Threads + Wait + Sync>(
    rt: &R,
    alloc: Global,
    floor: &Floor<'_, B, G>,
    crew: Crew<B>,
) -> Returned<B>
    requires first { IsFirst floor.now.claims.now.table floor.now.claims.now.budget crew.first.seat crew.first.pass crew.home.items }
    requires guests { All (λ w. IsGuest floor.now.claims.now.table w.seat w.pass) crew.others.items }
    requires few { vec_len crew.others < MAX_WORKERS }
    requires off { vec_len crew.others ≤ length floor.now.off.now }
    requires room { vec_len crew.home + vec_len crew.others ≤ vec_capacity crew.home }
    ensures first { IsFirst floor.now.claims.now.table floor.now.claims.now.budget result.first.seat result.first.pass result.home.items }
    ensures all { vec_len result.home ≡ vec_len crew.home + vec_len crew.others }
    ensures ran { (0 < result.ran) × (result.ran ≤ vec_len crew.others + 1) }
    ensures room { vec_capacity result.home ≡ vec_capacity crew.home }
{
    let Crew {
        mut first,
        mut others,
        mut home,
    } = crew;
    let Ok(mut handles) = Vec::with_capacity(alloc, others.len()) else {
        take_all_in(floor.claims, &mut first, others, &mut home);
        first.work(rt, floor);
        return Returned {
            first,
            home,
            ran: 1,
        };
    };
    thread::scope(
        thread::scope_env(),
        rt,
        move |scope| -> Returned<B>
            requires first { IsFirst floor.now.claims.now.table floor.now.claims.now.budget first.seat first.pass home.items }
            requires guests { All (λ w. IsGuest floor.now.claims.now.table w.seat w.pass) others.items }
            requires few { vec_len others < MAX_WORKERS }
            requires off { vec_len others ≤ length floor.now.off.now }
            requires handles { (vec_len handles ≡ 0) × (vec_len others ≤ vec_capacity handles) }
            requires room { vec_len home + vec_len others ≤ vec_capacity home }
            ensures first { IsFirst floor.entry.now.claims.now.table floor.entry.now.claims.now.budget result.first.seat result.first.pass result.home.items }
            ensures all { vec_len result.home ≡ vec_len home + vec_len others }
            ensures ran { (0 < result.ran) × (result.ran ≤ vec_len others + 1) }
            ensures room { vec_capacity result.home ≡ vec_capacity home }
        {
            let mut started = 0usize;
            while let Some(worker) = others.pop() {
                let flag = &floor.off[started];
                started += 1;
                let comes = ComesHome {
                    claims: Snapshot::of(floor.claims),
                };
                let job = move || -> Worker<B>
                    requires { IsGuest floor.now.claims.now.table worker.seat worker.pass }
                    ensures { IsGuest floor.entry.now.claims.now.table result.seat result.pass }
                { run(rt, floor, worker, flag) };
                match scope.spawn_with(comes, job) {
                    Ok(handle) => handles.push_reserved(handle),
                    Err(refused) => {
                        flag.store(true, Ordering::SeqCst);
                        let worker = (refused.value)();
                        take_in(floor.claims, &mut first, worker, &mut home);
                    }
                }
            }
            let ran = handles.len() as u32 + 1;
            first.work(rt, floor);
            while let Some(handle) = handles.pop() {
                let worker = handle.join(rt);
                take_in(floor.claims, &mut first, worker, &mut home);
            }
            Returned { first, home, ran }
        },
    )
}

/// Lets a worker work, unless its thread couldn't be started, and hands it on.
fn run<B: Ledger, G: Gate, R: Wait>(
    rt: &R,
    floor: &Floor<'_, B, G>,
    mut worker: Worker<B>,
    off: &AtomicBool,
) -> Worker<B>
    requires { IsGuest floor.now.claims.now.table worker.seat worker.pass }
    ensures { IsGuest floor.now.claims.now.table result.seat result.pass }
{
    if !off.load(Ordering::SeqCst) {
        worker.work(rt, floor);
    }
    worker
}

/// Takes a worker in: its seat into the first one's, its pass into `home`.
fn take_in<B: Ledger>(
    claims: &Claims,
    first: &mut Worker<B>,
    worker: Worker<B>,
    home: &mut Vec<Pass<B>>,
)
    requires first { IsFirst claims.now.table claims.now.budget first.old.seat first.old.pass home.old.items }
    requires guest { IsGuest claims.now.table worker.seat worker.pass }
    requires room { vec_len home.old < vec_capacity home.old }
    ensures first { IsFirst claims.now.table claims.now.budget first.new.seat first.new.pass home.new.items }
    ensures one { vec_len home.new ≡ vec_len home.old + 1 }
    ensures room { vec_capacity home.new ≡ vec_capacity home.old }
{
    let Worker { seat, pass, .. } = worker;
    claims.join(&mut first.seat, seat);
    home.push_reserved(pass);
}

/// Takes all these workers in.
fn take_all_in<B: Ledger>(
    claims: &Claims,
    first: &mut Worker<B>,
    mut others: Vec<Worker<B>>,
    home: &mut Vec<Pass<B>>,
)
    requires first { IsFirst claims.now.table claims.now.budget first.old.seat first.old.pass home.old.items }
    requires guests { All (λ w. IsGuest claims.now.table w.seat w.pass) others.items }
    requires room { vec_len home.old + vec_len others ≤ vec_capacity home.old }
    ensures first { IsFirst claims.now.table claims.now.budget first.new.seat first.new.pass home.new.items }
    ensures all { vec_len home.new ≡ vec_len home.old + vec_len others }
    ensures room { vec_capacity home.new ≡ vec_capacity home.old }
{
    while let Some(worker) = others.pop() {
        take_in(claims, first, worker, home);
    }
}
