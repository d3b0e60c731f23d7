ghost use Rattle.std.specs.Prelude.{◌≡◌, ◌+◌, ◌<◌, ◌≤◌, [], All, IfOk, length, replicate, vec_len, vec_capacity};
ghost use Rattle.ic_claim.specs.Views.{new_view};
ghost use Rattle.ic_shared.specs.Passes.{empty_pass};
ghost use Rattle.ic_work.specs.Workers.{IsFirst, IsGuest};

use crate::hints::Hint;
use crate::limits::BLOCK;
use crate::sweep_size::SweepSize;
use crate::worker::Worker;
use crossbeam_deque::{Stealer, Worker as Deque};
use ic_claim::{Claims, MAX_WORKERS, Seat};
use ic_shared::Pass;
use std::alloc::{AllocError, Global};
use std::collections::VecDeque;
use std::sync::atomic::AtomicBool;
use std::sync::ledger::Ledger;

/// How many hints a worker has room for at first.
const FIRST_ROOM: usize = 64;

/// Into how many blocks a worker's share of leads is cut at least, if it has as many.
const MIN_BLOCKS: usize = 16;

/// All that a sweep takes memory for before its bench is shared.
#[derive(Drop)]
pub(crate) struct Prepared<B: Ledger> {
    pub claims: Claims,
    pub seat: Seat,
    /// The hints of each worker.
    pub hints: Vec<Deque<Hint>>,
    /// For the others to steal from.
    pub stealers: Vec<Stealer<Hint>>,
    /// For each worker but the first one, whether its thread couldn't be started.
    pub off: Vec<AtomicBool>,
    /// Room for each worker but the first one.
    pub others: Vec<Worker<B>>,
    /// Room for all passes.
    pub home: Vec<Pass<B>>,
}

impl<B: Ledger> Prepared<B> {
    /// Makes a worker of each pass but the last one, with hints and a seat of its own; answers the hints and the pass of
    /// the first one.
    pub(crate) fn split_off_others(
        &mut self,
        alloc: Global,
        mut passes: Vec<Pass<B>>,
    ) -> (Deque<Hint>, Pass<B>)
        requires table { self.old.seat.table ≡ self.old.claims.table }
        requires new { self.old.seat.view ≡ new_view self.old.claims.budget 0 }
        requires hints { vec_len self.old.hints ≡ vec_len passes }
        requires some { (0 < vec_len passes) × (vec_len passes ≤ MAX_WORKERS) }
        requires unused { passes.items ≡ replicate (vec_len passes) empty_pass }
        requires room { (vec_len self.old.others ≡ 0) × (vec_len passes ≤ vec_capacity self.old.others) }
        ensures first { IsFirst self.old.claims.table self.old.claims.budget self.new.seat result.1 [] }
        ensures guests { All (λ w. IsGuest self.old.claims.table w.seat w.pass) self.new.others.items }
        ensures count { vec_len self.new.others + 1 ≡ vec_len passes }
        ensures rest { (self.new.claims ≡ self.old.claims) × (self.new.off ≡ self.old.off) × (self.new.home ≡ self.old.home) }
    {
        for number in 1..passes.len() {
            let Some(own) = self.hints.pop() else {
                unreachable!()
            };
            let Some(pass) = passes.pop() else {
                unreachable!()
            };
            self.others.push_reserved(Worker {
                number,
                hints: own,
                place: self.hints.len(),
                near: VecDeque::new(alloc),
                seat: self.claims.split(&mut self.seat),
                pass,
            });
        }
        let Some(own) = self.hints.pop() else {
            unreachable!()
        };
        let Some(pass) = passes.pop() else {
            unreachable!()
        };
        (own, pass)
    }
}

/// What the workers of a sweep need. Their first hints tell the places of so many leads.
pub(crate) fn prepare<B: Ledger>(
    alloc: Global,
    leads: usize,
    size: SweepSize,
) -> Result<Prepared<B>, AllocError>
    ensures seat { IfOk result (λ p. (p.seat.table ≡ p.claims.table) × (p.claims.budget ≡ size.budget) × (p.seat.view ≡ new_view size.budget 0)) }
    ensures hints { IfOk result (λ p. vec_len p.hints ≡ size.workers) }
    ensures off { IfOk result (λ p. vec_len p.off ≡ size.workers) }
    ensures others { IfOk result (λ p. (vec_len p.others ≡ 0) × (size.workers ≤ vec_capacity p.others)) }
    ensures home { IfOk result (λ p. (vec_len p.home ≡ 0) × (size.workers ≤ vec_capacity p.home)) }
{
    let count = size.workers as usize;
    let (claims, seat) = Claims::make(alloc, size.budget)?;
    let mut hints = Vec::with_capacity(alloc, count)?;
    let mut stealers = Vec::with_capacity(alloc, count)?;
    let mut off = Vec::with_capacity(alloc, count)?;
    for _made in 0..count {
        let own = Deque::new_fifo(alloc, FIRST_ROOM)?;
        stealers.push(own.stealer()?)?;
        hints.push_reserved(own);
        off.push_reserved(AtomicBool::new(false));
    }
    deal(hints.as_mut_slice(), leads)?;
    Ok(Prepared {
        claims,
        seat,
        hints,
        stealers,
        off,
        others: Vec::with_capacity(alloc, count)?,
        home: Vec::with_capacity(alloc, count)?,
    })
}

/// Deals the places of so many leads out to the workers, to each a share in one piece.
fn deal(hints: &mut [Deque<Hint>], leads: usize) -> Result<(), AllocError>
    requires { 0 < length hints.old }
{
    let share = leads.div_ceil(hints.len());
    let mut from = 0usize;
    for own in hints.iter_mut() {
        let to = from.saturating_add(share).min(leads);
        put_blocks(own, from, to)?;
        from = to;
    }
    Ok(())
}

/// Puts the places from one to before another out as hints, in blocks, and in several even if the places are few. Each has an
/// odd number of leads, so that the first ones of blocks differ in their claim words as other leads do, however evenly
/// a net has its pairs. The first block goes last, so that the lead at the front of the queue stays there for long.
fn put_blocks(own: &mut Deque<Hint>, from: usize, to: usize) -> Result<(), AllocError> {
    let half = (to.saturating_sub(from) / MIN_BLOCKS / 2).min(BLOCK / 2);
    let size = 2 * half + 1;
    let second = from.saturating_add(size).min(to);
    for start in (second..to).step_by(size) {
        put_block(own, start, start.saturating_add(size).min(to))?;
    }
    put_block(own, from, second)
}

/// Puts the places from one to before another out as one hint, if there are any.
fn put_block(own: &mut Deque<Hint>, from: usize, to: usize) -> Result<(), AllocError> {
    if from >= to {
        return Ok(());
    }
    match own.push(Hint::Leads { from, to }) {
        Ok(()) => Ok(()),
        Err(_) => Err(AllocError),
    }
}
