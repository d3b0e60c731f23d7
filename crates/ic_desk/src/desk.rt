ghost use Rattle.std.specs.Prelude.{◌≡◌, ◌<◌, List, length, IfOk, OnErr};
ghost use Rattle.ic_set.specs.Pairs.{AreActivePairs};
ghost use Rattle.ic_set.specs.declared.pairs.ActivePair.{ActivePair as APair};
ghost use Rattle.ic_journal.specs.Views.{set_of};
ghost use Rattle.ic_answer.specs.Changed.{HasChanged};
ghost use Rattle.ic_answer.specs.Texts.{answer_text};
ghost use Rattle.ic_command.specs.declared.command.Command.TheVariants.{Reduce};
ghost use Rattle.ic_command.specs.declared.request.Request.TheVariants as request;
ghost use Rattle.ic_desk.specs.ManyWorkers.{TurnsWith};
ghost use Rattle.ic_desk.specs.Views.{IsOver, TurnsByRequest};

use crate::absorbing::absorb_events;
use crate::fault::DeskFault;
use crate::going_back::go_back;
use crate::marking::mark_under;
use crate::named_mark::NamedMark;
use ic_answer::{Answer, Refused, carry_out, end_answer};
use ic_command::Request;
use ic_journal::{Bench, Gate, LinkStore, Store};
use ic_start::Start;
use ic_work::{SweepFault, SweepSize, sweep};
use std::alloc::{AllocError, Global};
use std::marker::Model;
use std::sync::Wait;
use std::thread::Threads;

/// The marks of a desk, at most.
pub const MAX_MARKS: usize = 256;

/// A bench, and marks of what stood on it, to which it can go back, over a store of links.
#[derive(Drop)]
pub struct Desk<L: LinkStore> {
    pub(crate) bench: Bench<L>,
    pub(crate) marks: Vec<NamedMark>,
}

impl<L: LinkStore> Model for Desk<L> {
    ghost use Rattle.ic_desk.specs.Views.{DeskView, IsDesk};

    ghost Value = { DeskView };

    ghost view = { λ d. record { bench = d.bench; marks = d.marks.items } };

    ghost invariant = { λ d. IsDesk (record { bench = d.bench; marks = d.marks.items }) };
}

impl<L: LinkStore> Desk<L> {
    /// A desk with a bench over the start, on which nothing is marked. An error if memory runs out, and then the start
    /// is gone.
    pub fn over(alloc: Global, start: Start) -> Result<Desk<L>, AllocError>
        ensures { IfOk result (λ desk. IsOver start desk) }
    {
        let bench = Bench::over(alloc, start)?;
        Ok(Desk {
            bench,
            marks: Vec::new(alloc),
        })
    }

    /// How many pairs are active.
    pub fn active_pairs(&self) -> Result<usize, AllocError>
        ensures { IfOk result (λ count. (pairs : List APair) × AreActivePairs (set_of self.now.bench) pairs × (count ≡ length pairs)) }
    {
        let pairs = self.bench.active()?;
        Ok(pairs.len())
    }

    /// Answers a request. If there is no memory for it, the answer is a refusal, and then neither net, standing set nor
    /// marks have changed, except for what the answer says. An error only if other events stand than before and there is no
    /// memory for the answer. The gate sees each commit of a `reduce`.
    pub fn carry_out<G: Gate>(
        &mut self,
        alloc: Global,
        request: Request,
        gate: &G,
    ) -> Result<Answer, AllocError>
        ensures turns { IfOk result (λ answer. TurnsByRequest self.old request (answer_text answer) self.new) }
        ensures changed { OnErr result (HasChanged self.old.bench self.new.bench) }
    {
        match request {
            Request::Bench(command) => carry_out(alloc, &mut self.bench, command, gate),
            Request::Mark(name) => Ok(mark_under(alloc, &self.bench, &mut self.marks, name)),
            Request::Back(name) => go_back(alloc, &mut self.bench, &mut self.marks, &name),
            Request::Absorb(names) => absorb_events(alloc, &mut self.bench, &self.marks, &names),
        }
    }
}

impl Desk<Store> {
    /// Reduces the net by a sweep of this size, by two workers or more; the marks stay, and the desk comes back with the answer.
    /// If there is no memory for a sweep, the answer says so, and nothing has changed. The gate sees each commit.
    ///
    /// `DeskFault::Memory` if events were fired and there is no memory to tell how many, and `DeskFault::Settle` if the
    /// workers' passes aren't what the history says. The desk is gone then.
    pub fn sweep<T: Threads + Wait + Sync, G: Gate>(
        self,
        threads: &T,
        alloc: Global,
        size: SweepSize,
        gate: &G,
    ) -> Result<(Desk<Store>, Answer), DeskFault>
        requires { 1 < size.workers }
        ensures { IfOk result (λ r. TurnsWith size.workers self (request.Bench (Reduce size.budget)) (answer_text r.1) r.0) }
    {
        let Desk { bench, marks } = self;
        match sweep(threads, alloc, bench, size, gate) {
            Ok(swept) => {
                let answer = end_answer(alloc, swept.fired, swept.end)?;
                let bench = swept.bench;
                Ok((Desk { bench, marks }, answer))
            }
            Err(SweepFault::Memory(bench)) => {
                let answer = Answer::Refused(Refused::MemoryBeforeReduce);
                Ok((Desk { bench, marks }, answer))
            }
            Err(SweepFault::Settle(_)) => Err(DeskFault::Settle),
        }
    }
}
