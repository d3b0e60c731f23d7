// Many firings under one lock.
ghost use Rattle.std.specs.Prelude.{◌≡◌, ◌+◌, ◌<◌, ◌≤◌, length, vec_len, vec_capacity};
ghost use Rattle.ic_shared.specs.Runs.{Ends, Runs, RunsForPass};

use crate::chooser::Chooser;
use crate::locked::Locked;
use crate::passes::Pass;
use crate::receipts::RunReceipt;
use crate::shared::Shared;
use std::sync::Wait;
use std::sync::ledger::{Ledger, Share};

/// What a run of firings came to.
#[derive(Clone, Copy, Debug, PartialEq, Eq)]
pub struct Ran {
    /// How many active pairs were chosen, for one firing each.
    pub calls: usize,
    /// Whether the last one met a limit or memory ran out, which ends a run.
    pub refused: bool,
}

impl<B: Ledger> Shared<B> {
    /// Fires active pairs in turn, at most so many, and takes the lock of the bench once for all of them. The chooser chooses
    /// each by the bench as the one before left it, and hears each answer; no other call comes in between. The pass is given
    /// a receipt for each line that this adds. The run ends once so many were fired, if nothing is chosen, and if a
    /// limit is met or memory runs out. Nothing else ends it.
    ///
    /// If there is no memory for so many receipts the chooser isn't asked.
    pub fn fire_run<R: Wait, C: Chooser>(
        &self,
        rt: &R,
        pass: &mut Pass<B>,
        chooser: &mut C,
        most: usize,
    ) -> Ran
        requires { C.holds chooser.old }
        ensures kept { C.holds chooser.new }
        ensures run { RunsForPass C.chooses C.hears chooser.old pass.old chooser.new pass.new result.calls result.refused }
        ensures ends { Ends C.chooses most result.calls result.refused chooser.new }
        ensures most { result.calls ≤ most }
    {
        let Pass { share, ran, .. } = pass;
        let Ok(()) = ran.reserve(most) else {
            return Ran {
                calls: 0,
                refused: true,
            };
        };
        self.locked.lock(rt).run(share, ran, chooser, most)
    }
}

impl<B: Ledger> Locked<B> {
    /// Fires what the chooser chooses, at most so many active pairs.
    fn run<C: Chooser>(
        &mut self,
        share: &mut Share<B>,
        ran: &mut Vec<RunReceipt>,
        chooser: &mut C,
        most: usize,
    ) -> Ran
        requires part { 0 < share.old.parts }
        requires room { vec_len ran.old + most ≤ vec_capacity ran.old }
        requires holds { C.holds chooser.old }
        ensures kept { C.holds chooser.new }
        ensures run { Runs C.chooses C.hears self.old.bench chooser.old ran.old.items self.new.bench chooser.new ran.new.items result.calls result.refused }
        ensures ends { Ends C.chooses most result.calls result.refused chooser.new }
        ensures most { result.calls ≤ most }
        ensures parts { share.new.parts ≡ share.old.parts }
        ensures amount { share.new.amount + length ran.old.items ≡ share.old.amount + length ran.new.items }
    {
        for calls in 0..most {
            let Some(pair) = chooser.choose(&self.bench) else {
                return Ran {
                    calls,
                    refused: false,
                };
            };
            let answer = self.fire_pair(share, ran, pair);
            chooser.hear(&answer);
            if answer.is_err() {
                return Ran {
                    calls: calls + 1,
                    refused: true,
                };
            }
        }
        Ran {
            calls: most,
            refused: false,
        }
    }
}
