ghost use Rattle.std.specs.Prelude.{◌≡◌, ◌+◌, ◌<◌, ◌≤◌, replicate, vec_len, vec_capacity, IfSome, IfOk, IfErr};
ghost use Rattle.std.specs.Fn.{FnOnceReturnsAt};
ghost use Rattle.ic_journal.specs.Views.{BenchView};
ghost use Rattle.ic_journal.specs.Benches.{IsBench};
ghost use Rattle.ic_shared.specs.Openings.{opened};
ghost use Rattle.ic_shared.specs.Passes.{empty_pass};
ghost use Rattle.ic_shared.specs.CallsForPass.{FiresForPass, UndoesForPass};

use crate::limits::MAX_PASSES;
use crate::locked::Locked;
use crate::opening::{Count, Opening};
use crate::passes::Pass;
use crate::receipts::Receipt;
use ic_journal::{Bench, FireFault, Proposal, Store, UndoFault};
use ic_name::{Event, EventId};
use std::alloc::Global;
use std::sync::ledger::{Blank, Ledger};
use std::sync::{Mutex, Wait};

/// A bench that threads share by reference. Each call takes the lock of the bench, and so may wait.
#[derive(Drop)]
pub struct Shared<B: Ledger> {
    pub(crate) locked: Mutex<Locked<B>>,
}

/// Shares a bench among so many passes, from 1 to `MAX_PASSES` of them, which have no lines yet. The opening keeps the start and
/// the history up to here. If memory runs out the bench comes back as it was.
pub fn share<B: Ledger>(
    alloc: Global,
    bench: Bench<Store>,
    blank: Blank,
    passes: u32,
) -> Result<(Shared<B>, Opening<B>, Vec<Pass<B>>), Bench<Store>>
    requires name { blank.name ≡ B.name }
    requires parts { (blank.parts ≡ B.parts) × (blank.parts ≡ passes + 1) }
    requires some { (0 < passes) × (passes ≤ MAX_PASSES) }
    ensures opening { IfOk result (λ r. r.1 ≡ opened bench.start bench.lines passes) }
    ensures passes { IfOk result (λ r. r.2.items ≡ replicate passes empty_pass) }
    ensures err { IfErr result (λ b. b ≡ bench) }
{
    let Ok(start) = bench.start().copy() else {
        return Err(bench);
    };
    let Ok(lines) = bench.lines_so_far() else {
        return Err(bench);
    };
    let Ok(mut all) = Vec::with_capacity(alloc, passes as usize) else {
        return Err(bench);
    };
    let (mut book, mut share) = blank.open::<B>();
    for made in 0..passes {
        all.push_reserved(Pass {
            share: share.split_off(1, 0),
            receipts: Vec::new(alloc),
            ran: Vec::new(alloc),
        });
    }
    book.add(&mut share, u64::from(bench.lines()));
    let opening = Opening {
        start,
        lines,
        count: Count::new(passes),
        share,
    };
    let locked = Mutex::new(Locked { bench, book });
    Ok((Shared { locked }, opening, all))
}

impl<B: Ledger> Shared<B> {
    /// Fires an event on the bench, as `Bench::fire` does, and gives the pass a receipt for the line that this adds.
    ///
    /// `Memory` may come before the bench is asked, too; the pass is then as before and the proposal comes back.
    pub fn fire<R: Wait>(
        &self,
        rt: &R,
        pass: &mut Pass<B>,
        proposal: Proposal,
    ) -> Result<EventId, FireFault>
        ensures { FiresForPass proposal result pass.old pass.new }
    {
        let Pass {
            share,
            receipts,
            ..
        } = pass;
        let Some(event) = event_with_room(receipts, &proposal) else {
            return Err(FireFault::Memory(proposal));
        };
        self.locked.lock(rt).fire(share, receipts, proposal, event)
    }

    /// Undoes the firing of an event as `Bench::undo` does, also if another pass fired it, and gives the pass a receipt for the
    /// line that this adds (Danos and Krivine 2004).
    ///
    /// `Memory` may come before the bench is asked, too; the pass is then as before.
    pub fn undo<R: Wait>(&self, rt: &R, pass: &mut Pass<B>, id: EventId) -> Result<(), UndoFault>
        ensures { UndoesForPass id result pass.old pass.new }
    {
        let Pass {
            share,
            receipts,
            ..
        } = pass;
        let Ok(()) = receipts.reserve(1) else {
            return Err(UndoFault::Memory);
        };
        self.locked.lock(rt).undo(share, receipts, id)
    }

    /// Lends the bench for reading, and gives what the closure returns. No call comes in between.
    pub fn look<R: Wait, F: FnOnce(&Bench<Store>) -> T, T>(&self, rt: &R, f: F) -> T
        requires { F.IsAlwaysCallable f }
        ensures { (bench : BenchView) × IsBench bench × FnOnceReturnsAt F.FnOnce f bench result }
    {
        let locked = self.locked.lock(rt);
        locked.bench.lawful();
        f(&locked.bench)
    }

    /// What lies under the lock, once nobody shares it any more.
    pub(crate) fn into_locked(self) -> Locked<B> {
        let Shared { locked } = self;
        locked.into_inner()
    }
}

/// The event of a proposal, once there is room for a receipt more; `None` if memory runs out.
fn event_with_room(receipts: &mut Vec<Receipt>, proposal: &Proposal) -> Option<Event>
    ensures same { receipts.new.items ≡ receipts.old.items }
    ensures event { IfSome result (λ event. event ≡ proposal.now) }
    ensures room { IfSome result (λ _. vec_len receipts.new < vec_capacity receipts.new) }
{
    receipts.reserve(1).ok()?;
    proposal.event().copy().ok()
}
