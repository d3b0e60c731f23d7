// What lies under the lock.
ghost use Rattle.std.specs.Prelude.{◌≡◌, ◌+◌, ◌++◌, ◌<◌, ◌≤◌, length, vec_len, vec_capacity};
ghost use Rattle.ic_name.specs.declared.lines.Call.TheVariants.{Fire, Undo};
ghost use Rattle.ic_set.specs.Pairs.{IsActivePair};
ghost use Rattle.ic_journal.specs.Views.{set_of};
ghost use Rattle.ic_journal.specs.Benches.{IsBench};
ghost use Rattle.ic_journal.specs.Calls.{Fires, Undoes};
ghost use Rattle.ic_shared.specs.CallLines.{fire_reply, pair_reply, undo_reply, lines_of, fire_lines, undo_lines};
ghost use Rattle.ic_shared.specs.Receipts.{receipts_of};
ghost use Rattle.ic_shared.specs.Runs.{FiresOn};

use crate::receipts::{Receipt, RunReceipt};
use ic_journal::{ActivePair, Bench, FireFault, Fired, PairFault, Proposal, Store, UndoFault};
use ic_name::{Call, Event, EventId, Reply};
use std::sync::ledger::{Book, Ledger, Share};

/// A bench, and the account of the lines of its history: the lines before it was shared, and those that callers added.
#[derive(Drop)]
pub(crate) struct Locked<B: Ledger> {
    pub bench: Bench<Store>,
    pub book: Book<B>,
    ghost counted: { book.total ≡ length bench.lines },
}

impl<B: Ledger> Locked<B> {
    /// Fires the event on the bench, and gives a receipt for the line. The receipt tells the call by the event once more.
    pub fn fire(
        &mut self,
        share: &mut Share<B>,
        receipts: &mut Vec<Receipt>,
        proposal: Proposal,
        event: Event,
    ) -> Result<EventId, FireFault>
        requires part { 0 < share.old.parts }
        requires room { vec_len receipts.old < vec_capacity receipts.old }
        requires copy { event ≡ proposal }
        ensures bench { IsBench self.old.bench }
        ensures fires { Fires self.old.bench proposal result self.new.bench }
        ensures receipts { receipts.new.items ≡ receipts.old.items ++ receipts_of (length self.old.bench.lines) (fire_lines proposal result) }
        ensures parts { share.new.parts ≡ share.old.parts }
        ensures amount { share.new.amount ≡ share.old.amount + length (fire_lines proposal result) }
    {
        self.bench.lawful();
        let number = self.bench.lines();
        let answer = self.bench.fire(proposal);
        let reply = reply_of_firing(&answer);
        let made = MadeCall {
            number,
            call: Call::Fire(event),
        };
        note(&mut self.book, share, receipts, made, reply);
        answer
    }

    /// Fires an active pair on the bench, and gives a receipt for the line.
    pub fn fire_pair(
        &mut self,
        share: &mut Share<B>,
        ran: &mut Vec<RunReceipt>,
        pair: ActivePair,
    ) -> Result<Fired, PairFault>
        requires part { 0 < share.old.parts }
        requires room { vec_len ran.old < vec_capacity ran.old }
        requires active { IsActivePair (set_of self.old.bench) pair }
        ensures fires { FiresOn self.old.bench pair result ran.old.items self.new.bench ran.new.items }
        ensures parts { share.new.parts ≡ share.old.parts }
        ensures amount { share.new.amount + length ran.old.items ≡ share.old.amount + length ran.new.items }
        ensures room { vec_capacity ran.new ≡ vec_capacity ran.old }
        ensures one { vec_len ran.new ≤ vec_len ran.old + 1 }
    {
        self.bench.lawful();
        let number = self.bench.lines();
        let answer = self.bench.fire_pair(pair);
        if reply_of_pair(&answer).is_some() {
            let Some(note) = self.bench.note_of(number) else {
                unreachable!()
            };
            self.book.add(share, 1);
            ran.push_reserved(RunReceipt { number, note });
        }
        answer
    }

    /// Undoes the event on the bench, and gives a receipt for the line.
    pub fn undo(
        &mut self,
        share: &mut Share<B>,
        receipts: &mut Vec<Receipt>,
        id: EventId,
    ) -> Result<(), UndoFault>
        requires part { 0 < share.old.parts }
        requires room { vec_len receipts.old < vec_capacity receipts.old }
        ensures bench { IsBench self.old.bench }
        ensures undoes { Undoes self.old.bench id result self.new.bench }
        ensures receipts { receipts.new.items ≡ receipts.old.items ++ receipts_of (length self.old.bench.lines) (undo_lines id result) }
        ensures parts { share.new.parts ≡ share.old.parts }
        ensures amount { share.new.amount ≡ share.old.amount + length (undo_lines id result) }
    {
        self.bench.lawful();
        let number = self.bench.lines();
        let answer = self.bench.undo(id);
        let reply = reply_of_undo(&answer);
        let made = MadeCall {
            number,
            call: Call::Undo(id.line),
        };
        note(&mut self.book, share, receipts, made, reply);
        answer
    }
}

/// A call that was made, with the number of its line, if it has one.
#[derive(Drop)]
struct MadeCall {
    number: u32,
    call: Call,
}

/// If the call has a reply, enters its line in the book and gives a receipt for it. It takes no memory.
fn note<B: Ledger>(
    book: &mut Book<B>,
    share: &mut Share<B>,
    receipts: &mut Vec<Receipt>,
    made: MadeCall,
    reply: Option<Reply>,
)
    requires part { 0 < share.old.parts }
    requires room { vec_len receipts.old < vec_capacity receipts.old }
    ensures total { book.new.total ≡ book.old.total + length (lines_of made.call reply) }
    ensures parts { share.new.parts ≡ share.old.parts }
    ensures amount { share.new.amount ≡ share.old.amount + length (lines_of made.call reply) }
    ensures receipts { receipts.new.items ≡ receipts.old.items ++ receipts_of made.number (lines_of made.call reply) }
    ensures room { vec_capacity receipts.new ≡ vec_capacity receipts.old }
{
    if let Some(reply) = reply {
        book.add(share, 1);
        receipts.push_reserved(Receipt {
            number: made.number,
            call: made.call,
            reply,
        });
    }
}

/// The reply that stands in the history for an answer to a firing; `None` if the call adds no line.
fn reply_of_firing(answer: &Result<EventId, FireFault>) -> Option<Reply>
    ensures { result ≡ fire_reply answer.now }
{
    match answer {
        Ok(_) => Some(Reply::Fired),
        Err(FireFault::NotActive) => Some(Reply::NotActive),
        Err(FireFault::Deep) => Some(Reply::Deep),
        Err(FireFault::Full) => Some(Reply::Full),
        Err(FireFault::HistoryFull(_)) | Err(FireFault::Memory(_)) => None,
    }
}

/// The reply that stands in the history for an answer to the firing of an active pair; `None` if the call adds no line.
fn reply_of_pair(answer: &Result<Fired, PairFault>) -> Option<Reply>
    ensures { result ≡ pair_reply answer.now }
{
    match answer {
        Ok(_) => Some(Reply::Fired),
        Err(PairFault::Deep) => Some(Reply::Deep),
        Err(PairFault::Full) => Some(Reply::Full),
        Err(PairFault::HistoryFull) | Err(PairFault::Memory) => None,
    }
}

/// The reply that stands in the history for an answer to an undo; `None` if the call adds no line.
fn reply_of_undo(answer: &Result<(), UndoFault>) -> Option<Reply>
    ensures { result ≡ undo_reply answer.now }
{
    match answer {
        Ok(()) => Some(Reply::Undone),
        Err(UndoFault::NotStanding) => Some(Reply::NotStanding),
        Err(UndoFault::Held(holder)) => Some(Reply::Held(holder.line)),
        Err(UndoFault::HistoryFull) | Err(UndoFault::Memory) => None,
    }
}
