// What is compared once all threads are done.
ghost use Rattle.std.specs.Prelude.{◌≡◌, ◌+◌, ◌<◌, ◌≤◌, length, IfOk, IfErr};
ghost use Rattle.ic_shared.specs.declared.limits.TheConstants.{MAX_PASSES};
ghost use Rattle.ic_shared.specs.Passes.{added_by_all};
ghost use Rattle.ic_shared.specs.Openings.{opened};
ghost use Rattle.ic_shared.specs.Agrees.{Agrees, IsFalseAt};
ghost use Rattle.ic_shared.specs.Faults.{FaultIs};

use crate::faults::{SettleFault, Settled};
use crate::locked::Locked;
use crate::merging::merge;
use crate::opening::Opening;
use crate::passes::Pass;
use crate::shared::Shared;
use ic_journal::{Bench, EarlierLines, Store};
use ic_start::Start;
use std::sync::ledger::{Book, Ledger, Share};

/// Lends the part of each pass to `all` in turn, and reads the book then. It shows that the book has at least as many lines
/// as they tell together, and exactly as many if every part is there. It changes nothing.
fn audit<B: Ledger>(book: &mut Book<B>, all: &mut Share<B>, passes: &mut [Pass<B>])
    requires some { 0 < all.old.parts }
    ensures bound { all.old.amount + added_by_all passes.old ≤ book.old.total }
    ensures total { all.old.parts + length passes.old ≡ B.parts → book.old.total ≡ all.old.amount + added_by_all passes.old }
    ensures book { book.new.total ≡ book.old.total }
    ensures all { (all.new.parts ≡ all.old.parts) × (all.new.amount ≡ all.old.amount) }
    ensures passes { passes.new ≡ passes.old }
{
    match passes.split_first_mut() {
        None => book.audit(all),
        Some((pass, rest)) => {
            let Pass {
                share,
                receipts,
                ran,
            } = pass;
            let count = (receipts.len() + ran.len()) as u64;
            share.give(all, 1, count);
            audit(book, all, rest);
            all.give(share, 1, count);
        }
    }
}

/// Compares the opening and all passes with the history, once nobody shares the bench any more. It takes no memory.
///
/// At `Ok` the bench has the start of the opening. Its history is the opening's lines and then exactly those of the passes:
/// each is told by one receipt under its number, and that of a run by the names of the bench. The answer counts the lines
/// that were added.
///
/// It is `Missing` exactly if there are not as many passes as were given out. It is `Mismatch` only if all passes are there
/// and what they or the opening say is false. Its number is the history's length if the start is another one, before any
/// line is looked at, and else the number of the line that is false. The bench that comes back has a line for each of the
/// opening and for each receipt of these passes. If all passes are there, it has no other line.
pub fn settle<B: Ledger>(
    opening: Opening<B>,
    mut passes: Vec<Pass<B>>,
    shared: Shared<B>,
) -> Result<Settled, SettleFault>
    ensures ok { IfOk result (λ s. Agrees opening passes.items s.bench s.lines) }
    ensures err { IfErr result (λ e. FaultIs opening passes.items e) }
{
    let Locked { bench, mut book } = shared.into_locked();
    let Opening {
        start,
        lines,
        count,
        mut share,
    } = opening;
    audit(&mut book, &mut share, passes.as_mut_slice());
    if passes.len() != count.passes as usize {
        return Err(SettleFault::Missing(bench));
    }
    match compare(&bench, &start, &lines, passes.as_slice()) {
        Ok(lines) => Ok(Settled { bench, lines }),
        Err(wrong) => Err(SettleFault::Mismatch(wrong, bench)),
    }
}

/// Compares the start and the lines of an opening, and what its passes say, with a bench, and counts the lines that were
/// added. The error is a number at which what they say of the history is false.
fn compare<B: Ledger>(
    bench: &Bench<Store>,
    start: &Start,
    lines: &EarlierLines,
    passes: &[Pass<B>],
) -> Result<u32, u32>
    requires few { length passes.now ≤ MAX_PASSES }
    requires counted { length bench.now.lines ≡ length lines.now + added_by_all passes.now }
    ensures ok { IfOk result (λ added. Agrees (opened start.now lines.now (length passes.now)) passes.now bench.now added) }
    ensures err { IfErr result (λ number. IsFalseAt (opened start.now lines.now (length passes.now)) passes.now bench.now number) }
{
    let number = bench.lines();
    if !bench.start().same(start) {
        return Err(number);
    }
    let base = lines.len() as u32;
    match bench.first_other(lines) {
        Some(other) => return Err(other),
        None => {}
    }
    match merge(bench, base, passes) {
        Ok(()) => Ok(number - base),
        Err(wrong) => Err(wrong),
    }
}
