// The lines of a history and the columns of all passes, gone through together.
ghost use Rattle.std.specs.Prelude.{◌≡◌, ◌+◌, ◌*◌, ◌/◌, ◌<◌, ◌≤◌, ℕ, List, Some, length, drop, slice_get, IfOk, IfErr, IfSome, IfNone};
ghost use Rattle.ic_name.specs.Names.{Name};
ghost use Rattle.ic_shared.specs.Passes.{PassView, column, columns};
ghost use Rattle.ic_shared.specs.Settles.{IsNext, Settles, WrongAt};

use crate::limits::MAX_PASSES;
use crate::passes::{Column, Pass};
use ic_journal::{Bench, Store};
use std::sync::ledger::Ledger;

/// Each pass has two columns.
const MAX_COLUMNS: usize = 2 * MAX_PASSES;

/// Which column of its pass the one with this number is, when those of each pass have two numbers in a row: among the columns
/// of any passes it has this number.
fn column_of(number: usize) -> Column
    ensures { (ns : List Name) (passes : List PassView) (pass : PassView) → slice_get passes (number / 2) ≡ Some pass → slice_get (columns ns passes) number ≡ Some (column ns pass result) }
{
    if number % 2 == 0 {
        Column::Calls
    } else {
        Column::Runs
    }
}

/// The column whose next receipt has this number.
fn find<B: Ledger>(passes: &[Pass<B>], cursors: &[usize; MAX_COLUMNS], number: u32) -> Option<usize>
    requires { length passes.now ≤ MAX_PASSES }
    ensures some { (ns : List Name) → IfSome result (λ c. (c < 2 * length passes.now) × IsNext (columns ns passes.now) cursors.now c number) }
    ensures none { (ns : List Name) → IfNone result ((c : ℕ) → c < 2 * length passes.now → ¬ IsNext (columns ns passes.now) cursors.now c number) }
{
    for c in 0..2 * passes.len() {
        if passes[c / 2].has_number(column_of(c), cursors[c], number) {
            return Some(c);
        }
    }
    None
}

/// The number of a column's next receipt that is less than this one.
fn behind<B: Ledger>(passes: &[Pass<B>], cursors: &[usize; MAX_COLUMNS], number: u32) -> Option<u32>
    requires { length passes.now ≤ MAX_PASSES }
    ensures some { (ns : List Name) → IfSome result (λ n. (n < number) × ((c : ℕ) × IsNext (columns ns passes.now) cursors.now c n)) }
    ensures none { (ns : List Name) → IfNone result ((c : ℕ) → c < 2 * length passes.now → (n : ℕ) → IsNext (columns ns passes.now) cursors.now c n → number ≤ n) }
{
    for c in 0..2 * passes.len() {
        match passes[c / 2].less_at(column_of(c), cursors[c], number) {
            Some(lesser) => return Some(lesser),
            None => {}
        }
    }
    None
}

/// Goes through the lines from `base` on. Each must have the next receipt of a column, often of the one that has the line
/// before, which is looked at first. The error is a number at which what the passes say is false.
pub(crate) fn merge<B: Ledger>(
    bench: &Bench<Store>,
    base: u32,
    passes: &[Pass<B>],
) -> Result<(), u32>
    requires few { length passes.now ≤ MAX_PASSES }
    requires within { base ≤ length bench.now.lines }
    ensures ok { IfOk result (λ _. Settles base (drop base bench.now.lines) (columns bench.now.names passes.now)) }
    ensures err { IfErr result (WrongAt base bench.now.lines (columns bench.now.names passes.now)) }
{
    let mut cursors = [0usize; MAX_COLUMNS];
    let mut last = 0;
    let count = bench.lines() - base;
    for j in 0..count {
        let number = base + j;
        if last < 2 * passes.len()
            && passes[last / 2].confirms(column_of(last), cursors[last], bench, number)
        {
            cursors[last] += 1;
            continue;
        }
        let Some(c) = find(passes, &cursors, number) else {
            return match behind(passes, &cursors, number) {
                Some(lesser) => Err(lesser),
                None => Err(number),
            };
        };
        if !passes[c / 2].confirms(column_of(c), cursors[c], bench, number) {
            return Err(number);
        }
        cursors[c] += 1;
        last = c;
    }
    for c in 0..2 * passes.len() {
        match passes[c / 2].number_at(column_of(c), cursors[c]) {
            Some(number) => return Err(number),
            None => {}
        }
    }
    Ok(())
}
