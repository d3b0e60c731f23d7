ghost use Rattle.std.specs.Prelude.{◌≡◌, ◌≤◌, ◌<◌, ◌↔◌, List, length, map, IsTrue, IfOk};
ghost use Rattle.ic_name.specs.Events.{Event, pair};
ghost use Rattle.ic_name.specs.declared.limits.TheConstants.{MAX_LINES};
ghost use Rattle.ic_path.specs.Orders.{Alike};
ghost use Rattle.ic_theory.specs.Nets.{IsSameNet, net_of};
ghost use Rattle.ic_trace.specs.Letters.{Leaves, IsLegal, named};
ghost use Rattle.ic_trace.specs.Moves.{Lead};
ghost use Rattle.ic_trace.specs.Readings.{AreInside, number_of, letter_in, letters_in};

use crate::cursor::Cursor;
use crate::known::Known;
use crate::lists::Letter;
use crate::moving::Move;
use crate::reading::{Reading, Step, read};
use ic_start::Start;
use std::alloc::{AllocError, Global};

/// Whether the moves lead from the first list to the second: the first is legal over the start, each move is lawful in its
/// turn, and the last list is `to`. A move beyond the list isn't lawful.
///
/// Moves that lead there keep the list legal, and what stands after it, and so the net.
pub fn check(
    alloc: Global,
    start: &Start,
    letters: &[Letter],
    moves: &[Move],
    to: &[Letter],
) -> Result<bool, AllocError>
    requires few { length letters.now ≤ MAX_LINES }
    ensures exact { IfOk result (λ yes. IsTrue yes ↔ Lead start.now letters.now moves.now to.now) }
    ensures standing { IfOk result (λ yes. IsTrue yes → (es fs : List Event) → Leaves start.now letters.now es → Leaves start.now to.now fs → Alike es fs) }
    ensures nets { IfOk result (λ yes. IsTrue yes → (es fs : List Event) → Leaves start.now letters.now es → Leaves start.now to.now fs → IsSameNet (net_of start.now es) (net_of start.now fs)) }
    ensures legal { IfOk result (λ yes. IsTrue yes → IsLegal start.now to.now) }
{
    start.lawful();
    leads(alloc, start, letters, moves, to)
}

/// Whether the moves lead from the first list to the second.
fn leads(
    alloc: Global,
    start: &Start,
    letters: &[Letter],
    moves: &[Move],
    to: &[Letter],
) -> Result<bool, AllocError>
    requires { length letters.now ≤ MAX_LINES }
    ensures { IfOk result (λ yes. IsTrue yes ↔ Lead start.now letters.now moves.now to.now) }
{
    start.lawful();
    let trace = match read(alloc, start, letters)? {
        Reading::Legal(trace) => trace,
        Reading::Refused(_) => return Ok(false),
    };
    let mut cursor = Cursor::over(alloc, trace.steps);
    for step in moves {
        if !cursor.make(&trace.known, *step)? {
            return Ok(false);
        }
    }
    let steps = cursor.into_steps()?;
    Ok(are_named(&trace.known, &steps, to))
}

/// Whether the letters have these names, in turn.
fn are_named(known: &[Known], steps: &[Step], letters: &[Letter]) -> bool
    requires { AreInside known.now steps.now }
    ensures { IsTrue result ↔ (map named (letters_in known.now steps.now) ≡ letters.now) }
{
    if steps.len() != letters.len() {
        return false;
    }
    for number in 0..steps.len() {
        if !is_named(known, steps[number], &letters[number]) {
            return false;
        }
    }
    true
}

/// Whether the letter has this name.
fn is_named(known: &[Known], step: Step, letter: &Letter) -> bool
    requires { number_of step < length known.now }
    ensures { IsTrue result ↔ (named (letter_in known.now step) ≡ letter.now) }
{
    let event = &known[step.number()].event;
    match (step, letter) {
        (Step::Fire(_), Letter::Fire(name)) | (Step::Undo(_), Letter::Undo(name)) => {
            event.lead().is(name.lead()) && event.other().is(name.other())
        }
        (Step::Fire(_), Letter::Undo(_)) | (Step::Undo(_), Letter::Fire(_)) => false,
    }
}
