ghost use Rattle.std.specs.Prelude.{◌≡◌, List, [], ◌∷◌, Some, None, slice_get, IfOk, IfSome, IfNone};
ghost use Rattle.ic_name.specs.Events.{Event as AnEvent};
ghost use Rattle.ic_path.specs.Orders.{Alike};
ghost use Rattle.ic_set.specs.Views.{standing as standing_in};
ghost use Rattle.ic_journal.specs.Views.{set_of};
ghost use Rattle.ic_trace.specs.Accepted.{accepted, letter_of, event_in};
ghost use Rattle.ic_trace.specs.Letters.{Leaves};

use crate::lists::Letter;
use ic_journal::{Bench, LinkStore};
use ic_name::{Call, Event, Line, Reply};
use std::alloc::{AllocError, Global};

/// The letters of the accepted calls of a bench, in order: they are legal over its start, and leave what stands.
pub fn letters<L: LinkStore>(alloc: Global, bench: &Bench<L>) -> Result<Vec<Letter>, AllocError>
    ensures accepted { IfOk result (λ letters. letters.items ≡ accepted bench.now.lines) }
    ensures standing { IfOk result (λ letters. (es : List AnEvent) × Leaves bench.now.start letters.items es × Alike es (standing_in (set_of bench.now))) }
{
    bench.lawful();
    let lines = bench.history()?;
    letters_of(alloc, &lines)
}

/// The letters of the accepted calls of a history.
fn letters_of(alloc: Global, lines: &[Line]) -> Result<Vec<Letter>, AllocError>
    ensures { IfOk result (λ letters. letters.items ≡ accepted lines.now) }
{
    let mut letters = Vec::new(alloc);
    for line in lines {
        if let Some(letter) = accepted_in(lines, line)? {
            letters.push(letter)?;
        }
    }
    Ok(letters)
}

/// The letter of a line, if its call was accepted.
fn accepted_in(lines: &[Line], line: &Line) -> Result<Option<Letter>, AllocError>
    ensures some { IfOk result (λ found. IfSome found (λ letter. letter_of lines.now line.now ≡ letter ∷ [])) }
    ensures none { IfOk result (λ found. IfNone found (letter_of lines.now line.now ≡ [])) }
{
    match (&line.call, line.reply) {
        (Call::Fire(event), Reply::Fired) => Ok(Some(Letter::Fire(event.name()?))),
        (Call::Undo(number), Reply::Undone) => match fired_in(lines, *number) {
            Some(event) => Ok(Some(Letter::Undo(event.name()?))),
            None => Ok(None),
        },
        _ => Ok(None),
    }
}

/// The event to be fired in the line of this number, if there is one.
fn fired_in(lines: &[Line], number: u32) -> Option<&Event>
    ensures some { IfSome result (λ event. event_in (slice_get lines.now number) ≡ Some event.now) }
    ensures none { IfNone result (event_in (slice_get lines.now number) ≡ None) }
{
    match lines.get(number as usize) {
        Some(line) => match &line.call {
            Call::Fire(event) => Some(event),
            Call::Undo(_) => None,
        },
        None => None,
    }
}
