ghost use Rattle.std.specs.Prelude.{◌≡◌, ◌≤◌, ℕ, [], List, All, length, map, IfOk};
ghost use Rattle.ic_path.specs.Orders.{IsIn};
ghost use Rattle.ic_roster.specs.Rosters.{Stander};
ghost use Rattle.ic_set.specs.Views.{events_of};
ghost use Rattle.ic_answer.specs.LastFired.{AreFiredSince, AreLastFired, AreSince, AreUndoneSince, UnstepsBench};
ghost use Rattle.ic_answer.specs.Longer.{IsLonger};
ghost use Rattle.ic_answer.specs.Texts.{answer_text};
ghost use Rattle.ic_answer.specs.Unstepped.{unstepped_text};

use crate::answer::Answer;
use crate::refused::Refused;
use crate::why::push_events;
use ic_journal::{Bench, LinkStore};
use ic_name::EventId;
use ic_name::limits::MAX_LINES;
use std::alloc::{AllocError, Global};

/// Undoes the standing event that was fired last, again and again, at most so often, and lists what it undid. The list is
/// made, and the room is reserved, before the first undo. If there is no memory, nothing has changed.
pub fn unstep<L: LinkStore>(alloc: Global, bench: &mut Bench<L>, most: u32) -> Answer
    ensures turns { UnstepsBench bench.old most (answer_text result) bench.new }
    ensures lines { IsLonger bench.old bench.new }
{
    bench.lawful();
    let room = MAX_LINES as u32 - bench.lines();
    if room == 0 && most > 0 && bench.standing_count() > 0 {
        return Answer::Refused(Refused::HistoryFull);
    }
    let Ok(ids) = last_fired(alloc, bench, most.min(room) as usize) else {
        return Answer::Refused(Refused::Memory);
    };
    let Ok(text) = unstepped_text(alloc, bench, &ids) else {
        return Answer::Refused(Refused::Memory);
    };
    let Ok(()) = bench.reserve(ids.len()) else {
        return Answer::Refused(Refused::Memory);
    };
    undo_in_turn(bench, &ids);
    Answer::Text(text)
}

/// The standing events that were fired last, the last one first: so many, or all if they are fewer. It goes down over the
/// lines of the history once.
fn last_fired<L: LinkStore>(
    alloc: Global,
    bench: &Bench<L>,
    most: usize,
) -> Result<Vec<EventId>, AllocError>
    ensures { IfOk result (λ ids. AreLastFired bench.now most ids.items) }
{
    bench.lawful();
    let mut ids = Vec::new(alloc);
    for line in (0..bench.lines()).rev() {
        if ids.len() == most {
            return Ok(ids);
        }
        if let Some(id) = bench.standing_of(line) {
            ids.push(id)?;
        }
    }
    Ok(ids)
}

/// How many events are undone, and which.
fn unstepped_text<L: LinkStore>(
    alloc: Global,
    bench: &Bench<L>,
    ids: &[EventId],
) -> Result<Vec<u8>, AllocError>
    ensures { IfOk result (λ text. (order : List Stander) → All (λ x. IsIn x bench.now.events) order → map (λ x. x.id) order ≡ ids.now → text.items ≡ unstepped_text (events_of order)) }
{
    let mut text = format!(in alloc; "unstepped {}\n", ids.len())?.into_bytes();
    push_events(bench, &mut text, ids)?;
    Ok(text)
}

/// Undoes these events, the first one first, with the room that is reserved. It takes no memory.
fn undo_in_turn<L: LinkStore>(bench: &mut Bench<L>, ids: &[EventId])
    requires last { (line : ℕ) × AreSince bench.old line ids.now }
    requires room { length ids.now ≤ bench.old.room }
    ensures { (line : ℕ) (order : List Stander) → AreFiredSince bench.old line order → map (λ x. x.id) order ≡ ids.now → AreUndoneSince bench.old line order [] bench.new }
{
    for id in ids {
        bench.lawful();
        let Ok(()) = bench.undo(*id) else {
            unreachable!()
        };
    }
}
