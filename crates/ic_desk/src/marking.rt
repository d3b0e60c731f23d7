ghost use Rattle.std.specs.Prelude.{◌≡◌, MatchResult, OnErr, OnOk};
ghost use Rattle.ic_answer.specs.Texts.{answer_text};
ghost use Rattle.ic_command.specs.declared.request.Request.TheVariants.{Mark};
ghost use Rattle.ic_desk.specs.Places.{IsPlaceIn, PutsAt};
ghost use Rattle.ic_desk.specs.Views.{IsDesk, TurnsByRequest};

use crate::desk::MAX_MARKS;
use crate::named_mark::{NamedMark, place_of};
use crate::texts::marked_text;
use ic_answer::{Answer, Refused};
use ic_command::MarkName;
use ic_journal::{Bench, LinkStore};
use ic_undo::mark;
use std::alloc::{AllocError, Global};

/// Marks what stands on the bench under the name, in place of the mark that has it or as a further one. If memory
/// runs out, the answer is a refusal, and no mark has changed.
pub(crate) fn mark_under<L: LinkStore>(
    alloc: Global,
    bench: &Bench<L>,
    marks: &mut Vec<NamedMark>,
    name: MarkName,
) -> Answer
    requires { IsDesk (record { bench = bench.now; marks = marks.old.items }) }
    ensures turns { TurnsByRequest (record { bench = bench.now; marks = marks.old.items }) (Mark name) (answer_text result) (record { bench = bench.now; marks = marks.new.items }) }
    ensures desk { IsDesk (record { bench = bench.now; marks = marks.new.items }) }
{
    match marked(alloc, bench, marks, name) {
        Ok(answer) => answer,
        Err(_) => Answer::Refused(Refused::Memory),
    }
}

/// The same, but for an error if memory runs out. The mark and the answer's text are made before a mark changes.
fn marked<L: LinkStore>(
    alloc: Global,
    bench: &Bench<L>,
    marks: &mut Vec<NamedMark>,
    name: MarkName,
) -> Result<Answer, AllocError>
    requires { IsDesk (record { bench = bench.now; marks = marks.old.items }) }
    ensures turns { MatchResult result (λ answer. TurnsByRequest (record { bench = bench.now; marks = marks.old.items }) (Mark name) (answer_text answer) (record { bench = bench.now; marks = marks.new.items })) (λ _. marks.new.items ≡ marks.old.items) }
    ensures desk { IsDesk (record { bench = bench.now; marks = marks.new.items }) }
{
    let place = place_of(marks, &name);
    let full = marks.len() >= MAX_MARKS;
    if place.is_none() && full {
        return Ok(Answer::Refused(Refused::TooManyMarks));
    }
    bench.lawful();
    let mark = mark(alloc, bench)?;
    let text = marked_text(alloc, &name, mark.event_count())?;
    let since = bench.lines() as usize;
    put(marks, place, NamedMark { name, mark, since })?;
    Ok(Answer::Text(text))
}

/// Puts the mark at the place, or after all others.
fn put(marks: &mut Vec<NamedMark>, place: Option<usize>, mark: NamedMark) -> Result<(), AllocError>
    requires { IsPlaceIn marks.old.items place }
    ensures puts { OnOk result (PutsAt marks.old.items place mark marks.new.items) }
    ensures same { OnErr result (marks.new.items ≡ marks.old.items) }
{
    match place {
        Some(place) => {
            marks[place] = mark;
        }
        None => {
            marks.push(mark)?;
        }
    }
    Ok(())
}
