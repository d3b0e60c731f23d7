ghost use Rattle.std.specs.Prelude.{◌≡◌, ◌+◌, MatchResult, OnErr};
ghost use Rattle.ic_answer.specs.Changed.{HasChanged};
ghost use Rattle.ic_answer.specs.Texts.{answer_text};
ghost use Rattle.ic_command.specs.declared.request.Request.TheVariants.{Back};
ghost use Rattle.ic_desk.specs.Views.{IsDesk, TurnsByRequest};

use crate::named_mark::{NamedMark, place_of};
use crate::texts::{back_text, wanting_text};
use ic_answer::{Answer, Refused, text_or_refused};
use ic_command::MarkName;
use ic_journal::{Bench, LinkStore};
use ic_undo::{BackFault, Counts, back_since};
use std::alloc::{AllocError, Global};

/// Goes back to the mark of this name. It looks at the changes after just its events last stood. An error if events were
/// undone or fired and there is no memory for the answer.
pub(crate) fn go_back<L: LinkStore>(
    alloc: Global,
    bench: &mut Bench<L>,
    marks: &mut [NamedMark],
    name: &MarkName,
) -> Result<Answer, AllocError>
    requires { IsDesk (record { bench = bench.old; marks = marks.old }) }
    ensures turns { MatchResult result (λ answer. TurnsByRequest (record { bench = bench.old; marks = marks.old }) (Back name.now) (answer_text answer) (record { bench = bench.new; marks = marks.new })) (λ _. bench.new.start ≡ bench.old.start) }
    ensures desk { IsDesk (record { bench = bench.new; marks = marks.new }) }
    ensures changed { OnErr result (HasChanged bench.old bench.new) }
{
    bench.lawful();
    let Some(place) = place_of(marks, name) else {
        return Ok(Answer::Refused(Refused::NoMark));
    };
    let named = &marks[place];
    let mark = named.mark();
    mark.lawful();
    let went = back_since(alloc, bench, mark, named.since());
    bench.lawful();
    match went {
        Ok(counts) => {
            marks[place].stands_after(bench.lines() as usize);
            let text = back_text(alloc, name, counts);
            text_or_refused(text, changes(counts), Refused::MemoryBeforeBack)
        }
        Err(BackFault::HistoryFull) => Ok(Answer::Refused(Refused::HistoryFull)),
        Err(BackFault::Memory(counts)) => {
            let text = wanting_text(alloc, counts);
            text_or_refused(text, changes(counts), Refused::MemoryBeforeBack)
        }
    }
}

/// How many events were undone or fired.
fn changes(counts: Counts) -> usize
    ensures { result ≡ counts.undone + counts.fired }
{
    counts.undone as usize + counts.fired as usize
}
