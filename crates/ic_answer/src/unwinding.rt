ghost use Rattle.std.specs.Prelude.{◌≡◌, ◌++◌, [], codes, length, IfOk, MatchResult, OnErr, OnOk};
ghost use Rattle.std.specs.Fmt.{decimal};
ghost use Rattle.std.specs.List.{flat_map};
ghost use Rattle.ic_command.specs.declared.command.Command.TheVariants.{UndoAll, Unwind};
ghost use Rattle.ic_answer.specs.Texts.{answer_text, pair_line, undone_all_text};
ghost use Rattle.ic_answer.specs.Changed.{HasChanged};
ghost use Rattle.ic_answer.specs.Longer.{IsLonger};
ghost use Rattle.ic_answer.specs.Turns.{TurnsByCommand};

use crate::answer::Answer;
use crate::named::push_name;
use crate::refused::Refused;
use crate::untold::text_or_refused;
use ic_journal::{Bench, LinkStore};
use ic_name::EventName;
use ic_undo::{UndoAllFault, UnwindFault, clear, unwind};
use std::alloc::{AllocError, Global};

/// Undoes an event with all that depends on it. An error if events were undone and there is no memory to tell which.
pub(crate) fn undo_with_dependents<L: LinkStore>(
    alloc: Global,
    bench: &mut Bench<L>,
    event: &EventName,
) -> Result<Answer, AllocError>
    ensures turns { MatchResult result (λ answer. TurnsByCommand bench.old (Unwind event.now) (answer_text answer) bench.new) (λ _. bench.new.start ≡ bench.old.start) }
    ensures lines { IsLonger bench.old bench.new }
    ensures changed { OnErr result (HasChanged bench.old bench.new) }
{
    bench.lawful();
    let Some(id) = bench.event(event) else {
        return Ok(Answer::Refused(Refused::NotStanding));
    };
    let unwound = unwind(alloc, bench, id);
    bench.lawful();
    match unwound {
        Ok(names) => {
            let text = unwound_text(alloc, &names);
            text_or_refused(text, names.len(), Refused::Memory)
        }
        Err(UnwindFault::NotStanding) => Ok(Answer::Refused(Refused::NotStanding)),
        Err(UnwindFault::HistoryFull) => Ok(Answer::Refused(Refused::HistoryFull)),
        Err(UnwindFault::Memory) => Ok(Answer::Refused(Refused::Memory)),
    }
}

/// Undoes all events. An error if events were undone and there is no memory to tell how many.
pub(crate) fn undo_everything<L: LinkStore>(
    alloc: Global,
    bench: &mut Bench<L>,
) -> Result<Answer, AllocError>
    ensures turns { MatchResult result (λ answer. TurnsByCommand bench.old UndoAll (answer_text answer) bench.new) (λ _. bench.new.start ≡ bench.old.start) }
    ensures lines { IsLonger bench.old bench.new }
    ensures changed { OnErr result (HasChanged bench.old bench.new) }
{
    bench.lawful();
    let cleared = clear(bench);
    bench.lawful();
    match cleared {
        Ok(count) => text_or_refused(undone_all_text(alloc, count), count, Refused::Memory),
        Err(UndoAllFault::HistoryFull) => Ok(Answer::Refused(Refused::HistoryFull)),
        Err(UndoAllFault::Memory) => Ok(Answer::Refused(Refused::Memory)),
    }
}

/// How many events were undone.
fn undone_all_text(alloc: Global, count: usize) -> Result<Vec<u8>, AllocError>
    ensures { IfOk result (λ text. text.items ≡ undone_all_text count) }
{
    Ok(format!(in alloc; "undone-all {}\n", count)?.into_bytes())
}

/// How many events were undone, and which.
fn unwound_text(alloc: Global, names: &[EventName]) -> Result<Vec<u8>, AllocError>
    ensures { IfOk result (λ text. text.items ≡ codes "unwound " ++ decimal (length names.now) ++ codes "\n" ++ flat_map (pair_line []) names.now) }
{
    let mut text = format!(in alloc; "unwound {}\n", names.len())?.into_bytes();
    for name in names {
        push_line(&mut text, name)?;
    }
    Ok(text)
}

/// Puts a line with the names of an event at the end.
fn push_line(text: &mut Vec<u8>, name: &EventName) -> Result<(), AllocError>
    ensures { OnOk result (text.new.items ≡ text.old.items ++ pair_line [] name.now) }
{
    push_name(text, name)?;
    text.push(b'\n')?;
    Ok(())
}
