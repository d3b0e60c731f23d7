ghost use Rattle.std.specs.Prelude.{◌≡◌, MatchResult, OnErr};
ghost use Rattle.ic_answer.specs.Texts.{answer_text};
ghost use Rattle.ic_answer.specs.Changed.{HasChanged};
ghost use Rattle.ic_answer.specs.Longer.{IsLonger};
ghost use Rattle.ic_answer.specs.Turns.{TurnsByCommand};

use crate::answer::Answer;
use crate::changing::{fire, undo};
use crate::reading;
use crate::reducing::reduce;
use crate::refused::Refused;
use crate::unwinding::{undo_everything, undo_with_dependents};
use crate::why::why;
use ic_command::Command;
use ic_journal::{Bench, Gate, LinkStore};
use std::alloc::{AllocError, Global};

/// Carries out a command over a bench. If there is no memory for it, the answer is a refusal, and then neither net nor
/// standing set have changed, except for what a `reduce` says that it has fired. An error only if other events stand than
/// before and there is no memory for the answer. The start stays the same in each case, and the history only grows. The
/// gate sees each commit of a `reduce`.
pub fn carry_out<L: LinkStore, G: Gate>(
    alloc: Global,
    bench: &mut Bench<L>,
    command: Command,
    gate: &G,
) -> Result<Answer, AllocError>
    ensures turns { MatchResult result (λ answer. TurnsByCommand bench.old command (answer_text answer) bench.new) (λ _. bench.new.start ≡ bench.old.start) }
    ensures lines { IsLonger bench.old bench.new }
    ensures changed { OnErr result (HasChanged bench.old bench.new) }
{
    match command {
        Command::Nothing => Ok(Answer::Text(Vec::new(alloc))),
        Command::Malformed => Ok(Answer::Refused(Refused::Command)),
        Command::Net => Ok(Answer::text_or_memory(reading::net(alloc, bench))),
        Command::Active => Ok(Answer::text_or_memory(reading::active(alloc, bench))),
        Command::Journal => Ok(Answer::text_or_memory(bench.journal())),
        Command::Why(event) => Ok(Answer::answer_or_memory(why(alloc, bench, &event))),
        Command::Fire(event) => Ok(fire(alloc, bench, &event)),
        Command::Undo(event) => Ok(undo(alloc, bench, &event)),
        Command::Unwind(event) => undo_with_dependents(alloc, bench, &event),
        Command::UndoAll => undo_everything(alloc, bench),
        Command::Reduce(most) => reduce(alloc, bench, most, gate),
    }
}
