ghost use Rattle.std.specs.Prelude.{IfOk};
ghost use Rattle.ic_command.specs.declared.question.Question.TheVariants.{Dependents};
ghost use Rattle.ic_answer.specs.BenchQuestions.{InformsOf};
ghost use Rattle.ic_answer.specs.Texts.{answer_text};

use crate::answer::Answer;
use crate::named::push_name;
use crate::refused::Refused;
use crate::why::push_events;
use ic_journal::{Bench, LinkStore};
use ic_name::EventName;
use ic_undo::resting_on;
use std::alloc::{AllocError, Global};

/// A standing event and all that depend on it: those that `unwind` would take back.
pub fn tell_dependents<L: LinkStore>(
    alloc: Global,
    bench: &Bench<L>,
    event: &EventName,
) -> Result<Answer, AllocError>
    ensures { IfOk result (λ answer. InformsOf bench.now (Dependents event.now) (answer_text answer)) }
{
    bench.lawful();
    let Some(id) = bench.event(event) else {
        return Ok(Answer::Refused(Refused::NotStanding));
    };
    let resting = resting_on(alloc, bench, id)?;
    let mut text = Vec::from_slice(alloc, b"dependents ")?;
    push_name(&mut text, event)?;
    let count = format!(in alloc; " events {}\n", resting.len())?.into_bytes();
    text.extend_from_slice(&count)?;
    push_events(bench, &mut text, &resting)?;
    Ok(Answer::Text(text))
}
