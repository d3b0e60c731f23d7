ghost use Rattle.std.specs.Prelude.{◌≡◌, ◌<◌, IfOk, MatchResult, OnErr};
ghost use Rattle.ic_command.specs.declared.command.Command.TheVariants.{Reduce};
ghost use Rattle.ic_answer.specs.Texts.{answer_text};
ghost use Rattle.ic_answer.specs.Changed.{HasChanged};
ghost use Rattle.ic_answer.specs.Longer.{IsLonger};
ghost use Rattle.ic_answer.specs.Turns.{TurnsByCommand};
ghost use Rattle.ic_answer.specs.Ends.{end_text};

use crate::answer::Answer;
use ic_journal::{Bench, End, Gate, LinkStore, fire_least};
use std::alloc::{AllocError, Global};

/// Fires the active pair with the least lead again and again, at most so often. An error if events were fired and there
/// is no memory to tell how many.
pub(crate) fn reduce<L: LinkStore, G: Gate>(
    alloc: Global,
    bench: &mut Bench<L>,
    most: u32,
    gate: &G,
) -> Result<Answer, AllocError>
    ensures turns { MatchResult result (λ answer. TurnsByCommand bench.old (Reduce most) (answer_text answer) bench.new) (λ _. bench.new.start ≡ bench.old.start) }
    ensures lines { IsLonger bench.old bench.new }
    ensures changed { OnErr result (HasChanged bench.old bench.new) }
{
    bench.lawful();
    let (fired, end) = fire_least(bench, most, gate, 0);
    bench.lawful();
    end_answer(alloc, fired, end)
}

/// The answer of a reduction that fired so many events and ended so. An error if there is no memory for it. None is needed
/// if no event was fired.
pub fn end_answer(alloc: Global, fired: u32, end: End) -> Result<Answer, AllocError>
    ensures answer { IfOk result (λ answer. answer_text answer ≡ end_text fired end) }
    ensures error { OnErr result (0 < fired) }
{
    if fired == 0 {
        return Ok(Answer::Unfired(end));
    }
    let text = end_text(alloc, fired, end)?;
    Ok(Answer::Text(text))
}

/// What is told of a reduction that fired so many events and ended so.
fn end_text(alloc: Global, fired: u32, end: End) -> Result<Vec<u8>, AllocError>
    ensures { IfOk result (λ text. text.items ≡ end_text fired end) }
{
    match end {
        End::Normal => Ok(format!(in alloc; "reduced {} normal\n", fired)?.into_bytes()),
        End::Budget => Ok(format!(in alloc; "reduced {} budget\n", fired)?.into_bytes()),
        End::Limit => Ok(format!(in alloc; "reduced {} limit\n", fired)?.into_bytes()),
        End::Memory => Ok(format!(in alloc; "refused 25 memory after {}\n", fired)?.into_bytes()),
    }
}
