ghost use Rattle.std.specs.Prelude.{◌≡◌, ◌++◌, List, IfOk, OnOk, All, map};
ghost use Rattle.std.specs.List.{flat_map};
ghost use Rattle.ic_path.specs.Orders.{IsIn};
ghost use Rattle.ic_roster.specs.Rosters.{Stander};
ghost use Rattle.ic_set.specs.Views.{events_of};
ghost use Rattle.ic_theory.specs.Machine.{State, events};
ghost use Rattle.ic_journal.specs.Benches.{IsAt};
ghost use Rattle.ic_command.specs.declared.question.Question.TheVariants.{Causes};
ghost use Rattle.ic_answer.specs.BenchQuestions.{InformsOf};
ghost use Rattle.ic_answer.specs.Caused.{AddsCaused, cause_word};

use crate::named::push_event_name;
use ic_journal::{Bench, LinkStore};
use ic_name::EventId;
use std::alloc::{AllocError, Global};

/// All standing events in canonical order, each with its rank and its direct causes.
pub fn tell_causes<L: LinkStore>(alloc: Global, bench: &Bench<L>) -> Result<Vec<u8>, AllocError>
    ensures { IfOk result (λ text. InformsOf bench.now Causes text.items) }
{
    bench.lawful();
    let ids = bench.standing()?;
    let mut text = format!(in alloc; "causes {}\n", ids.len())?.into_bytes();
    for id in &ids {
        push_caused(alloc, bench, &mut text, *id)?;
    }
    Ok(text)
}

/// Puts a line with the names of a standing event, its rank and its direct causes at the end.
fn push_caused<L: LinkStore>(
    alloc: Global,
    bench: &Bench<L>,
    text: &mut Vec<u8>,
    id: EventId,
) -> Result<(), AllocError>
    ensures { OnOk result ((st : State) → IsAt bench.now st → (x : Stander) → IsIn x bench.now.events → x.id ≡ id → AddsCaused bench.now.start (events st) x.event text.old.items text.new.items) }
{
    bench.lawful();
    let Some(event) = bench.event_of(id)? else {
        return Ok(());
    };
    let Some(rank) = bench.rank(id) else {
        return Ok(());
    };
    let Some(causes) = bench.causes(id)? else {
        return Ok(());
    };
    push_event_name(text, &event)?;
    let counts = format!(in alloc; " rank {} causes {}", rank, causes.len())?.into_bytes();
    text.extend_from_slice(&counts)?;
    push_causes(bench, text, &causes)?;
    text.push(b'\n')?;
    Ok(())
}

/// Puts a blank and the names of each of these events at the end.
fn push_causes<L: LinkStore>(
    bench: &Bench<L>,
    text: &mut Vec<u8>,
    causes: &[EventId],
) -> Result<(), AllocError>
    ensures { OnOk result ((order : List Stander) → All (λ x. IsIn x bench.now.events) order → map (λ x. x.id) order ≡ causes.now → text.new.items ≡ text.old.items ++ flat_map cause_word (events_of order)) }
{
    for id in causes {
        push_cause(bench, text, *id)?;
    }
    Ok(())
}

/// Puts a blank and the names of the event under an id at the end.
fn push_cause<L: LinkStore>(
    bench: &Bench<L>,
    text: &mut Vec<u8>,
    id: EventId,
) -> Result<(), AllocError>
    ensures { OnOk result ((x : Stander) → IsIn x bench.now.events → x.id ≡ id → text.new.items ≡ text.old.items ++ cause_word x.event) }
{
    bench.lawful();
    let Some(event) = bench.event_of(id)? else {
        return Ok(());
    };
    text.push(b' ')?;
    push_event_name(text, &event)
}
