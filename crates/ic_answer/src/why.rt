ghost use Rattle.std.specs.Prelude.{◌≡◌, ◌++◌, List, All, map, IfOk, OnOk};
ghost use Rattle.std.specs.List.{flat_map};
ghost use Rattle.ic_path.specs.Orders.{IsIn};
ghost use Rattle.ic_roster.specs.Rosters.{Stander};
ghost use Rattle.ic_set.specs.Views.{events_of};
ghost use Rattle.ic_command.specs.declared.command.Command.TheVariants.{Why};
ghost use Rattle.ic_answer.specs.Texts.{answer_text, event_line};
ghost use Rattle.ic_answer.specs.Turns.{Tells};

use crate::answer::Answer;
use crate::named::{push_event, push_name};
use crate::refused::Refused;
use ic_journal::{Bench, LinkStore};
use ic_name::{EventId, EventName};
use std::alloc::{AllocError, Global};

/// The rank and the direct causes of a standing event.
pub(crate) fn why<L: LinkStore>(
    alloc: Global,
    bench: &Bench<L>,
    event: &EventName,
) -> Result<Answer, AllocError>
    ensures { IfOk result (λ answer. Tells bench.now (Why event.now) (answer_text answer)) }
{
    bench.lawful();
    let Some(id) = bench.event(event) else {
        return Ok(Answer::Refused(Refused::NotStanding));
    };
    let Some(rank) = bench.rank(id) else {
        return Ok(Answer::Refused(Refused::NotStanding));
    };
    let Some(causes) = bench.causes(id)? else {
        return Ok(Answer::Refused(Refused::NotStanding));
    };
    let mut text = Vec::from_slice(alloc, b"why ")?;
    push_name(&mut text, event)?;
    let counts = format!(in alloc; " rank {} causes {}\n", rank, causes.len())?.into_bytes();
    text.extend_from_slice(&counts)?;
    push_events(bench, &mut text, &causes)?;
    Ok(Answer::Text(text))
}

/// Puts a line with the names of each of these events at the end.
pub(crate) fn push_events<L: LinkStore>(
    bench: &Bench<L>,
    text: &mut Vec<u8>,
    events: &[EventId],
) -> Result<(), AllocError>
    ensures { OnOk result ((order : List Stander) → All (λ x. IsIn x bench.now.events) order → map (λ x. x.id) order ≡ events.now → text.new.items ≡ text.old.items ++ flat_map event_line (events_of order)) }
{
    for id in events {
        push_under(bench, text, *id)?;
    }
    Ok(())
}

/// Puts a line with the names of the event under an id at the end.
fn push_under<L: LinkStore>(
    bench: &Bench<L>,
    text: &mut Vec<u8>,
    id: EventId,
) -> Result<(), AllocError>
    ensures { OnOk result ((x : Stander) → IsIn x bench.now.events → x.id ≡ id → text.new.items ≡ text.old.items ++ event_line x.event) }
{
    bench.lawful();
    let Some(event) = bench.event_of(id)? else {
        return Ok(());
    };
    push_event(text, &event)
}
