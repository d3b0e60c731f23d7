ghost use Rattle.std.specs.Prelude.{◌≡◌, ◌≢◌, ◌⊎◌, codes};
ghost use Rattle.ic_name.specs.Events.{Event as AnEvent, pair};
ghost use Rattle.ic_path.specs.Orders.{IsIn};
ghost use Rattle.ic_roster.specs.Rosters.{Stander};
ghost use Rattle.ic_answer.specs.declared.refused.Refused.TheVariants.{Memory};
ghost use Rattle.ic_command.specs.declared.command.Command.TheVariants.{Fire, Undo};
ghost use Rattle.ic_answer.specs.Texts.{answer_text, pair_line, refusal_text};
ghost use Rattle.ic_answer.specs.Longer.{IsLonger};
ghost use Rattle.ic_answer.specs.Turns.{TurnsByCommand};
ghost use Rattle.ic_journal.specs.Views.{set_of};
ghost use Rattle.ic_set.specs.Views.{standing};
ghost use Rattle.ic_theory.specs.Active.{IsActive};

use crate::answer::Answer;
use crate::named::{event_line, name_line};
use crate::refused::Refused;
use crate::stepping::refused_for;
use ic_journal::{Bench, FireFault, LinkStore, UndoFault};
use ic_name::{EventId, EventName};
use std::alloc::Global;

/// Fires an event. Its answer is made before it is fired. Only an event that isn't active takes a proposal.
pub(crate) fn fire<L: LinkStore>(alloc: Global, bench: &mut Bench<L>, event: &EventName) -> Answer
    ensures turns { TurnsByCommand bench.old (Fire event.now) (answer_text result) bench.new }
    ensures lines { IsLonger bench.old bench.new }
{
    bench.lawful();
    let Some(pair) = bench.pair_named(event) else {
        return refuse_inactive(bench, event);
    };
    let Ok(text) = name_line(alloc, b"fired ", event) else {
        return Answer::Refused(Refused::Memory);
    };
    let fired = bench.fire_pair(pair);
    bench.lawful();
    match fired {
        Ok(_) => Answer::Text(text),
        Err(fault) => Answer::Refused(refused_for(fault)),
    }
}

/// Refuses to fire an event that isn't active. If both agents are there, the history gets a line by a proposal.
fn refuse_inactive<L: LinkStore>(bench: &mut Bench<L>, event: &EventName) -> Answer
    requires { (e : AnEvent) → IsActive bench.old.start (standing (set_of bench.old)) e → pair e ≢ event.now }
    ensures turns { TurnsByCommand bench.old (Fire event.now) (answer_text result) bench.new }
    ensures lines { IsLonger bench.old bench.new }
{
    bench.lawful();
    event.lawful();
    let Some(lead) = bench.agent(event.lead()) else {
        return Answer::Refused(Refused::NotActive);
    };
    let Some(other) = bench.agent(event.other()) else {
        return Answer::Refused(Refused::NotActive);
    };
    let Ok(proposal) = bench.propose(lead, other) else {
        return Answer::Refused(Refused::Memory);
    };
    let fired = bench.fire(proposal);
    bench.lawful();
    match fired {
        Ok(_) => unreachable!(),
        Err(FireFault::NotActive) => Answer::Refused(Refused::NotActive),
        Err(FireFault::Deep) => unreachable!(),
        Err(FireFault::Full) => unreachable!(),
        Err(FireFault::HistoryFull(_)) => Answer::Refused(Refused::HistoryFull),
        Err(FireFault::Memory(_)) => Answer::Refused(Refused::Memory),
    }
}

/// Undoes the firing of an event. Its answer is made before.
pub(crate) fn undo<L: LinkStore>(alloc: Global, bench: &mut Bench<L>, event: &EventName) -> Answer
    ensures turns { TurnsByCommand bench.old (Undo event.now) (answer_text result) bench.new }
    ensures lines { IsLonger bench.old bench.new }
{
    let Some(id) = bench.event(event) else {
        return Answer::Refused(Refused::NotStanding);
    };
    let Ok(text) = name_line(alloc, b"undone ", event) else {
        return Answer::Refused(Refused::Memory);
    };
    let undone = bench.undo(id);
    bench.lawful();
    match undone {
        Ok(()) => Answer::Text(text),
        Err(UndoFault::NotStanding) => Answer::Refused(Refused::NotStanding),
        Err(UndoFault::Held(holder)) => held(alloc, bench, holder),
        Err(UndoFault::HistoryFull) => Answer::Refused(Refused::HistoryFull),
        Err(UndoFault::Memory) => Answer::Refused(Refused::Memory),
    }
}

/// That this event depends on another one.
fn held<L: LinkStore>(alloc: Global, bench: &Bench<L>, holder: EventId) -> Answer
    ensures { (x : Stander) → IsIn x bench.now.events → x.id ≡ holder → (answer_text result ≡ pair_line (codes "refused 32 held by ") (pair x.event)) ⊎ (answer_text result ≡ refusal_text Memory) }
{
    bench.lawful();
    let Ok(Some(event)) = bench.event_of(holder) else {
        return Answer::Refused(Refused::Memory);
    };
    match event_line(alloc, b"refused 32 held by ", &event) {
        Ok(text) => Answer::Text(text),
        Err(_) => Answer::Refused(Refused::Memory),
    }
}
