ghost use Rattle.std.specs.Prelude.{◌≡◌, ◌≤◌, ◌<◌, ◌↔◌, List, [], length, option_map, None, IsTrue, IfOk};
ghost use Rattle.ic_name.specs.Events.{Event as AnEvent, pair};
ghost use Rattle.ic_name.specs.declared.limits.TheConstants.{MAX_LINES};
ghost use Rattle.ic_path.specs.Orders.{IsIn};
ghost use Rattle.ic_theory.specs.Active.{IsActive};
ghost use Rattle.ic_trace.specs.declared.known.Known.{Known as AKnown};
ghost use Rattle.ic_trace.specs.declared.lists.Letter.TheVariants.{Fire, Undo};
ghost use Rattle.ic_trace.specs.declared.reading.Step.TheVariants as step;
ghost use Rattle.ic_trace.specs.Known.{AreNumbered, IsNumberOf};
ghost use Rattle.ic_trace.specs.Noted.{AreCausesKnown, AreNumbersOfCauses, IsNoted};
ghost use Rattle.ic_trace.specs.Readings.{IsFollowed, ReadsAs, IsReadingOf, IsOnlyActive, AreInverse, number_of};

use crate::known::{EventTable, Known, rank_above};
use crate::lists::Letter;
use crate::past::Past;
use ic_name::{Event, EventName};
use ic_start::Start;
use std::alloc::{AllocError, Global};

/// A letter of a list, by the number of its event.
#[derive(Clone, Copy)]
pub(crate) enum Step {
    Fire(usize),
    Undo(usize),
}

impl Step {
    /// The number of the event.
    pub fn number(self) -> usize
        ensures { result ≡ number_of self }
    {
        match self {
            Step::Fire(number) | Step::Undo(number) => number,
        }
    }

    /// Whether one of the two letters undoes what the other one does.
    pub fn undoes(self, other: Step) -> bool
        ensures { IsTrue result ↔ AreInverse self other }
    {
        match (self, other) {
            (Step::Fire(number), Step::Undo(another)) | (Step::Undo(number), Step::Fire(another)) =>
                number == another,
            (Step::Fire(_), Step::Fire(_)) | (Step::Undo(_), Step::Undo(_)) => false,
        }
    }
}

/// A legal list of letters, and its events with what they were given.
#[derive(Drop)]
pub(crate) struct Trace {
    pub known: Vec<Known>,
    pub steps: Vec<Step>,
}

/// What reading a list gives: the list, or the number of the first letter that the start doesn't accept.
#[derive(Drop)]
pub(crate) enum Reading {
    Legal(Trace),
    Refused(usize),
}

/// Reads a list of letters.
pub(crate) fn read(alloc: Global, start: &Start, letters: &[Letter]) -> Result<Reading, AllocError>
    requires { length letters.now ≤ MAX_LINES }
    ensures { IfOk result (λ reading. IsReadingOf start.now letters.now reading) }
{
    let mut past = Past::over(alloc, start)?;
    read_over(alloc, &mut past, letters)
}

/// Reads a list of letters, when no event stands yet.
fn read_over(alloc: Global, past: &mut Past, letters: &[Letter]) -> Result<Reading, AllocError>
    requires nothing { past.old.events ≡ [] }
    requires few { length letters.now ≤ MAX_LINES }
    ensures { IfOk result (λ reading. IsReadingOf past.old.start letters.now reading) }
{
    past.lawful();
    let mut table = EventTable::new(alloc);
    let mut steps = Vec::new(alloc);
    for (number, letter) in letters.iter().enumerate() {
        match read_letter(alloc, past, &mut table, letter)? {
            Some(step) => steps.push(step)?,
            None => return Ok(Reading::Refused(number)),
        }
    }
    Ok(Reading::Legal(Trace {
        known: table.known,
        steps,
    }))
}

/// Reads a letter; `None` if it isn't accepted.
fn read_letter(
    alloc: Global,
    past: &mut Past,
    table: &mut EventTable,
    letter: &Letter,
) -> Result<Option<Step>, AllocError>
    requires followed { IsFollowed past.old table.old }
    requires few { length past.old.events < MAX_LINES }
    requires noted { length table.old.known.items < MAX_LINES }
    ensures { IfOk result (λ step. ReadsAs past.old table.old.known.items letter.now step past.new table.new) }
{
    match letter {
        Letter::Fire(name) => match read_firing(alloc, past, table, name)? {
            Some(number) => Ok(Some(Step::Fire(number))),
            None => Ok(None),
        },
        Letter::Undo(name) => match read_undo(past, table, name) {
            Some(number) => Ok(Some(Step::Undo(number))),
            None => Ok(None),
        },
    }
}

/// Reads a firing, and notes the event if it is new.
fn read_firing(
    alloc: Global,
    past: &mut Past,
    table: &mut EventTable,
    name: &EventName,
) -> Result<Option<usize>, AllocError>
    requires followed { IsFollowed past.old table.old }
    requires few { length past.old.events < MAX_LINES }
    requires noted { length table.old.known.items < MAX_LINES }
    ensures { IfOk result (λ number. ReadsAs past.old table.old.known.items (Fire name.now) (option_map step.Fire number) past.new table.new) }
{
    past.lawful();
    let Some(event) = event_of(past, name)? else {
        return Ok(None);
    };
    if !past.fire(&event)? {
        return Ok(None);
    }
    if let Some(number) = table.number(name.lead()) {
        return Ok(Some(number));
    }
    let number = note(alloc, past, table, name, event)?;
    Ok(Some(number))
}

/// Notes a standing event of this name, which isn't among the known ones yet, and gives its number.
fn note(
    alloc: Global,
    past: &Past,
    table: &mut EventTable,
    name: &EventName,
    event: Event,
) -> Result<usize, AllocError>
    requires numbered { AreNumbered table.old }
    requires noted { length table.old.known.items < MAX_LINES }
    requires low { (k : AKnown) → IsIn k table.old.known.items → k.rank < length table.old.known.items }
    requires name { pair event ≡ name.now }
    requires stands { IsIn event past.now.events }
    requires fresh { IsNumberOf table.old.known.items event.lead None }
    requires causes { AreCausesKnown past.now name.now table.old.known.items }
    ensures { IfOk result (λ number. IsNoted past.now name.now table.old.known.items event number table.new) }
{
    let causes = numbers_of_causes(alloc, past, table, name)?;
    let rank = rank_above(&table.known, &causes);
    table.add(Known {
        event,
        causes,
        rank,
    })
}

/// The numbers of the direct causes of the standing event of this name.
fn numbers_of_causes(
    alloc: Global,
    past: &Past,
    table: &EventTable,
    name: &EventName,
) -> Result<Vec<usize>, AllocError>
    requires numbered { AreNumbered table.now }
    requires stands { (e : AnEvent) × IsIn e past.now.events × (pair e ≡ name.now) }
    requires causes { AreCausesKnown past.now name.now table.now.known.items }
    ensures { IfOk result (λ numbers. AreNumbersOfCauses past.now name.now table.now.known.items numbers.items) }
{
    let Some(causes) = past.causes(name)? else {
        unreachable!()
    };
    table.numbers_of(alloc, &causes)
}

/// Reads an undo.
fn read_undo(past: &mut Past, table: &EventTable, name: &EventName) -> Option<usize>
    requires { IsFollowed past.old table.now }
    ensures { ReadsAs past.old table.now.known.items (Undo name.now) (option_map step.Undo result) past.new table.now }
{
    if !past.undo(name) {
        return None;
    }
    let Some(number) = table.number(name.lead()) else {
        unreachable!()
    };
    Some(number)
}

/// The event of this name that may be active; `None` if an agent of it isn't there.
fn event_of(past: &Past, name: &EventName) -> Result<Option<Event>, AllocError>
    ensures { IfOk result (λ event. IsOnlyActive past.now name.now event) }
{
    past.lawful();
    name.lawful();
    let Some(lead_kind) = past.kind(name.lead()) else {
        return Ok(None);
    };
    let Some(other_kind) = past.kind(name.other()) else {
        return Ok(None);
    };
    let lead = name.lead().copy()?;
    let other = name.other().copy()?;
    Ok(Event::of(lead, lead_kind, other, other_kind))
}
