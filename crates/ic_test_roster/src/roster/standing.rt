ghost use Rattle.std.specs.Prelude.{◌≡◌, ◌≢◌, ◌+◌, ◌≤◌, length, All, IsTrue, IfSome};
ghost use Rattle.ic_path.specs.Orders.{IsIn, IsOnce};
ghost use Rattle.ic_name.specs.declared.ids.AgentId.{AgentId as AnAgentId};
ghost use Rattle.ic_name.specs.declared.ids.EventId.{EventId as AnEventId};
ghost use Rattle.ic_roster.specs.Rosters.{Stander, Stands, IsNamed};

use crate::name::{agents_of, event_name};
use ic_name::{AgentId, AgentName, EventId, Kind};
use ic_names::NameId;
use ic_roster::{EventIds, Interaction, NewEvent, Roster};
use std::alloc::Global;
use std::cmp::Ordering;

/// The event of two start agents, a gamma and an epsilon, by the places of their names, which are entered. It is `None`
/// where the first has not the lesser name.
pub(crate) fn interaction(
    alloc: Global,
    roster: &mut Roster,
    lead: u16,
    other: u16,
) -> Option<Interaction>
    ensures named { IfSome result (λ i. IsNamed roster.new.names i) }
    ensures events { roster.new.events ≡ roster.old.events }
{
    let lead_name = AgentName::start(alloc, lead)?;
    let other_name = AgentName::start(alloc, other)?;
    entered(roster, &lead_name, &other_name)
}

/// The same of two agents with these names.
fn entered(
    roster: &mut Roster,
    lead_name: &AgentName,
    other_name: &AgentName,
) -> Option<Interaction>
    ensures named { IfSome result (λ i. IsNamed roster.new.names i) }
    ensures events { roster.new.events ≡ roster.old.events }
{
    roster.enter_name(lead_name).ok()?;
    roster.enter_name(other_name).ok()?;
    let lead = roster.names().find(lead_name)?;
    let other = roster.names().find(other_name)?;
    match roster.names().cmp(lead, other) {
        Ordering::Less => Some(Interaction {
            lead,
            lead_kind: Kind::Gamma,
            other,
            other_kind: Kind::Eps,
        }),
        _ => None,
    }
}

/// Whether no event stands that was fired in this line.
pub(crate) fn line_is_new(alloc: Global, roster: &Roster, line: u32) -> Option<bool>
    ensures { IfSome result (λ new. IsTrue new → (x : Stander) → IsIn x roster.now.events → x.id.line ≢ line) }
{
    match roster.event_ids(alloc) {
        Ok(ids) => Some(are_elsewhere(&ids, line)),
        Err(_) => None,
    }
}

/// Whether these events were all fired in other lines than this.
fn are_elsewhere(ids: &[EventId], line: u32) -> bool
    ensures { IsTrue result → All (λ (id : AnEventId). id.line ≢ line) ids.now }
{
    ids.iter().all(|id| id.line != line)
}

/// Whether the serial number of each of these agents is one more than the line.
fn are_children(born: &[AgentId], line: u32) -> bool
    ensures { IsTrue result → All (λ (a : AnAgentId). a.serial ≡ line + 1) born.now }
{
    let Some(serial) = line.checked_add(1) else {
        return false;
    };
    born.iter().all(|agent| agent.serial == serial)
}

/// Enters the event of two start agents after these causes, with rank 7 and at most four children. It is `None` where one of
/// this line or this lead stands, or where the agents aren't children of an event of this line.
pub(crate) fn stand_after(
    alloc: Global,
    roster: &mut Roster,
    agents: (u16, u16),
    line: u32,
    born: &[AgentId],
    causes: &[EventId],
) -> Option<EventId>
    requires standing { All (Stands roster.old.events) causes.now }
    requires once { IsOnce causes.now }
    requires four { length born.now ≤ 4 }
    ensures there { IfSome result (λ id. Stands roster.new.events id) }
    ensures in_line { IfSome result (λ id. id.line ≡ line) }
    ensures kept { (d : AnEventId) → Stands roster.old.events d → Stands roster.new.events d }
{
    let interaction = interaction(alloc, roster, agents.0, agents.1)?;
    let new = line_is_new(alloc, roster, line)?;
    if !new || !are_children(born, line) {
        return None;
    }
    match roster.led_by(interaction.lead) {
        Some(_) => None,
        None => {
            let event = NewEvent {
                interaction,
                rank: 7,
                born,
                causes,
            };
            roster.insert_event(line, &event).ok()
        }
    }
}

/// The same without causes.
fn stand(
    alloc: Global,
    roster: &mut Roster,
    agents: (u16, u16),
    line: u32,
    born: &[AgentId],
) -> Option<EventId>
    requires four { length born.now ≤ 4 }
{
    stand_after(alloc, roster, agents, line, born, &[])
}

/// Whether this is the id found for the event of two start agents, or none is found where none is given.
fn finds(alloc: Global, roster: &Roster, a: u16, b: u16, id: Option<EventId>) -> bool {
    match event_name(alloc, a, b) {
        Some(name) => roster.find_event(&name) == id,
        None => false,
    }
}

/// Whether this is the id of the event with this lead, or none has it where none is given. The lead's name is known.
fn is_led(alloc: Global, roster: &Roster, lead: u16, id: Option<EventId>) -> Option<bool> {
    let name = AgentName::start(alloc, lead)?;
    let place = roster.names().find(&name)?;
    Some(roster.led_by(place) == id)
}

/// How many events there are, and whether none is found, by an id or a name, and line 0 is new.
fn at_first(alloc: Global, roster: &Roster) -> Option<(usize, bool)> {
    let none = roster.event(EventId { slot: 0, line: 0 }).is_none()
        && finds(alloc, roster, 9, 3, None);
    Some((roster.event_count(), none && line_is_new(alloc, roster, 0)?))
}

/// What is read of an event: its agents and their kinds, the lead's first, and its rank.
type Read = ((u16, Kind, u16, Kind), u32);

/// What is read of the event under an id.
fn read(roster: &Roster, id: EventId) -> Option<Read> {
    let entry = roster.event(id)?;
    let event = roster.read(entry.interaction).ok()?;
    Some((agents_of(&event), entry.rank))
}

/// Whether these ids are read, in this order.
fn are_read(mut ids: EventIds<'_>, expected: &[EventId]) -> bool {
    for id in expected {
        if ids.next() != Some(*id) {
            return false;
        }
    }
    ids.next().is_none()
}

/// Whether an event stands under an id, and these are its causes.
pub(crate) fn has_causes(roster: &Roster, id: EventId, causes: &[EventId]) -> bool {
    roster.event(id).is_some() && are_read(roster.event_causes(id), causes)
}

/// The ids of two agents.
const BORN: [AgentId; 2] = [
    AgentId { slot: 2, serial: 5 },
    AgentId { slot: 0, serial: 5 },
];

/// Enters the event of the agents 3 and 9 in line 4, of which two agents are born. Its line, how many events there are then,
/// what is read of it, and whether it is found by its agents in either order, and no other event is.
fn told_of_one(alloc: Global, roster: &mut Roster) -> Option<(u32, usize, Read, bool)> {
    let id = stand(alloc, roster, (3, 9), 4, &BORN)?;
    roster.lawful();
    let found = has_causes(roster, id, &[])
        && finds(alloc, roster, 3, 9, Some(id))
        && finds(alloc, roster, 9, 3, Some(id))
        && finds(alloc, roster, 3, 2, None);
    Some((id.line, roster.event_count(), read(roster, id)?, found))
}

/// Whether neither another event in line 4 stands then nor one with the lead 3.
fn stands_alone(alloc: Global, roster: &mut Roster) -> bool {
    stand(alloc, roster, (5, 9), 4, &[]).is_none()
        && stand(alloc, roster, (3, 5), 6, &[]).is_none()
        && roster.event_count() == 1
}

#[test]
fn an_event_is_found_and_read_and_takes_its_line_and_its_lead(rt: HostRuntime) {
    let mut roster = Roster::new(rt.alloc());
    assert_eq!(rt; at_first(rt.alloc(), &roster), Some((0, true)));
    let read = ((3, Kind::Gamma, 9, Kind::Eps), 7);
    assert_eq!(rt;
        told_of_one(rt.alloc(), &mut roster),
        Some((4, 1, read, true))
    );
    assert_eq!(rt; line_is_new(rt.alloc(), &roster, 4), Some(false));
    assert_eq!(rt; line_is_new(rt.alloc(), &roster, 5), Some(true));
    assert!(rt; stands_alone(rt.alloc(), &mut roster));
}

/// Whether the event under an id goes, and answers a lead of this start number.
fn goes(alloc: Global, roster: &mut Roster, id: EventId, lead: u16) -> bool {
    let Some(name) = AgentName::start(alloc, lead) else {
        return false;
    };
    match take_out(roster, id) {
        Some(place) => roster.names().is(place, &name),
        None => false,
    }
}

/// The event under an id goes, if one stands under it that is no cause of another.
pub(crate) fn take_out(roster: &mut Roster, id: EventId) -> Option<NameId> {
    let dependent = roster.event_dependents(id).next();
    match dependent {
        Some(_) => None,
        None => roster.remove_event(id),
    }
}

/// Whether the event of the agents 3 and 9 goes once, and how many events there are then.
fn goes_once(alloc: Global, roster: &mut Roster) -> Option<(bool, usize)> {
    let id = stand(alloc, roster, (3, 9), 4, &BORN)?;
    let gone = goes(alloc, roster, id, 3) && take_out(roster, id).is_none();
    Some((gone, roster.event_count()))
}

/// Whether an event goes, stands again in the same slot, and is found by its new id alone.
fn stands_again(alloc: Global, roster: &mut Roster) -> Option<bool> {
    let old = stand(alloc, roster, (1, 2), 0, &[])?;
    let gone = goes(alloc, roster, old, 1);
    let new = stand(alloc, roster, (1, 2), 2, &[])?;
    let found = roster.event(old).is_none() && roster.event(new).is_some();
    Some(gone && new.slot == old.slot && found)
}

#[test]
fn an_event_that_goes_answers_its_lead_and_its_slot_is_filled_again(rt: HostRuntime) {
    let mut roster = Roster::new(rt.alloc());
    assert_eq!(rt; goes_once(rt.alloc(), &mut roster), Some((true, 0)));
    assert_eq!(rt; stands_again(rt.alloc(), &mut roster), Some(true));
}

/// Whether the ids are those that are listed, each of which is listed once, in whatever order.
pub(crate) fn are_alike(listed: &[EventId], ids: &[EventId]) -> bool {
    for id in ids {
        if !listed.contains(id) {
            return false;
        }
    }
    listed.len() == ids.len()
}

/// Whether these are the ids of all events, each once, in whatever order.
fn are_ids(alloc: Global, roster: &Roster, ids: &[EventId]) -> bool {
    match roster.event_ids(alloc) {
        Ok(listed) => are_alike(&listed, ids),
        Err(_) => false,
    }
}

/// Whether the events of the agents 3 and 9 and of 5 and 9 have these ids, by their names and the second by its lead, and no
/// other event is found.
fn are_found(alloc: Global, roster: &Roster, first: EventId, second: EventId) -> Option<bool> {
    let found = are_ids(alloc, roster, &[first, second])
        && finds(alloc, roster, 3, 9, Some(first))
        && finds(alloc, roster, 5, 9, Some(second))
        && finds(alloc, roster, 5, 3, None);
    let led = is_led(alloc, roster, 5, Some(second))? && is_led(alloc, roster, 9, None)?;
    Some(found && led)
}

/// Whether the first of them goes, and is then found no more by its id, its name or its lead, and its line is new.
fn first_goes(alloc: Global, roster: &mut Roster, first: EventId) -> Option<bool> {
    let gone = goes(alloc, roster, first, 3) && roster.event(first).is_none();
    let free = line_is_new(alloc, roster, 4)? && is_led(alloc, roster, 3, None)?;
    Some(gone && free && finds(alloc, roster, 3, 9, None))
}

/// Whether another event with the same lead is found, once it stands.
fn next_is_found(alloc: Global, roster: &mut Roster) -> Option<bool> {
    let again = stand(alloc, roster, (3, 8), 7, &[])?;
    Some(finds(alloc, roster, 3, 8, Some(again)))
}

/// Enters the event of the agents 3 and 9 in line 4, and that of the agents 5 and 9 in line 6. How many there are then, whether
/// they are found, and whether the first goes and another event takes its lead.
fn told_of_two(alloc: Global, roster: &mut Roster) -> Option<(usize, bool, bool)> {
    let first = stand(alloc, roster, (3, 9), 4, &[])?;
    let second = stand(alloc, roster, (5, 9), 6, &[])?;
    let count = roster.event_count();
    let found = are_found(alloc, roster, first, second)?;
    let gone = first_goes(alloc, roster, first)? && next_is_found(alloc, roster)?;
    Some((count, found, gone))
}

#[test]
fn events_are_listed_and_found_by_names_and_leads_until_they_go(rt: HostRuntime) {
    let mut roster = Roster::new(rt.alloc());
    assert!(rt; are_ids(rt.alloc(), &roster, &[]));
    assert_eq!(rt; told_of_two(rt.alloc(), &mut roster), Some((2, true, true)));
}
