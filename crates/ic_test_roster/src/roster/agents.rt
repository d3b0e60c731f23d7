ghost use Rattle.std.specs.Prelude.{◌<◌, length, IfSome};

use ic_name::{AgentId, AgentName, Kind};
use ic_names::NameId;
use ic_roster::{PlacedAgent, Roster};
use std::alloc::Global;

/// Enters an agent of the name that a text writes. It is `None` where the agent is there already, and where the text is
/// no name.
fn enter(
    alloc: Global,
    roster: &mut Roster,
    text: &[u8],
    kind: Kind,
    serial: u32,
) -> Option<AgentId> {
    let name = AgentName::read(alloc, text).ok()?;
    let Ok(place) = roster.enter_name(&name) else {
        return None;
    };
    match roster.named(place) {
        Some(_) => None,
        None => roster.insert_agent(place, kind, serial).ok(),
    }
}

/// Whether this is the id found for the agent of the name that a text writes, or none is found where none is given.
fn finds(alloc: Global, roster: &Roster, text: &[u8], id: Option<AgentId>) -> bool {
    match AgentName::read(alloc, text) {
        Ok(name) => roster.find(&name) == id,
        Err(_) => false,
    }
}

/// Agents by the texts of their names, with their kinds and serial numbers. The first 17 digits of two are the same.
const AGENTS: [(&[u8], Kind, u32); 5] = [
    (b"7", Kind::Gamma, 0),
    (b"7.1.2.3.0.1.2.3.0.1.2.3.0.1.2.3.0.1.3", Kind::Eps, 9),
    (b"3.1", Kind::Delta, 2),
    (b"3", Kind::Eps, 5),
    (b"7.1.2.3.0.1.2.3.0.1.2.3.0.1.2.3.0.1.0", Kind::Gamma, 9),
];

/// Whether an agent is found as soon as it is entered, and is not entered a second time.
fn is_found(alloc: Global, roster: &mut Roster, text: &[u8], kind: Kind, serial: u32) -> bool {
    match enter(alloc, roster, text, kind, serial) {
        Some(id) => {
            id.serial == serial
                && finds(alloc, roster, text, Some(id))
                && enter(alloc, roster, text, Kind::Delta, 1).is_none()
        }
        None => false,
    }
}

/// Whether each agent of the table is found as soon as it is entered, and none is entered a second time.
fn are_found(alloc: Global, roster: &mut Roster) -> bool {
    for (text, kind, serial) in &AGENTS {
        if !is_found(alloc, roster, text, *kind, *serial) {
            return false;
        }
    }
    roster.lawful();
    roster.agent_count() == 5
}

/// The kind and the serial number that are read of the agent of this name.
fn read(roster: &Roster, name: &AgentName) -> Option<(Kind, u32)> {
    let id = roster.find(name)?;
    let entry = roster.agent(id)?;
    if roster.names().is(entry.name, name) {
        Some((entry.kind, id.serial))
    } else {
        None
    }
}

/// The same of the name that a text writes.
fn read_again(alloc: Global, roster: &Roster, text: &[u8]) -> Option<(Kind, u32)> {
    let name = AgentName::read(alloc, text).ok()?;
    read(roster, &name)
}

/// Whether the agents of the table are read as they were entered.
fn are_read(alloc: Global, roster: &Roster) -> bool {
    for (text, kind, serial) in &AGENTS {
        if read_again(alloc, roster, text) != Some((*kind, *serial)) {
            return false;
        }
    }
    true
}

/// Enters the agent 1, with the serial number 6, and lets it go again.
fn enter_and_remove(alloc: Global, roster: &mut Roster) -> Option<AgentId> {
    let id = enter(alloc, roster, b"1", Kind::Delta, 6)?;
    roster.remove_agent(id);
    Some(id)
}

/// Whether an agent that goes is found no more, by its id or its name, and how many agents and names there are then.
fn left_of_one(alloc: Global, roster: &mut Roster) -> Option<(bool, usize, usize)> {
    let id = enter_and_remove(alloc, roster)?;
    let gone = roster.agent(id).is_none() && finds(alloc, roster, b"1", None);
    Some((gone, roster.agent_count(), roster.names().len()))
}

/// Enters an agent in the slot of one that went, whose id removes none. Whether that id holds no more.
fn enter_in_its_place(alloc: Global, roster: &mut Roster) -> Option<bool> {
    let old = enter_and_remove(alloc, roster)?;
    let new = enter(alloc, roster, b"2", Kind::Gamma, 4)?;
    let holds = roster.agent(old).is_some();
    roster.remove_agent(old);
    Some(new.slot == old.slot && !holds)
}

/// Whether that is so, how many agents there are then, and what is read of the new one.
fn left_of_two(alloc: Global, roster: &mut Roster) -> Option<(bool, usize, (Kind, u32))> {
    let replaced = enter_in_its_place(alloc, roster)?;
    let read = read_again(alloc, roster, b"2")?;
    Some((replaced, roster.agent_count(), read))
}

#[test]
fn an_agent_goes_and_its_id_holds_no_more_once_its_slot_is_filled_again(rt: HostRuntime) {
    let mut roster = Roster::new(rt.alloc());
    assert_eq!(rt; left_of_one(rt.alloc(), &mut roster), Some((true, 0, 1)));
    assert_eq!(rt;
        left_of_two(rt.alloc(), &mut roster),
        Some((true, 1, (Kind::Gamma, 4)))
    );
}

/// The texts of the names of the agents of the table, in order of names.
const IN_ORDER: [&[u8]; 5] = [
    b"3",
    b"7",
    b"3.1",
    b"7.1.2.3.0.1.2.3.0.1.2.3.0.1.2.3.0.1.0",
    b"7.1.2.3.0.1.2.3.0.1.2.3.0.1.2.3.0.1.3",
];

/// Whether these are the agents of the names that the texts write, in this order.
fn are_of(alloc: Global, roster: &Roster, agents: &[PlacedAgent], texts: &[&[u8]]) -> bool {
    for (agent, text) in agents.iter().zip(texts) {
        if !finds(alloc, roster, text, Some(agent.id)) {
            return false;
        }
    }
    agents.len() == texts.len()
}

/// Whether the agents of the names that the texts write are listed, in this order.
fn are_listed(alloc: Global, roster: &Roster, texts: &[&[u8]]) -> bool {
    match roster.in_order(alloc) {
        Ok(agents) => are_of(alloc, roster, agents.as_slice(), texts),
        Err(_) => false,
    }
}

/// Whether no agent is found or listed where none was entered.
fn is_empty(alloc: Global, roster: &Roster) -> bool {
    roster.agent_count() == 0 && finds(alloc, roster, b"7", None) && are_listed(alloc, roster, &[])
}

#[test]
fn agents_are_found_and_read_and_listed_by_name(rt: HostRuntime) {
    let mut roster = Roster::new(rt.alloc());
    assert!(rt; is_empty(rt.alloc(), &roster));
    assert!(rt; are_found(rt.alloc(), &mut roster));
    assert!(rt; are_read(rt.alloc(), &roster));
    assert!(rt; are_listed(rt.alloc(), &roster, &IN_ORDER));
}

/// The place of the name of agent 7, which is entered.
fn enter_parent(alloc: Global, roster: &mut Roster) -> Option<NameId>
    ensures { IfSome result (λ id. id.place < length roster.new.names) }
{
    let name = AgentName::start(alloc, 7)?;
    roster.enter_name(&name).ok()
}

/// The place where the name of child 2 of agent 7 is found.
fn place_of_child(alloc: Global, roster: &Roster) -> Option<NameId> {
    let name = AgentName::start(alloc, 7)?;
    let child = name.child(2).ok()?;
    roster.names().find(&child)
}

/// Whether the name of child 2 of agent 7 is entered, and then the one that is found.
fn child_is_entered(alloc: Global, roster: &mut Roster) -> Option<bool> {
    let parent = enter_parent(alloc, roster)?;
    let id = roster.enter_child_name(parent, 2).ok()?;
    Some(place_of_child(alloc, roster) == Some(id))
}

/// Whether that is so twice, and how many names and agents there are then.
fn entered_twice(alloc: Global, roster: &mut Roster) -> Option<(bool, usize, usize)> {
    let entered = child_is_entered(alloc, roster)? && child_is_entered(alloc, roster)?;
    Some((entered, roster.names().len(), roster.agent_count()))
}

#[test]
fn names_are_entered_without_agents(rt: HostRuntime) {
    let mut roster = Roster::new(rt.alloc());
    assert_eq!(rt; entered_twice(rt.alloc(), &mut roster), Some((true, 2, 0)));
}
