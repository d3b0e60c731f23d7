use ic_answer::wires::push_port;
use ic_name::{AgentName, EventName, Port};
use ic_start::Texts;
use ic_undo::Obstacle;
use std::alloc::{AllocError, Global};

/// What was in the way of this event, as a part of a sentence. `None` if it is unknown or there is no memory for it.
pub(crate) fn obstacle_text(
    alloc: Global,
    names: &Texts,
    event: &EventName,
    obstacle: &Obstacle,
) -> Option<Vec<u8>> {
    match obstacle {
        Obstacle::Absent(agent) => absent_text(alloc, agent).ok(),
        Obstacle::Joined(from_lead, from_other) => {
            joined_text(alloc, names, event, from_lead, from_other).ok()
        }
        Obstacle::Unknown => None,
    }
}

/// That there is no such agent.
fn absent_text(alloc: Global, agent: &AgentName) -> Result<Vec<u8>, AllocError> {
    let mut text = Vec::from_slice(
        alloc,
        b"after firing what the list allows, there is no agent ",
    )?;
    agent.write_to(&mut text)?;
    Ok(text)
}

/// The ports to which the principal ports of the event's agents are joined.
fn joined_text(
    alloc: Global,
    names: &Texts,
    event: &EventName,
    from_lead: &Port,
    from_other: &Port,
) -> Result<Vec<u8>, AllocError> {
    let mut text = Vec::from_slice(
        alloc,
        b"after firing what the list allows, the principal port of ",
    )?;
    event.lead().write_to(&mut text)?;
    text.extend_from_slice(b" is joined to ")?;
    push_port(alloc, names, &mut text, from_lead)?;
    text.extend_from_slice(b", and that of ")?;
    event.other().write_to(&mut text)?;
    text.extend_from_slice(b" to ")?;
    push_port(alloc, names, &mut text, from_other)?;
    Ok(text)
}
