use ic_journal::{Bench, LinkStore};
use ic_name::{AgentName, EventName};
use std::alloc::Global;
use std::test::Fail;

/// The name of the event of two agents.
pub fn name_of(alloc: Global, a: &[u8], b: &[u8]) -> Result<EventName, Fail> {
    let first = AgentName::read(alloc, a)?;
    let second = AgentName::read(alloc, b)?;
    match EventName::of(first, second) {
        Some(name) => Ok(name),
        None => Err("two agents".into()),
    }
}

/// The names of the events of these agents.
pub fn names_of(alloc: Global, pairs: &[(&[u8], &[u8])]) -> Result<Vec<EventName>, Fail> {
    let mut names = Vec::new(alloc);
    for (a, b) in pairs {
        names.push(name_of(alloc, a, b)?)?;
    }
    Ok(names)
}

/// The names of what stands on a bench.
pub fn standing_names<L: LinkStore>(
    alloc: Global,
    bench: &Bench<L>,
) -> Result<Vec<EventName>, Fail> {
    let mut names = Vec::new(alloc);
    for id in &bench.standing()? {
        if let Some(event) = bench.event_of(*id)? {
            let lead = event.lead().copy()?;
            let other = event.other().copy()?;
            if let Some(name) = EventName::of(lead, other) {
                names.push(name)?;
            }
        }
    }
    Ok(names)
}
