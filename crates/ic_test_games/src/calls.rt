use crate::numbers::Numbers;
use ic_journal::{ActivePair, Bench, LinkStore};
use ic_name::{AgentId, EventId};
use std::test::Fail;

/// What a bench answers to the firing of two agents: an id, or the number of a refusal.
pub fn fired<L: LinkStore>(
    bench: &mut Bench<L>,
    lead: AgentId,
    other: AgentId,
) -> Result<Result<EventId, u8>, Fail> {
    let proposal = bench.propose(lead, other)?;
    match bench.fire(proposal) {
        Ok(id) => Ok(Ok(id)),
        Err(fault) => Ok(Err(fault.number())),
    }
}

/// One of the events that stand.
pub fn some_event<L: LinkStore>(
    bench: &Bench<L>,
    numbers: &mut Numbers,
) -> Result<Option<EventId>, Fail> {
    let ids = bench.standing()?;
    if ids.is_empty() {
        return Ok(None);
    }
    Ok(ids.get(numbers.below(ids.len())).copied())
}

/// Two agents of these pairs, the first one a lead.
fn agents_of(pairs: &[ActivePair], numbers: &mut Numbers) -> Option<(AgentId, AgentId)> {
    if pairs.is_empty() {
        return None;
    }
    let lead = pairs.get(numbers.below(pairs.len()))?.lead;
    let other = pairs.get(numbers.below(pairs.len()))?.other;
    Some((lead, other))
}

/// Two agents of active pairs, if there are any.
pub fn some_agents<L: LinkStore>(
    bench: &Bench<L>,
    numbers: &mut Numbers,
) -> Result<Option<(AgentId, AgentId)>, Fail> {
    let pairs = bench.active()?;
    Ok(agents_of(&pairs, numbers))
}
