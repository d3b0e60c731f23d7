use crate::pairs::ActivePair;
use ic_name::{AgentId, EventId, RuleEnd};
use ic_roster::Interaction;

/// What comes with an event: its two agents with their names, its line and rank, its children, the ends of its links, and
/// its direct causes.
#[derive(Clone, Copy)]
pub(crate) struct Firing<'a> {
    pub(crate) interaction: Interaction,
    pub(crate) line: u32,
    pub(crate) rank: u32,
    pub(crate) pair: ActivePair,
    pub(crate) born: &'a [AgentId],
    pub(crate) ends: &'a [(RuleEnd, RuleEnd)],
    pub(crate) causes: &'a [EventId],
}
