ghost use Rattle.std.specs.Prelude.{◌≡◌, ◌≢◌, ◌<◌, ◌≤◌, ◌⊎◌, [], length, slice_get, Some, IfSome, IfNone, IfOk};
ghost use Rattle.ic_name.specs.declared.ids.AgentId.{AgentId as AnAgentId};
ghost use Rattle.ic_name.specs.declared.ids.Spot.TheVariants.{Agent};
ghost use Rattle.ic_name.specs.Events.{Event as AnEvent};
ghost use Rattle.ic_link.specs.declared.store.Far.TheVariants.{End};
ghost use Rattle.ic_set.specs.declared.pairs.ActivePair.{ActivePair as APair};
ghost use Rattle.ic_name.specs.declared.ports.Port.TheVariants.{Of};
ghost use Rattle.ic_names.specs.Tables.{name_at};
ghost use Rattle.ic_path.specs.Orders.{IsIn};
ghost use Rattle.ic_theory.specs.Active.{IsActive};
ghost use Rattle.ic_theory.specs.Rules.{born_kinds};
ghost use Rattle.ic_theory.specs.Sets.{consumed_times};
ghost use Rattle.ic_theory.specs.Wires.{IsWire};
ghost use Rattle.ic_roster.specs.Rosters.{Member as AMember, Stander, event_in};
ghost use Rattle.ic_names.specs.Queues.{AreNamed, StandOnce};
ghost use Rattle.ic_set.specs.Meetings.{HasEntry, IsMeeting};
ghost use Rattle.ic_set.specs.Pairs.{AreJoined, IsPairOf, IsActivePair, AreActivePairs, AreActiveJoins, AreBornPairs, IsBetween};
ghost use Rattle.ic_set.specs.Queues.{Leads, HasLeads};
ghost use Rattle.ic_set.specs.Views.{standing};

use crate::bare::BareSet;
use ic_link::{Far, LinkStore, Principals};
use ic_name::{AgentId, Event, EventId, Kind, Spot};
use ic_names::NameId;
use ic_names::queue::Lead;
use ic_roster::{AgentEntry, Interaction};
use std::alloc::AllocError;
use std::cmp::Ordering;

/// An active pair: the ids of its two agents, of which the lead has the lesser name.
#[derive(Clone, Copy, Debug, PartialEq, Eq)]
pub struct ActivePair {
    pub lead: AgentId,
    pub other: AgentId,
}

/// An event that came to stand: its id, and the pairs that its firing made active.
#[derive(Clone, Copy, Debug, PartialEq, Eq)]
pub struct Fired {
    pub id: EventId,
    pub awoken: [Option<ActivePair>; 4],
}

/// An agent's entry, and the agent whose principal port a wire joins to its own, with the entry of that.
#[derive(Clone, Copy)]
struct Meeting {
    entry: AgentEntry,
    partner: AgentId,
    other: AgentEntry,
}

impl<L: LinkStore> BareSet<L> {
    /// The agent whose principal port a wire joins to that of this agent; `None` if there is none. It takes no memory.
    pub fn partner(&self, agent: AgentId) -> Option<AgentId>
        ensures found { IfSome result (λ partner. AreJoined self.now.set agent partner) }
        ensures absent { IfNone result ((partner : AnAgentId) → AreJoined self.now.set agent partner → ⊥) }
    {
        Some(self.meeting(agent)?.partner)
    }

    /// This agent and its partner, each looked up once; `None` if it has none. It takes no memory.
    #[inline(always)]
    fn meeting(&self, agent: AgentId) -> Option<Meeting>
        ensures found { IfSome result (λ meeting. IsMeeting self.now agent meeting) }
        ensures absent { IfNone result ((partner : AnAgentId) → AreJoined self.now.set agent partner → ⊥) }
    {
        let partner = principal_end(self.store.far(Spot::Agent(agent, 0)))?;
        let entry = self.unled(agent)?;
        let other = self.unled(partner)?;
        Some(Meeting {
            entry,
            partner,
            other,
        })
    }

    /// The entry of an agent that leads no event; `None` for any other, which has no partner. It takes no memory.
    #[inline(always)]
    fn unled(&self, agent: AgentId) -> Option<AgentEntry>
        ensures found { IfSome result (λ entry. HasEntry self.now agent entry) }
        ensures unled { IfSome result (λ entry. (x : Stander) → IsIn x self.now.set.events → x.event.lead ≢ name_at self.now.names entry.name.place) }
        ensures absent { IfNone result ((partner : AnAgentId) → AreJoined self.now.set agent partner → ⊥) }
    {
        let entry = self.roster.agent(agent)?;
        if self.roster.is_lead(entry.name) {
            return None;
        }
        Some(entry)
    }

    /// The ids of the agents of an event, if it is active. It takes no memory.
    pub fn active_pair(&self, event: &Event) -> Option<ActivePair>
        ensures found { IfSome result (λ pair. IsPairOf self.now.set event.now pair) }
        ensures absent { IfNone result (IsActive self.now.set.start (standing self.now.set) event.now → ⊥) }
    {
        event.lawful();
        let lead = self.roster.find(event.lead())?;
        let meeting = self.meeting(lead)?;
        if meeting.entry.kind != event.lead_kind() {
            return None;
        }
        if meeting.other.kind != event.other_kind() {
            return None;
        }
        if !self.roster.names().is(meeting.other.name, event.other()) {
            return None;
        }
        Some(ActivePair {
            lead,
            other: meeting.partner,
        })
    }

    /// The active pair that this agent is of, if it is of one. It takes no memory.
    #[inline(always)]
    pub fn pair_with(&self, agent: AgentId) -> Option<ActivePair>
        ensures found { IfSome result (λ pair. ((pair.lead ≡ agent) ⊎ (pair.other ≡ agent)) × (e : AnEvent) × IsPairOf self.now.set e pair) }
        ensures absent { IfNone result ((e : AnEvent) (pair : APair) → (pair.lead ≡ agent) ⊎ (pair.other ≡ agent) → IsPairOf self.now.set e pair → ⊥) }
    {
        self.lawful();
        let meeting = self.meeting(agent)?;
        let partner = meeting.partner;
        let names = self.roster.names();
        match names.cmp(meeting.entry.name, meeting.other.name) {
            Ordering::Less => Some(ActivePair {
                lead: agent,
                other: partner,
            }),
            Ordering::Equal | Ordering::Greater => Some(ActivePair {
                lead: partner,
                other: agent,
            }),
        }
    }

    /// The active pair that the agent leads, if there is one and it leads one. It takes no memory.
    #[inline(always)]
    pub fn led(&self, agent: Option<AgentId>) -> Option<ActivePair>
        ensures found { IfSome result (λ pair. (Some pair.lead ≡ agent) × IsActivePair self.now.set pair) }
        ensures absent { IfNone result ((e : AnEvent) (pair : APair) → Some pair.lead ≡ agent → IsPairOf self.now.set e pair → ⊥) }
    {
        self.lawful();
        let agent = agent?;
        let pair = self.pair_with(agent)?;
        if pair.lead != agent {
            return None;
        }
        Some(pair)
    }

    /// The active pair that the agent of this name leads, if there is one and it leads one. It takes no memory.
    #[inline(always)]
    pub fn led_by_name(&self, name: NameId) -> Option<ActivePair>
        requires { name.place < length self.now.names }
        ensures found { IfSome result (λ pair. (e : AnEvent) × IsPairOf self.now.set e pair × (e.lead ≡ name_at self.now.names name.place)) }
        ensures absent { IfNone result (Leads self.now name.place → ⊥) }
    {
        self.lawful();
        if self.roster.is_lead(name) {
            return None;
        }
        self.led(self.roster.named(name))
    }

    /// All active pairs, by lead. These names include the lead of each.
    pub fn active_among(&self, leads: Vec<Lead>) -> Result<Vec<ActivePair>, AllocError>
        requires named { AreNamed self.now.names leads.items }
        requires once { StandOnce leads.items }
        requires each { HasLeads self.now leads.items }
        ensures { IfOk result (λ pairs. AreActivePairs self.now.set pairs.items) }
    {
        self.lawful();
        let names = self.roster.names();
        let mut sorted = leads;
        sorted.sort_by(|a, b| names.cmp(a.name, b.name))?;
        let mut pairs = Vec::new(self.alloc);
        for lead in &sorted {
            if let Some(pair) = self.led_by_name(lead.name) {
                pairs.push(pair)?;
            }
        }
        Ok(pairs)
    }

    /// Writes the active pairs between the agents of these joins into `pairs`. It takes no memory.
    #[inline(always)]
    pub(crate) fn active_joins(
        &self,
        joins: &[Option<Principals>; 4],
        pairs: &mut [Option<ActivePair>; 4],
    )
        ensures { AreActiveJoins self.now.set joins.now pairs.new }
    {
        self.lawful();
        *pairs = [None; 4];
        for place in 0..4 {
            if let Some(join) = joins[place] {
                pairs[place] = self.active_join(join);
            }
        }
    }

    /// The active pairs that the event under this id makes: those whose event would have it as a direct cause. There is a place
    /// for each link of an event, of which no rule has more than eight. All are `None` for an id that holds no more. It takes no
    /// memory.
    pub fn born_pairs(&self, event: EventId) -> [Option<ActivePair>; 8]
        ensures { AreBornPairs self.now.set event result }
    {
        self.store.lawful();
        let mut pairs = [None; 8];
        for place in 0..8 {
            if let Some(join) = self.store.joined_by(event, place as u32) {
                pairs[place] = self.active_join(join);
            }
        }
        pairs
    }

    /// The active pair of the two agents of a join, if they are one. It takes no memory.
    #[inline(always)]
    fn active_join(&self, join: Principals) -> Option<ActivePair>
        ensures found { IfSome result (λ pair. IsActivePair self.now.set pair × IsBetween (Some join) pair) }
        ensures absent { IfNone result ((e : AnEvent) (pair : APair) → IsPairOf self.now.set e pair → IsBetween (Some join) pair → ⊥) }
    {
        self.lawful();
        let pair = self.pair_with(join.one)?;
        let partner = if pair.lead == join.one {
            pair.other
        } else {
            pair.lead
        };
        if partner != join.other {
            return None;
        }
        Some(pair)
    }
}

/// The agent at whose principal port a path ends, if it ends at one.
fn principal_end(far: Far) -> Option<AgentId>
    ensures found { IfSome result (λ agent. far ≡ End (Agent agent 0)) }
    ensures absent { IfNone result ((agent : AnAgentId) → far ≢ End (Agent agent 0)) }
{
    let Far::End(spot) = far else {
        return None;
    };
    let Spot::Agent(agent, port) = spot else {
        return None;
    };
    if port != 0 {
        return None;
    }
    Some(agent)
}
