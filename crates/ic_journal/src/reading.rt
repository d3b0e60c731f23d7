ghost use Rattle.std.specs.Prelude.{◌≡◌, ◌≢◌, ◌<◌, ◌⊎◌, List, [], length, option_map, IfSome, IfNone, IfOk};
ghost use Rattle.ic_name.specs.Events.{Event as AnEvent, event_of, pair};
ghost use Rattle.ic_name.specs.Events.{pair as pair_name};
ghost use Rattle.ic_name.specs.declared.ids.EventId.{EventId as AnEventId};
ghost use Rattle.ic_name.specs.declared.kinds.Kind.{Kind as AKind};
ghost use Rattle.ic_name.specs.declared.ports.Port.{Port as APort};
ghost use Rattle.ic_names.specs.Tables.{name_at};
ghost use Rattle.ic_path.specs.Orders.{Alike, IsIn, Pick};
ghost use Rattle.ic_theory.specs.Active.{IsActive};
ghost use Rattle.ic_theory.specs.Firings.{AreAfterCauses, then_fired};
ghost use Rattle.ic_theory.specs.Listed.{shown, IsListing};
ghost use Rattle.ic_theory.specs.Nets.{IsSameNet, net_of};
ghost use Rattle.ic_theory.specs.Steps.{AreDefined, steps};
ghost use Rattle.ic_theory.specs.Wires.{IsWire};
ghost use Rattle.ic_cause.specs.Journals.{Ranked, IsJournal, journal_text};
ghost use Rattle.ic_roster.specs.Rosters.{Stander, IsNewName};
ghost use Rattle.ic_set.specs.declared.pairs.ActivePair.{ActivePair as APair};
ghost use Rattle.ic_set.specs.Views.{standing};
ghost use Rattle.ic_set.specs.Removal.{Stands};
ghost use Rattle.ic_set.specs.Orders.{AreCanonical, AreInOrder, IsAny};
ghost use Rattle.ic_set.specs.Pairs.{IsPairOf, IsActivePair, IsLeastPair, AreActivePairs, AreBornPairs};
ghost use Rattle.ic_set.specs.Wires.{IsWireAt};
ghost use Rattle.ic_journal.specs.Views.{set_of};
ghost use Rattle.ic_journal.specs.Proposals.{Proposes};
ghost use Rattle.ic_journal.specs.Reads.{IsKindOf, IsNameOf, IsEventUnder, IsRankOf, AreCausesOf, AreDependentsOf};

use crate::bench::Bench;
use crate::faults::ProposeFault;
use crate::standing::renewing::agents_in;
use ic_history::Proposal;
use ic_link::LinkStore;
use ic_name::{AgentId, AgentName, Event, EventId, EventName, Kind, Line, Port};
use ic_names::{NameId, NameTable};
use ic_net::{Net, NetSheet};
use ic_roster::AgentEntry;
use ic_set::{ActivePair, Wire};
use std::alloc::AllocError;

impl<L: LinkStore> Bench<L> {
    /// The id of the agent of this name; `None` if there is no such agent. It takes no memory.
    pub fn agent(&self, name: &AgentName) -> Option<AgentId>
        ensures found { IfSome result (λ id. (kind : AKind) × IsIn (record { id = id; name = name.now; kind = kind }) self.now.agents) }
        ensures absent { IfNone result (IsNewName self.now.agents name.now) }
    {
        self.set.bare().roster().find(name)
    }

    /// The id of the standing event of this name; `None` if no such event stands. It takes no memory.
    pub fn event(&self, name: &EventName) -> Option<EventId>
        ensures found { IfSome result (λ id. (x : Stander) × IsIn x self.now.events × (x.id ≡ id) × (pair x.event ≡ name.now)) }
        ensures absent { IfNone result ((x : Stander) → IsIn x self.now.events → pair x.event ≢ name.now) }
    {
        self.set.bare().roster().find_event(name)
    }

    /// The id of the standing event that the agent of this name leads; `None` if it leads none. It takes no memory.
    pub fn event_led_by(&self, lead: &AgentName) -> Option<EventId>
        ensures found { IfSome result (λ id. (x : Stander) × IsIn x self.now.events × (x.id ≡ id) × (x.event.lead ≡ lead.now)) }
        ensures absent { IfNone result ((x : Stander) → IsIn x self.now.events → x.event.lead ≢ lead.now) }
    {
        let set = self.set.bare();
        set.lawful();
        let roster = set.roster();
        let Some(agent) = roster.find(lead) else {
            return None;
        };
        let Some(entry) = roster.agent(agent) else {
            unreachable!()
        };
        roster.led_by(entry.name)
    }

    /// The names that are known, each at its place.
    pub fn known_names(&self) -> &NameTable
        ensures { result.now ≡ self.now.names }
    {
        self.set.bare().roster().names()
    }

    /// The id of the standing event that the agent leads whose name is at this place; `None` if it leads none. It takes no
    /// memory.
    pub fn event_led_at(&self, lead: NameId) -> Option<EventId>
        requires { lead.place < length self.now.names }
        ensures found { IfSome result (λ id. (x : Stander) × IsIn x self.now.events × (x.id ≡ id) × (x.event.lead ≡ name_at self.now.names lead.place)) }
        ensures absent { IfNone result ((x : Stander) → IsIn x self.now.events → x.event.lead ≢ name_at self.now.names lead.place) }
    {
        self.set.bare().roster().led_by(lead)
    }

    /// The active pair of this event's agents; `None` if the event isn't active. It takes no memory.
    pub fn pair_of(&self, event: &Event) -> Option<ActivePair>
        ensures found { IfSome result (λ pair. IsPairOf (set_of self.now) event.now pair) }
        ensures absent { IfNone result (IsActive self.now.start (standing (set_of self.now)) event.now → ⊥) }
    {
        self.set.bare().active_pair(event)
    }

    /// The active pair of the agents of this event's name; `None` if no wire joins their principal ports. It takes no
    /// memory.
    pub fn pair_named(&self, name: &EventName) -> Option<ActivePair>
        ensures found { IfSome result (λ p. (e : AnEvent) × IsPairOf (set_of self.now) e p × (pair e ≡ name.now)) }
        ensures absent { IfNone result ((e : AnEvent) → IsActive self.now.start (standing (set_of self.now)) e → pair e ≢ name.now) }
    {
        name.lawful();
        let set = self.set.bare();
        set.lawful();
        let roster = set.roster();
        let Some(lead) = roster.find(name.lead()) else {
            return None;
        };
        let Some(other) = roster.find(name.other()) else {
            return None;
        };
        let Some(partner) = set.partner(lead) else {
            return None;
        };
        if partner != other {
            return None;
        }
        Some(ActivePair { lead, other })
    }

    /// The active pair that this agent is of; `None` if it is of none. It takes no memory.
    pub fn pair_with(&self, agent: AgentId) -> Option<ActivePair>
        ensures found { IfSome result (λ pair. ((pair.lead ≡ agent) ⊎ (pair.other ≡ agent)) × IsActivePair (set_of self.now) pair) }
        ensures absent { IfNone result ((e : AnEvent) (pair : APair) → (pair.lead ≡ agent) ⊎ (pair.other ≡ agent) → IsPairOf (set_of self.now) e pair → ⊥) }
    {
        match self.set.front {
            Some(pair) if pair.lead == agent => Some(pair),
            _ => self.set.bare().pair_with(agent),
        }
    }

    /// The active pairs that the event under this id makes: those whose event would have it as a direct cause (Danos and Krivine
    /// 2004). There is a place for each link of an event, and no rule has more than eight. All are `None` for an id that holds no
    /// more. It takes no memory.
    pub fn born_pairs(&self, id: EventId) -> [Option<ActivePair>; 8]
        ensures { AreBornPairs (set_of self.now) id result }
    {
        self.set.bare().born_pairs(id)
    }

    /// The name of an active pair's event.
    pub fn name_of_pair(&self, pair: ActivePair) -> Result<EventName, AllocError>
        requires { IsActivePair (set_of self.now) pair }
        ensures { IfOk result (λ name. (e : AnEvent) → IsPairOf (set_of self.now) e pair → name ≡ pair_name e) }
    {
        let set = self.set.bare();
        let names = set.roster().names();
        let event = set.interaction_of(pair);
        let Some(lead) = names.name(event.lead)? else {
            unreachable!()
        };
        let Some(other) = names.name(event.other)? else {
            unreachable!()
        };
        let Some(name) = EventName::of(lead, other) else {
            unreachable!()
        };
        Ok(name)
    }

    /// The kind of an agent; `None` for an id that holds no more. It takes no memory.
    pub fn kind_of(&self, id: AgentId) -> Option<Kind>
        ensures { IsKindOf self.now id result }
    {
        match self.set.bare().roster().agent(id) {
            Some(agent) => Some(agent.kind),
            None => None,
        }
    }

    /// The name of an agent; `None` for an id that holds no more.
    pub fn name_of(&self, id: AgentId) -> Result<Option<AgentName>, AllocError>
        ensures { IfOk result (λ name. IsNameOf self.now id name) }
    {
        let roster = self.set.bare().roster();
        match roster.agent(id) {
            Some(agent) => roster.names().name(agent.name),
            None => Ok(None),
        }
    }

    /// A standing event; `None` for an id that holds no more.
    pub fn event_of(&self, id: EventId) -> Result<Option<Event>, AllocError>
        ensures { IfOk result (λ event. IsEventUnder self.now id event) }
    {
        let Some(standing) = self.standing_of(id.line) else {
            return Ok(None);
        };
        let roster = self.set.bare().roster();
        let Some(entry) = roster.event(standing) else {
            unreachable!()
        };
        Ok(Some(roster.read(entry.interaction)?))
    }

    /// The rank of a standing event: one more than the greatest rank of a direct cause, and 0 without causes; `None` for
    /// an id that holds no more. It takes no memory.
    pub fn rank(&self, id: EventId) -> Option<u32>
        ensures { IsRankOf self.now id result }
    {
        let Some(standing) = self.standing_of(id.line) else {
            return None;
        };
        let set = self.set.bare();
        set.lawful();
        let Some(entry) = set.roster().event(standing) else {
            unreachable!()
        };
        Some(entry.rank)
    }

    /// A proposal that the agents under two ids meet. It is `NotActive` if an id holds no more or both are one. It
    /// changes nothing and adds no line.
    pub fn propose(&self, a: AgentId, b: AgentId) -> Result<Proposal, ProposeFault>
        ensures { Proposes self.now a b result }
    {
        if a == b {
            return Err(ProposeFault::NotActive);
        }
        let set = self.set.bare();
        set.lawful();
        let roster = set.roster();
        let Some(left) = roster.agent(a) else {
            return Err(ProposeFault::NotActive);
        };
        let Some(right) = roster.agent(b) else {
            return Err(ProposeFault::NotActive);
        };
        match meeting(roster.names(), left, right) {
            Ok(Some(proposal)) => Ok(proposal),
            Ok(None) => Err(ProposeFault::NotActive),
            Err(_) => Err(ProposeFault::Memory),
        }
    }

    /// The direct causes of a standing event, in canonical order; `None` for an id that holds no more.
    pub fn causes(&self, id: EventId) -> Result<Option<Vec<EventId>>, AllocError>
        ensures { IfOk result (λ causes. AreCausesOf self.now id (option_map (λ ids. ids.items) causes)) }
    {
        match self.standing_of(id.line) {
            Some(standing) => Ok(Some(self.set.bare().causes(standing)?)),
            None => Ok(None),
        }
    }

    /// The direct dependents of a standing event, in canonical order; `None` for an id that holds no more.
    pub fn dependents(&self, id: EventId) -> Result<Option<Vec<EventId>>, AllocError>
        ensures { IfOk result (λ dependents. AreDependentsOf self.now id (option_map (λ ids. ids.items) dependents)) }
    {
        match self.standing_of(id.line) {
            Some(standing) => Ok(Some(self.set.bare().dependents(standing)?)),
            None => Ok(None),
        }
    }

    /// The wire of the net at this port: the port at its other end, and the standing events that made it, in canonical order.
    /// `None` if no agent of the net has this port, or the name isn't free. It changes nothing and adds no line.
    pub fn wire(&self, port: &Port) -> Result<Option<Wire>, AllocError>
        ensures found { IfOk result (λ wire. IfSome wire (λ w. IsWireAt (set_of self.now) port.now w.far w.makers.items)) }
        ensures absent { IfOk result (λ wire. IfNone wire ((q : APort) → IsWire self.now.start (standing (set_of self.now)) port.now q → ⊥)) }
    {
        self.set.bare().wire(port)
    }

    /// These standing events, in canonical order.
    pub fn ordered(&self, ids: &[EventId]) -> Result<Vec<EventId>, AllocError>
        requires once { (d : AnEventId) (rest : List AnEventId) → Pick d ids.now rest → IsIn d rest → ⊥ }
        requires standing { (d : AnEventId) → IsIn d ids.now → Stands (set_of self.now) d }
        ensures { IfOk result (λ ordered. AreInOrder (set_of self.now) (λ x. IsIn x.id ids.now) ordered.items) }
    {
        self.set.bare().ordered(ids)
    }

    /// The standing events, in canonical order.
    pub fn standing(&self) -> Result<Vec<EventId>, AllocError>
        ensures { IfOk result (λ ids. AreInOrder (set_of self.now) IsAny ids.items) }
    {
        self.set.bare().standing()
    }

    /// The standing events, in canonical order.
    pub fn events(&self) -> Result<Vec<Event>, AllocError>
        ensures { IfOk result (λ events. AreCanonical (set_of self.now) events.items) }
    {
        self.set.bare().events()
    }

    /// The text of the journal: how many events stand, and a line for each with its rank, in canonical order.
    pub fn journal(&self) -> Result<Vec<u8>, AllocError>
        ensures { IfOk result (λ text. (xs : List Ranked) × IsJournal self.now.start (standing (set_of self.now)) xs × (text.items ≡ journal_text xs)) }
    {
        self.set.bare().journal()
    }

    /// The active pair with the least lead; `None` if no pair is active. It takes no memory.
    pub fn least_active(&self) -> Option<ActivePair>
        ensures found { IfSome result (λ pair. IsLeastPair (set_of self.now) pair) }
        ensures absent { IfNone result ((e : AnEvent) → IsActive self.now.start (standing (set_of self.now)) e → ⊥) }
    {
        self.set.front
    }

    /// The active pairs, by lead.
    pub fn active(&self) -> Result<Vec<ActivePair>, AllocError>
        ensures { IfOk result (λ pairs. AreActivePairs (set_of self.now) pairs.items) }
    {
        self.set.queue.lawful();
        let leads = self.set.queue.to_vec(self.alloc)?;
        self.set.bare().active_among(leads)
    }

    /// Agents among whom is the lead of each active pair, in no promised order, and few others. It takes less time than `active`.
    pub fn leads(&self) -> Result<Vec<AgentId>, AllocError>
        ensures { IfOk result (λ leads. (p : APair) → IsActivePair (set_of self.now) p → IsIn p.lead leads.items) }
    {
        agents_in(self.alloc, &self.set.queue, self.set.bare())
    }

    /// The net of what stands: the one in which the steps of its events end, in each causal order of them (Lafont 1997).
    pub fn net(&self) -> Result<Net, AllocError>
        ensures left { IfOk result (λ net. IsSameNet (shown net) (net_of self.now.start (standing (set_of self.now)))) }
        ensures defined { IfOk result (λ _. (order : List AnEvent) → Alike (standing (set_of self.now)) (then_fired [] order) → AreAfterCauses self.now.start (then_fired [] order) (then_fired [] order) → AreDefined (net_of self.now.start []) order) }
        ensures every_order { IfOk result (λ net. (order : List AnEvent) → Alike (standing (set_of self.now)) (then_fired [] order) → AreAfterCauses self.now.start (then_fired [] order) (then_fired [] order) → IsSameNet (shown net) (steps (net_of self.now.start []) order)) }
    {
        self.set.bare().net()
    }

    /// The net of what stands, with its agents in the order of their names, to be read once.
    pub fn sheet(&self) -> Result<NetSheet<'_>, AllocError>
        ensures net { IfOk result (λ sheet. IsSameNet (shown sheet) (net_of self.now.start (standing (set_of self.now)))) }
        ensures listing { IfOk result IsListing }
    {
        self.set.bare().sheet()
    }

    /// The history: each call with its reply, numbered from 0 on.
    pub fn history(&self) -> Result<Vec<Line>, AllocError>
        ensures { IfOk result (λ lines. lines.items ≡ self.now.lines) }
    {
        self.history.read(self.alloc, self.set.bare().roster())
    }
}

/// A proposal that two agents meet; `None` if both have one name.
fn meeting(names: &NameTable, a: AgentEntry, b: AgentEntry) -> Result<Option<Proposal>, AllocError>
    requires left { a.name.place < length names.now }
    requires right { b.name.place < length names.now }
    ensures made { IfOk result (λ made. IfSome made (λ event. event ≡ event_of (name_at names.now a.name.place) a.kind (name_at names.now b.name.place) b.kind)) }
    ensures none { IfOk result (λ made. IfNone made (name_at names.now a.name.place ≢ name_at names.now b.name.place → ⊥)) }
{
    let Some(first) = names.name(a.name)? else {
        unreachable!()
    };
    let Some(second) = names.name(b.name)? else {
        unreachable!()
    };
    Ok(Proposal::make(first, a.kind, second, b.kind))
}
