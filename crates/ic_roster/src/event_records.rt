ghost use Rattle.std.specs.Prelude.{◌≡◌, ◌≢◌, ◌↔◌, ◌+◌, ◌≤◌, ◌∷◌, [], length, map, All, IsNone, IsSomeAnd, IsTrue, IfSome, IfNone, IfOk, OnErr};
ghost use Rattle.ic_path.specs.Orders.{Alike, IsIn, IsOnce};
ghost use Rattle.ic_roster.specs.declared.agent_records.PlacedAgent.{PlacedAgent as APlacedAgent};
ghost use Rattle.ic_roster.specs.Placed.{PlacedEvent, HaveOwnKeys, IsNewKey, IsPlacedEntry, AreKept, AreUsers};

use crate::agent_records::AgentRecords;
use crate::dependents::{put_at_each, reserve_places, take_at_each};
use crate::event_ids::EventIds;
use crate::event_record::EventRecord;
use crate::events::{EventEntry, NewEvent};
use crate::reserving::reserve_slot;
use ic_name::EventId;
use ic_names::NameId;
use ic_slots::SlotIndex;
use slab::Slab;
use std::alloc::{AllocError, Global};
use std::marker::Model;

/// The standing events of a bench, each under its id, and found by the place of its lead's name. No two are of one line. Direct
/// causes are kept both ways.
#[derive(Drop)]
pub(crate) struct EventRecords {
    records: Slab<EventRecord>,
    leads: SlotIndex,
    alloc: Global,
}

impl Model for EventRecords {
    ghost use Rattle.std.specs.Prelude.{List};
    ghost use Rattle.ic_roster.specs.Placed.{PlacedEvent};

    ghost Value = { List PlacedEvent };

    ghost use Rattle.ic_roster.specs.EventSlots.{events_in, AreIndexed};
    ghost use Rattle.ic_roster.specs.Records.{AreLinked};

    ghost view = { λ e. events_in e.records.slots };

    ghost invariant = { λ e. AreIndexed e.records.slots e.leads × AreLinked e.records.slots };
}

impl EventRecords {
    /// No events. It takes no memory yet.
    pub fn new(alloc: Global) -> EventRecords
        ensures { result ≡ [] }
    {
        EventRecords {
            records: Slab::new(alloc),
            leads: SlotIndex::new(alloc),
            alloc,
        }
    }

    /// The invariant of all records.
    pub fn lawful(&self)
        ensures keys { HaveOwnKeys self.now }
        ensures kept { (x : PlacedEvent) → IsIn x self.now → AreKept self.now x.causes }
    {
        let _ = &self.records;
    }

    /// Makes room for the records of so many events more. At an error nothing changes.
    pub fn reserve_records(&mut self, count: usize) -> Result<(), AllocError>
        ensures { self.new ≡ self.old }
    {
        self.records.reserve(count)
    }

    /// The number of events.
    pub fn len(&self) -> usize
        ensures { result ≡ length self.now }
    {
        self.records.len()
    }

    /// The event under an id, slot and line both; `None` for an id that holds no more. It takes no memory.
    pub fn get(&self, id: EventId) -> Option<EventEntry>
        ensures found { IfSome result (IsPlacedEntry self.now id) }
        ensures absent { IfNone result ((x : PlacedEvent) → IsIn x self.now → x.id ≢ id) }
    {
        let event = self.records.get(id.slot as usize)?;
        if event.line() != id.line {
            return None;
        }
        Some(EventEntry {
            interaction: event.interaction(),
            rank: event.rank(),
        })
    }

    /// The direct causes of the event under this id; none if no event stands under it. It takes no memory.
    pub fn causes(&self, id: EventId) -> EventIds<'_>
        ensures causes { (x : PlacedEvent) → IsIn x self.now → x.id ≡ id → result ≡ x.causes }
        ensures absent { ((x : PlacedEvent) → IsIn x self.now → x.id ≢ id) → result ≡ [] }
    {
        match self.records.get(id.slot as usize) {
            Some(event) if event.line() == id.line => EventIds::new(&self.records, event.causes()),
            _ => EventIds::new(&self.records, &[]),
        }
    }

    /// The events that have the one under this id among their direct causes, each once, in no promised order; none if no
    /// event stands under it. It takes no memory.
    pub fn dependents(&self, id: EventId) -> EventIds<'_>
        ensures { AreUsers self.now id result }
    {
        match self.records.get(id.slot as usize) {
            Some(event) if event.line() == id.line => EventIds::new(
                &self.records,
                event.dependents(),
            ),
            _ => EventIds::new(&self.records, &[]),
        }
    }

    /// The ids of all events.
    pub fn ids(&self, alloc: Global) -> Result<Vec<EventId>, AllocError>
        ensures { IfOk result (λ ids. ids.items ≡ map (λ x. x.id) self.now) }
    {
        let mut ids = Vec::with_capacity(alloc, self.records.len())?;
        for (_, event) in self.records.iter() {
            let Some(slot) = self.leads.get(event.lead().place) else {
                unreachable!()
            };
            ids.push(EventId {
                slot,
                line: event.line(),
            })?;
        }
        Ok(ids)
    }

    /// The id of the event whose lead has its name at this place, if one stands, in constant time. It takes no memory.
    pub fn led_by(&self, lead: NameId) -> Option<EventId>
        ensures found { IfSome result (λ id. (x : PlacedEvent) × IsIn x self.now × (x.id ≡ id) × (x.interaction.lead ≡ lead)) }
        ensures absent { IfNone result ((x : PlacedEvent) → IsIn x self.now → x.interaction.lead.place ≢ lead.place) }
    {
        let slot = self.leads.get(lead.place)?;
        let Some(event) = self.records.get(slot as usize) else {
            unreachable!()
        };
        Some(EventId {
            slot,
            line: event.line(),
        })
    }

    /// Whether an event stands whose lead has its name at this place, in constant time. It takes no memory.
    pub fn is_lead(&self, name: NameId) -> bool
        ensures { IsTrue result ↔ ((x : PlacedEvent) × IsIn x self.now × (x.interaction.lead ≡ name)) }
    {
        self.leads.get(name.place).is_some()
    }

    /// One event more, fired in this line, with its direct causes, which stand, in constant time for each but for growth. At an
    /// error nothing changes.
    pub fn insert(&mut self, line: u32, event: &NewEvent<'_>) -> Result<EventId, AllocError>
        requires is_new { IsNewKey self.old line event.now.interaction.lead.place }
        requires kept { AreKept self.old event.now.causes.now }
        requires once { IsOnce event.now.causes.now }
        requires children { All (λ a. a.serial ≡ line + 1) event.now.born.now }
        requires four { length event.now.born.now ≤ 4 }
        ensures entered { IfOk result (λ id. (id.line ≡ line) × Alike (record { id = id; interaction = event.now.interaction; rank = event.now.rank; born = event.now.born.now; causes = event.now.causes.now } ∷ self.old) self.new) }
        ensures unchanged { OnErr result (self.new ≡ self.old) }
    {
        let record = EventRecord::new(self.alloc, line, event)?;
        reserve_places(&mut self.records, event.causes)?;
        let slot = reserve_slot(&mut self.records)?;
        self.leads.reserve(event.interaction.lead.place)?;
        self.leads.put(event.interaction.lead.place, slot);
        self.records.insert_reserved(record);
        put_at_each(&mut self.records, event.causes, slot);
        Ok(EventId { slot, line })
    }

    /// The event under the id goes, if it stands, and with it the agents that are its children. The place of its lead is
    /// answered; `None` if no event stands under the id. It is no direct cause of another. It takes no memory, and time that
    /// grows with the dependents of its causes.
    pub fn remove(&mut self, id: EventId, agents: &mut AgentRecords) -> Option<NameId>
        requires { (x : PlacedEvent) → IsIn x self.old → IsIn id x.causes → ⊥ }
        ensures gone { (x : PlacedEvent) → IsIn x self.old → x.id ≡ id → Alike self.old (x ∷ self.new) }
        ensures children { (x : PlacedEvent) → IsIn x self.old → x.id ≡ id → (m : APlacedAgent) → IsIn m agents.new ↔ (IsIn m agents.old × (IsIn m.id x.born → ⊥)) }
        ensures lead { (x : PlacedEvent) → IsIn x self.old → x.id ≡ id → IsSomeAnd result (λ lead. lead ≡ x.interaction.lead) }
        ensures absent { ((x : PlacedEvent) → IsIn x self.old → x.id ≢ id) → IsNone result }
        ensures left { (x : PlacedEvent) → IsIn x self.new → IsIn x self.old }
        ensures unchanged { ((x : PlacedEvent) → IsIn x self.old → x.id ≢ id) → self.new ≡ self.old }
        ensures left_agents { (m : APlacedAgent) → IsIn m agents.new → IsIn m agents.old }
        ensures spared { ((x : PlacedEvent) → IsIn x self.old → x.id ≢ id) → agents.new ≡ agents.old }
    {
        self.get(id)?;
        let event = self.records.remove(id.slot as usize);
        take_at_each(&mut self.records, event.causes(), id.slot);
        agents.remove_children(event.born(), event.line());
        let lead = event.lead();
        self.leads.take(lead.place);
        Some(lead)
    }

    /// All events go, and with each the agents that are its children, in one look at every slot that ever had an event. It
    /// takes no memory.
    pub fn clear(&mut self, agents: &mut AgentRecords)
        ensures none { self.new ≡ [] }
        ensures agents { (m : APlacedAgent) → IsIn m agents.new ↔ (IsIn m agents.old × ((x : PlacedEvent) → IsIn x self.old → IsIn m.id x.born → ⊥)) }
    {
        for (_, event) in self.records.iter() {
            agents.remove_children(event.born(), event.line());
            self.leads.take(event.lead().place);
        }
        self.records.clear();
    }
}
