ghost use Rattle.std.specs.Prelude.{◌≡◌, ◌≢◌, ◌↔◌, ◌∷◌, [], length, map, IfSome, IfNone, IfOk, OnErr};
ghost use Rattle.ic_path.specs.Orders.{Alike, IsIn};
ghost use Rattle.ic_name.specs.declared.kinds.Kind.{Kind as AKind};
ghost use Rattle.ic_roster.specs.declared.agent_records.PlacedAgent.{PlacedAgent as APlacedAgent};
ghost use Rattle.ic_roster.specs.Placed.{HaveOwnPlaces, IsNewPlace, child_in};

use crate::agents::AgentEntry;
use crate::reserving::reserve_slot;
use ic_name::{AgentId, Kind};
use ic_names::NameId;
use ic_slots::SlotIndex;
use slab::Slab;
use std::alloc::{AllocError, Global};
use std::marker::Model;

/// The agents of a bench, each under its id, and found by the place of its name.
#[derive(Drop)]
pub(crate) struct AgentRecords {
    records: Slab<AgentRecord>,
    slots: SlotIndex,
}

/// What is kept of an agent under its slot.
#[derive(Clone, Copy)]
struct AgentRecord {
    name: NameId,
    kind: Kind,
    serial: u32,
}

/// An agent under its id, with the place of its name.
#[derive(Clone, Copy)]
pub struct PlacedAgent {
    pub id: AgentId,
    pub name: NameId,
    pub kind: Kind,
}

impl Model for AgentRecords {
    ghost use Rattle.std.specs.Prelude.{List};
    ghost use Rattle.ic_roster.specs.declared.agent_records.PlacedAgent.{PlacedAgent};

    ghost Value = { List PlacedAgent };

    ghost use Rattle.ic_roster.specs.Slots.{IsIndexOf};
    ghost use Rattle.ic_roster.specs.AgentSlots.{agent_place, agents_in};

    ghost view = { λ a. agents_in a.records.slots };

    ghost invariant = { λ a. IsIndexOf agent_place a.records.slots a.slots };
}

impl AgentRecords {
    /// No agents. It takes no memory yet.
    pub fn new(alloc: Global) -> AgentRecords
        ensures { result ≡ [] }
    {
        AgentRecords {
            records: Slab::new(alloc),
            slots: SlotIndex::new(alloc),
        }
    }

    /// The invariant of all records.
    pub fn lawful(&self)
        ensures { HaveOwnPlaces self.now }
    {
        let _ = &self.records;
    }

    /// Makes room for the records of so many agents more. At an error nothing changes.
    pub fn reserve_records(&mut self, count: usize) -> Result<(), AllocError>
        ensures { self.new ≡ self.old }
    {
        self.records.reserve(count)
    }

    /// The number of agents.
    pub fn len(&self) -> usize
        ensures { result ≡ length self.now }
    {
        self.records.len()
    }

    /// The agent under an id; `None` for an id that holds no more. It takes no memory.
    pub fn get(&self, id: AgentId) -> Option<AgentEntry>
        ensures found { IfSome result (λ entry. IsIn (record { id = id; name = entry.name; kind = entry.kind }) self.now) }
        ensures absent { IfNone result ((x : APlacedAgent) → IsIn x self.now → x.id ≢ id) }
    {
        let agent = self.records.get(id.slot as usize)?;
        if agent.serial != id.serial {
            return None;
        }
        Some(AgentEntry {
            name: agent.name,
            kind: agent.kind,
        })
    }

    /// The id of the agent whose name stands at this place, if it is there, in constant time. It takes no memory.
    pub fn at(&self, name: NameId) -> Option<AgentId>
        ensures found { IfSome result (λ id. (kind : AKind) × IsIn (record { id = id; name = name; kind = kind }) self.now) }
        ensures absent { IfNone result (IsNewPlace self.now name.place) }
    {
        let slot = self.slots.get(name.place)?;
        let Some(agent) = self.records.get(slot as usize) else {
            unreachable!()
        };
        Some(AgentId {
            slot,
            serial: agent.serial,
        })
    }

    /// All agents.
    pub fn all(&self, alloc: Global) -> Result<Vec<PlacedAgent>, AllocError>
        ensures { IfOk result (λ agents. agents.items ≡ self.now) }
    {
        let mut agents = Vec::with_capacity(alloc, self.records.len())?;
        for (_, agent) in self.records.iter() {
            let Some(slot) = self.slots.get(agent.name.place) else {
                unreachable!()
            };
            agents.push(PlacedAgent {
                id: AgentId {
                    slot,
                    serial: agent.serial,
                },
                name: agent.name,
                kind: agent.kind,
            })?;
        }
        Ok(agents)
    }

    /// One agent more, under an id with this serial number, in constant time but for growth. At an error nothing changes.
    pub fn insert(&mut self, name: NameId, kind: Kind, serial: u32) -> Result<AgentId, AllocError>
        requires { IsNewPlace self.old name.place }
        ensures entered { IfOk result (λ id. (id.serial ≡ serial) × Alike (record { id = id; name = name; kind = kind } ∷ self.old) self.new) }
        ensures unchanged { OnErr result (self.new ≡ self.old) }
    {
        let slot = reserve_slot(&mut self.records)?;
        self.slots.reserve(name.place)?;
        self.slots.put(name.place, slot);
        self.records
            .insert_reserved(AgentRecord { name, kind, serial });
        Ok(AgentId { slot, serial })
    }

    /// The agent under the id goes, if there is one, in constant time. It takes no memory.
    pub fn remove(&mut self, id: AgentId)
        ensures gone { (x : APlacedAgent) → IsIn x self.old → x.id ≡ id → Alike self.old (x ∷ self.new) }
        ensures left { (x : APlacedAgent) → IsIn x self.new → IsIn x self.old }
        ensures unchanged { ((x : APlacedAgent) → IsIn x self.old → x.id ≢ id) → self.new ≡ self.old }
    {
        if self.get(id).is_none() {
            return;
        }
        let agent = self.records.remove(id.slot as usize);
        self.slots.take(agent.name.place);
    }

    /// The agents in these slots that are children of an event of this line go, in constant time for each. It takes no memory.
    pub fn remove_children(&mut self, slots: &[u32], line: u32)
        ensures { (m : APlacedAgent) → IsIn m self.new ↔ (IsIn m self.old × (IsIn m.id (map (child_in line) slots.now) → ⊥)) }
    {
        for slot in slots {
            self.lawful();
            self.remove_child(*slot, line);
        }
    }

    /// The agent in the slot goes, if it is a child of an event of this line, in constant time. It takes no memory.
    fn remove_child(&mut self, slot: u32, line: u32)
        ensures gone { (x : APlacedAgent) → IsIn x self.old → x.id ≡ child_in line slot → Alike self.old (x ∷ self.new) }
        ensures left { (x : APlacedAgent) → IsIn x self.new → IsIn x self.old }
        ensures unchanged { ((x : APlacedAgent) → IsIn x self.old → x.id ≢ child_in line slot) → self.new ≡ self.old }
    {
        let Some(agent) = self.records.get(slot as usize) else {
            return;
        };
        let serial = agent.serial;
        if serial.checked_sub(1) == Some(line) {
            self.remove(AgentId { slot, serial });
        }
    }
}
