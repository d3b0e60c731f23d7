ghost use Rattle.std.specs.Prelude.{◌≡◌, ◌∷◌, [], map, All, IsSome, IfSome, IfNone, IfOk};
ghost use Rattle.ic_roster.specs.EventSlots.{id_in};
ghost use Rattle.ic_roster.specs.Slots.{slot_at};

use crate::event_record::EventRecord;
use ic_name::EventId;
use slab::Slab;
use std::alloc::{AllocError, Global};
use std::marker::Model;

/// The ids of some standing events that are still to be read, one after the other. It takes no memory.
#[derive(Drop)]
pub struct EventIds<'a> {
    records: &'a Slab<EventRecord>,
    slots: &'a [u32],
}

impl<'a> Model for EventIds<'a> {
    ghost use Rattle.std.specs.Prelude.{List, map, All, IsSome};
    ghost use Rattle.ic_name.specs.declared.ids.EventId.{EventId};

    ghost Value = { List EventId };

    ghost use Rattle.ic_roster.specs.EventSlots.{id_in};
    ghost use Rattle.ic_roster.specs.Slots.{slot_at};

    ghost view = { λ e. map (id_in e.records.now.slots) e.slots.now };

    ghost invariant = { λ e. All (λ k. IsSome (slot_at e.records.now.slots k)) e.slots.now };
}

impl<'a> EventIds<'a> {
    /// The ids of the events whose records these slots hold. It takes no memory.
    pub(crate) fn new(records: &'a Slab<EventRecord>, slots: &'a [u32]) -> EventIds<'a>
        requires { All (λ k. IsSome (slot_at records.now.slots k)) slots.now }
        ensures { result ≡ map (id_in records.now.slots) slots.now }
    {
        EventIds { records, slots }
    }

    /// The next id; `None` if all were read. It takes no memory.
    pub fn next(&mut self) -> Option<EventId>
        ensures next { IfSome result (λ id. self.old ≡ id ∷ self.new) }
        ensures over { IfNone result (self.old ≡ []) }
    {
        let (slot, rest) = self.slots.split_first()?;
        let Some(event) = self.records.get(*slot as usize) else {
            unreachable!()
        };
        self.slots = rest;
        Some(EventId {
            slot: *slot,
            line: event.line(),
        })
    }

    /// All ids that are still to be read.
    pub fn to_vec(&self, alloc: Global) -> Result<Vec<EventId>, AllocError>
        ensures { IfOk result (λ ids. ids.items ≡ self.now) }
    {
        let mut ids = Vec::with_capacity(alloc, self.slots.len())?;
        for slot in self.slots {
            let Some(event) = self.records.get(*slot as usize) else {
                unreachable!()
            };
            ids.push(EventId {
                slot: *slot,
                line: event.line(),
            })?;
        }
        Ok(ids)
    }
}
