ghost use Rattle.std.specs.Prelude.{◌≡◌, ◌≢◌, ◌<◌, ◌≤◌, IfNone, IfOk, IfSome, Some, length, slice_get};
ghost use Rattle.ic_name.specs.Events.{Event as AnEvent};
ghost use Rattle.ic_name.specs.declared.limits.TheConstants.{MAX_LINES};
ghost use Rattle.ic_names.specs.Tables.{name_at};
ghost use Rattle.ic_path.specs.Orders.{IsIn};

use ic_name::{AgentName, Event, Kind};
use ic_names::{NameId, NameTable};
use ic_slots::SlotIndex;
use smallvec::SmallVec;
use std::alloc::{AllocError, Global};
use std::marker::Model;
use std::mem::size_of;

/// An event of a mark: the place of its lead's name in the table of leads, its kinds, and the name of its other agent,
/// whose digits are those from `first` on in the vector of digits, `other_depth` many.
#[derive(Clone, Copy)]
pub(crate) struct MarkedEvent {
    first: usize,
    lead: NameId,
    other_start: u16,
    other_depth: u16,
    lead_kind: Kind,
    other_kind: Kind,
}

const _: () = prove!(size_of::<MarkedEvent>() == 24);

/// The events of a mark, in the mark's order. Each is found by its lead, since no two have the same.
///
/// An event takes 24 bytes, and a byte for each digit of its other agent. The names of the leads stand in a table with those
/// of their ancestors, at 40 bytes a name, and four more for the place of the event that it leads.
#[derive(Drop)]
pub(crate) struct MarkedEvents {
    events: Vec<MarkedEvent>,
    leads: NameTable,
    digits: Vec<u8>,
    places: SlotIndex,
}

impl Model for MarkedEvents {
    ghost use Rattle.std.specs.Prelude.{List, map};
    ghost use Rattle.ic_name.specs.Events.{Event};
    ghost use Rattle.ic_undo.specs.Marks.{marked_event, AreMarked};

    ghost Value = { List Event };

    ghost view = { λ m. map (marked_event m.leads m.digits.items) m.events.items };

    ghost invariant = { λ m. AreMarked m.leads m.digits.items m.events.items m.places };
}

impl MarkedEvents {
    /// These events, in their order. At an error memory ran out.
    pub(crate) fn of(alloc: Global, events: &[Event]) -> Result<MarkedEvents, AllocError>
        requires { length events.now ≤ MAX_LINES }
        ensures { IfOk result (λ marked. marked ≡ events.now) }
    {
        let mut kept = Vec::with_capacity(alloc, events.len())?;
        let mut leads = NameTable::new(alloc);
        let mut digits = Vec::new(alloc);
        let mut places = SlotIndex::new(alloc);
        for place in 0..events.len() {
            let event = &events[place];
            let other = event.other();
            event.lawful();
            other.lawful();
            let lead = leads.enter(event.lead())?;
            places.reserve(lead.place)?;
            places.put(lead.place, place as u32);
            kept.push(MarkedEvent {
                first: digits.len(),
                lead,
                other_start: other.start_number(),
                other_depth: other.depth() as u16,
                lead_kind: event.lead_kind(),
                other_kind: event.other_kind(),
            })?;
            digits.extend_from_slice(other.digits())?;
        }
        Ok(MarkedEvents {
            events: kept,
            leads,
            digits,
            places,
        })
    }

    /// How many they are. It takes no memory.
    pub(crate) fn len(&self) -> usize
        ensures { result ≡ length self.now }
    {
        self.events.len()
    }

    /// The event at a place, in time that grows as the depths of its names. It takes memory only for names of more than 16
    /// digits, and at an error there was none.
    pub(crate) fn read(&self, place: u32) -> Result<Event, AllocError>
        requires { place < length self.now }
        ensures { IfOk result (λ event. slice_get self.now place ≡ Some event) }
    {
        let event = self.events[place as usize];
        let Some(lead) = self.leads.name(event.lead)? else {
            unreachable!()
        };
        let end = event.first + usize::from(event.other_depth);
        let digits = &self.digits[event.first..end];
        let digits = SmallVec::from_slice(*self.digits.allocator(), digits)?;
        let other = AgentName::of_digits(event.other_start, digits);
        let Some(event) = Event::of(lead, event.lead_kind, other, event.other_kind) else {
            unreachable!()
        };
        Ok(event)
    }

    /// The place of the event that this agent leads, in time that grows as the depth of its name; `None` if it leads none
    /// of them. It takes no memory.
    pub(crate) fn find(&self, lead: &AgentName) -> Option<u32>
        ensures found { IfSome result (λ place. (e : AnEvent) × (slice_get self.now place ≡ Some e) × (e.lead ≡ lead.now)) }
        ensures absent { IfNone result ((e : AnEvent) → IsIn e self.now → e.lead ≢ lead.now) }
    {
        self.leads.lawful();
        let name = self.leads.find(lead)?;
        self.places.get(name.place)
    }

    /// The place of the event that the agent leads whose name is at a place of these names, in time that grows as the depth of
    /// that name; `None` if it leads none of them. It takes memory only for a name of more than 32 digits, and at an error there
    /// was none.
    pub(crate) fn find_from(
        &self,
        names: &NameTable,
        lead: NameId,
    ) -> Result<Option<u32>, AllocError>
        requires { lead.place < length names.now }
        ensures found { IfOk result (λ place. IfSome place (λ p. (e : AnEvent) × (slice_get self.now p ≡ Some e) × (e.lead ≡ name_at names.now lead.place))) }
        ensures absent { IfOk result (λ place. IfNone place ((e : AnEvent) → IsIn e self.now → e.lead ≢ name_at names.now lead.place)) }
    {
        self.leads.lawful();
        let Some(name) = self.leads.find_from(names, lead)? else {
            return Ok(None);
        };
        Ok(self.places.get(name.place))
    }
}
