ghost use Rattle.std.specs.Prelude.{◌≡◌, ◌≢◌, ◌<◌, ◌↔◌, IsTrue, IfNone, IfOk, IfSome, Some, length, slice_get};
ghost use Rattle.ic_name.specs.Events.{Event as AnEvent};
ghost use Rattle.ic_names.specs.Tables.{name_at};
ghost use Rattle.ic_path.specs.Orders.{IsIn};
ghost use Rattle.ic_undo.specs.Marks.{IsMark};

use crate::marked_events::MarkedEvents;
use ic_journal::{Bench, LinkStore};
use ic_name::{AgentName, Event};
use ic_names::{NameId, NameTable};
use ic_start::Start;
use std::alloc::AllocError;
use std::marker::Model;

/// What stood on a bench at one time, with its start: a place to go back to. It finds an event by its lead, since no two of
/// its events have the same.
#[derive(Drop)]
pub struct Mark {
    pub(crate) start: Start,
    pub(crate) events: MarkedEvents,
}

impl Model for Mark {
    ghost use Rattle.ic_undo.specs.Marks.{MarkView, IsMark};

    ghost Value = { MarkView };

    ghost view = { λ m. record { start = m.start; events = m.events } };

    ghost invariant = { λ m. IsMark (record { start = m.start; events = m.events }) };
}

impl Mark {
    /// The invariant of every mark.
    pub fn lawful(&self)
        ensures { IsMark self.now }
    {
        let _ = &self.start;
    }

    /// The number of its events. It takes no memory.
    pub fn event_count(&self) -> u32
        ensures { result ≡ length self.now.events }
    {
        self.events.len() as u32
    }

    /// Whether it was made over the start of this bench. It takes no memory.
    pub fn fits<L: LinkStore>(&self, bench: &Bench<L>) -> bool
        ensures { IsTrue result ↔ (self.now.start ≡ bench.now.start) }
    {
        self.start.same(bench.start())
    }

    /// The event at a place of the canonical order.
    pub(crate) fn event(&self, place: u32) -> Result<Event, AllocError>
        requires { place < length self.now.events }
        ensures { IfOk result (λ event. slice_get self.now.events place ≡ Some event) }
    {
        self.events.read(place)
    }

    /// The place of the event that this agent leads, in time that grows as the depth of its name; `None` if it leads none
    /// of them. It takes no memory.
    pub(crate) fn place_of(&self, lead: &AgentName) -> Option<u32>
        ensures found { IfSome result (λ place. (e : AnEvent) × (slice_get self.now.events place ≡ Some e) × (e.lead ≡ lead.now)) }
        ensures absent { IfNone result ((e : AnEvent) → IsIn e self.now.events → e.lead ≢ lead.now) }
    {
        self.events.find(lead)
    }

    /// The place of the event that the agent leads whose name is at a place of these names, in time that grows as the depth of
    /// that name; `None` if it leads none of them. It takes memory only for a name of more than 32 digits, and at an error there
    /// was none.
    pub(crate) fn place_at(
        &self,
        names: &NameTable,
        lead: NameId,
    ) -> Result<Option<u32>, AllocError>
        requires { lead.place < length names.now }
        ensures found { IfOk result (λ place. IfSome place (λ p. (e : AnEvent) × (slice_get self.now.events p ≡ Some e) × (e.lead ≡ name_at names.now lead.place))) }
        ensures absent { IfOk result (λ place. IfNone place ((e : AnEvent) → IsIn e self.now.events → e.lead ≢ name_at names.now lead.place)) }
    {
        self.events.find_from(names, lead)
    }
}
