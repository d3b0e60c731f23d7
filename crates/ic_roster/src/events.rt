ghost use Rattle.std.specs.Prelude.{◌≡◌, ◌≢◌, ◌+◌, ◌<◌, ◌≤◌, ◌↔◌, ◌∷◌, [], length, map, All, IsNone, IsSomeAnd, IsTrue, IfSome, IfNone, IfOk, OnErr};
ghost use Rattle.ic_path.specs.Orders.{Alike, IsIn, IsOnce};
ghost use Rattle.ic_name.specs.Events.{pair};
ghost use Rattle.ic_names.specs.Tables.{name_at, StandsAt};
ghost use Rattle.ic_roster.specs.Born.{IsBorn};
ghost use Rattle.ic_roster.specs.Rosters.{Member, Stander, IsNewEvent, Stands, AreDependents, event_in, IsNamed, IsEntryOf, Loses};

use crate::event_ids::EventIds;
use crate::interaction::Interaction;
use crate::roster::Roster;
use ic_name::{AgentId, EventId, EventName};
use ic_names::NameId;
use std::alloc::{AllocError, Global};

/// A standing event, to be read.
#[derive(Clone, Copy)]
pub struct EventEntry {
    pub interaction: Interaction,
    pub rank: u32,
}

/// An event that comes to stand, with the ids of its children and of its direct causes.
#[derive(Clone, Copy)]
pub struct NewEvent<'a> {
    pub interaction: Interaction,
    pub rank: u32,
    pub born: &'a [AgentId],
    pub causes: &'a [EventId],
}

impl Roster {
    /// Makes room for the records of so many events more, which grow without it, too. At an error nothing changes.
    pub fn reserve_events(&mut self, count: usize) -> Result<(), AllocError>
        ensures { self.new ≡ self.old }
    {
        self.events.reserve_records(count)
    }

    /// The number of standing events.
    pub fn event_count(&self) -> usize
        ensures { result ≡ length self.now.events }
    {
        self.events.len()
    }

    /// The event under an id, slot and line both; `None` for an id that holds no more. It takes no memory.
    pub fn event(&self, id: EventId) -> Option<EventEntry>
        ensures found { IfSome result (IsEntryOf self.now id) }
        ensures named { IfSome result (λ entry. IsNamed self.now.names entry.interaction) }
        ensures absent { IfNone result ((x : Stander) → IsIn x self.now.events → x.id ≢ id) }
    {
        self.events.get(id)
    }

    /// The direct causes of the event under this id; none if no event stands under it. It takes no memory.
    pub fn event_causes(&self, id: EventId) -> EventIds<'_>
        ensures causes { (x : Stander) → IsIn x self.now.events → x.id ≡ id → result ≡ x.causes }
        ensures absent { ((x : Stander) → IsIn x self.now.events → x.id ≢ id) → result ≡ [] }
    {
        self.events.causes(id)
    }

    /// The events that have the one under this id among their direct causes, each once, in no promised order; none if no
    /// event stands under it. It takes no memory.
    pub fn event_dependents(&self, id: EventId) -> EventIds<'_>
        ensures { AreDependents self.now.events id result }
    {
        self.events.dependents(id)
    }

    /// The ids of all events, in no promised order.
    pub fn event_ids(&self, alloc: Global) -> Result<Vec<EventId>, AllocError>
        ensures { IfOk result (λ ids. Alike (map (λ x. x.id) self.now.events) ids.items) }
    {
        self.events.ids(alloc)
    }

    /// The id of the event whose lead has its name at this place, if one stands, in constant time. It takes no memory.
    pub fn led_by(&self, lead: NameId) -> Option<EventId>
        requires { lead.place < length self.now.names }
        ensures found { IfSome result (λ id. (x : Stander) × IsIn x self.now.events × (x.id ≡ id) × (x.event.lead ≡ name_at self.now.names lead.place)) }
        ensures absent { IfNone result ((x : Stander) → IsIn x self.now.events → x.event.lead ≢ name_at self.now.names lead.place) }
    {
        self.names.lawful();
        self.events.led_by(lead)
    }

    /// Whether the agent whose name is at this place leads a standing event, in constant time. It takes no memory.
    pub fn is_lead(&self, name: NameId) -> bool
        requires { name.place < length self.now.names }
        ensures { IsTrue result ↔ ((x : Stander) × IsIn x self.now.events × (x.event.lead ≡ name_at self.now.names name.place)) }
    {
        self.names.lawful();
        self.events.is_lead(name)
    }

    /// The id of the event of this name, if it stands. It takes no memory.
    pub fn find_event(&self, name: &EventName) -> Option<EventId>
        ensures found { IfSome result (λ id. (x : Stander) × IsIn x self.now.events × (x.id ≡ id) × (pair x.event ≡ name.now)) }
        ensures absent { IfNone result ((x : Stander) → IsIn x self.now.events → pair x.event ≢ name.now) }
    {
        self.lawful();
        let lead = self.names.find(name.lead())?;
        let id = self.led_by(lead)?;
        match self.event(id) {
            Some(event) if self.names.is(event.interaction.other, name.other()) => Some(id),
            Some(_) => None,
            None => unreachable!(),
        }
    }

    /// One event more, fired in this line, with its direct causes, which stand, in constant time for each but for growth. It has
    /// at most four children. The serial number of each child is one more than the line. At an error nothing changes.
    #[inline(always)]
    pub fn insert_event(&mut self, line: u32, event: &NewEvent<'_>) -> Result<EventId, AllocError>
        requires named { IsNamed self.old.names event.now.interaction }
        requires is_new { IsNewEvent self.old.events line (event_in self.old.names event.now.interaction) }
        requires standing { All (Stands self.old.events) event.now.causes.now }
        requires once { IsOnce event.now.causes.now }
        requires children { All (λ a. a.serial ≡ line + 1) event.now.born.now }
        requires four { length event.now.born.now ≤ 4 }
        ensures entered { IfOk result (λ id. (id.line ≡ line) × Alike (record { id = id; event = event_in self.old.names event.now.interaction; rank = event.now.rank; born = event.now.born.now; causes = event.now.causes.now } ∷ self.old.events) self.new.events) }
        ensures names { self.new.names ≡ self.old.names }
        ensures agents { self.new.agents ≡ self.old.agents }
        ensures unchanged { OnErr result (self.new ≡ self.old) }
    {
        self.events.insert(line, event)
    }

    /// The event under the id goes, if it stands, and with it the agents that are its children. The place of its lead's name
    /// is answered; `None` if no event stands under the id. It is no direct cause of another. It takes no memory, and time
    /// that grows with the dependents of its causes.
    pub fn remove_event(&mut self, id: EventId) -> Option<NameId>
        requires { (x : Stander) → IsIn x self.old.events → IsIn id x.causes → ⊥ }
        ensures gone { (x : Stander) → IsIn x self.old.events → x.id ≡ id → Alike self.old.events (x ∷ self.new.events) }
        ensures children { (x : Stander) → IsIn x self.old.events → x.id ≡ id → Loses x.born self.old.agents self.new.agents }
        ensures lead { (x : Stander) → IsIn x self.old.events → x.id ≡ id → IsSomeAnd result (λ lead. StandsAt self.old.names x.event.lead lead.place) }
        ensures absent { ((x : Stander) → IsIn x self.old.events → x.id ≢ id) → IsNone result }
        ensures names { self.new.names ≡ self.old.names }
        ensures unchanged { ((x : Stander) → IsIn x self.old.events → x.id ≢ id) → self.new ≡ self.old }
    {
        self.events.remove(id, &mut self.agents)
    }

    /// All events go, and with each the agents that are its children, in one look at every slot that ever had an event. It
    /// takes no memory.
    pub fn clear_events(&mut self)
        ensures events { self.new.events ≡ [] }
        ensures agents { (m : Member) → IsIn m self.new.agents ↔ (IsIn m self.old.agents × ¬ (IsBorn self.old.events m.id)) }
        ensures names { self.new.names ≡ self.old.names }
    {
        self.events.clear(&mut self.agents);
    }
}
