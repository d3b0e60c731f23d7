ghost use Rattle.std.specs.Prelude.{◌≡◌, ◌≢◌, ◌↔◌, IsTrue, IsSome, IfSome, IfOk};
ghost use Rattle.std.specs.declared.cmp.Ordering.TheVariants.{Less};
ghost use Rattle.ic_name.specs.Names.{name_cmp};
ghost use Rattle.ic_name.specs.Events.{event_of, pair};

use crate::event_names::EventName;
use crate::kinds::Kind;
use crate::names::AgentName;
use std::alloc::AllocError;
use std::cmp::Ordering;
use std::marker::Model;

/// An event: two different agents with their kinds, the lesser one, its lead, first.
#[derive(Drop)]
pub struct Event {
    lead: AgentName,
    lead_kind: Kind,
    other: AgentName,
    other_kind: Kind,
}

impl Model for Event {
    ghost use Rattle.std.specs.Prelude.{◌≡◌};
    ghost use Rattle.std.specs.declared.cmp.Ordering.TheVariants.{Less};
    ghost use Rattle.ic_name.specs.Names.{name_cmp};
    ghost use Rattle.ic_name.specs.Events.{Event};

    ghost Value = { Event };

    ghost view = { λ e. record { lead = e.lead; lead_kind = e.lead_kind; other = e.other; other_kind = e.other_kind } };

    ghost invariant = { λ e. name_cmp e.lead e.other ≡ Less };
}

impl Event {
    /// The event of two agents with their kinds, in whichever order they are given. `None` for equal names.
    #[tactic(auto, using(crate::proofs::NameOrder::name_flip, crate::proofs::NameOrder::name_tied, crate::proofs::NameOrder::name_less_apart, crate::proofs::NameOrder::name_greater_apart))]
    pub fn of(a: AgentName, a_kind: Kind, b: AgentName, b_kind: Kind) -> Option<Event>
        ensures some { IsSome result ↔ (a ≢ b) }
        ensures event { IfSome result (λ e. e ≡ event_of a a_kind b b_kind) }
        ensures ordered { IfSome result (λ e. name_cmp e.lead e.other ≡ Less) }
    {
        match a.cmp(&b) {
            Ordering::Less => Some(Event {
                lead: a,
                lead_kind: a_kind,
                other: b,
                other_kind: b_kind,
            }),
            Ordering::Equal => None,
            Ordering::Greater => Some(Event {
                lead: b,
                lead_kind: b_kind,
                other: a,
                other_kind: a_kind,
            }),
        }
    }

    /// The invariant of every event: the lead is the lesser one.
    pub fn lawful(&self)
        ensures { name_cmp self.now.lead self.now.other ≡ Less }
    {
        let _ = &self.lead;
    }

    /// Whether the two events are one. It takes no memory.
    pub fn is(&self, other: &Event) -> bool
        ensures { IsTrue result ↔ (self.now ≡ other.now) }
    {
        self.lead.is(&other.lead)
            && self.lead_kind == other.lead_kind
            && self.other.is(&other.other)
            && self.other_kind == other.other_kind
    }

    /// The lesser of the two agents.
    pub fn lead(&self) -> &AgentName
        ensures { result.now ≡ self.now.lead }
    {
        &self.lead
    }

    /// The kind of the lead.
    pub fn lead_kind(&self) -> Kind
        ensures { result ≡ self.now.lead_kind }
    {
        self.lead_kind
    }

    /// The greater of the two agents.
    pub fn other(&self) -> &AgentName
        ensures { result.now ≡ self.now.other }
    {
        &self.other
    }

    /// The kind of the other.
    pub fn other_kind(&self) -> Kind
        ensures { result ≡ self.now.other_kind }
    {
        self.other_kind
    }

    /// The names of its two agents, which name the event.
    pub fn name(&self) -> Result<EventName, AllocError>
        ensures { IfOk result (λ name. name ≡ pair self.now) }
    {
        let lead = self.lead.copy()?;
        let other = self.other.copy()?;
        Ok(EventName { lead, other })
    }

    /// The same event once more.
    pub fn copy(&self) -> Result<Event, AllocError>
        ensures { IfOk result (λ e. e ≡ self.now) }
    {
        let lead = self.lead.copy()?;
        let other = self.other.copy()?;
        Ok(Event {
            lead,
            lead_kind: self.lead_kind,
            other,
            other_kind: self.other_kind,
        })
    }
}
