ghost use Rattle.std.specs.Prelude.{◌≡◌, ◌≢◌, ◌↔◌, IsSome, IfSome, IfOk};
ghost use Rattle.ic_name.specs.Events.{event_of};

use ic_name::{AgentName, Event, Kind};
use std::alloc::AllocError;
use std::marker::Model;

/// An event to fire. It is made of names and kinds alone, so a thread can make it before it takes a lock.
#[derive(Drop)]
pub struct Proposal {
    event: Event,
}

impl Model for Proposal {
    ghost use Rattle.ic_name.specs.Events.{Event};

    ghost Value = { Event };

    ghost view = { λ p. p.event };
}

impl Proposal {
    /// A proposal that these two agents meet, in whichever order they are given. `None` for equal names.
    pub fn make(a: AgentName, a_kind: Kind, b: AgentName, b_kind: Kind) -> Option<Proposal>
        ensures some { IsSome result ↔ (a ≢ b) }
        ensures event { IfSome result (λ p. p ≡ event_of a a_kind b b_kind) }
    {
        match Event::of(a, a_kind, b, b_kind) {
            Some(event) => Some(Proposal { event }),
            None => None,
        }
    }

    /// The proposal once more. At an error memory ran out.
    pub fn copy(&self) -> Result<Proposal, AllocError>
        ensures { IfOk result (λ copy. copy ≡ self.now) }
    {
        Ok(Proposal {
            event: self.event.copy()?,
        })
    }

    /// The event.
    pub fn event(&self) -> &Event
        ensures { result.now ≡ self.now }
    {
        &self.event
    }
}
