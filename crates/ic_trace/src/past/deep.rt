ghost use Rattle.std.specs.Prelude.{◌≡◌, ◌≢◌, ◌↔◌, ◌<◌, IsTrue, IfSome, IfNone, length, slice_get, Some};
ghost use Rattle.ic_name.specs.Events.{pair};
ghost use Rattle.ic_path.specs.Orders.{IsIn};
ghost use Rattle.ic_theory.specs.Machine.{IsDeep};
ghost use Rattle.ic_theory.specs.Sets.{consumed_times};
ghost use Rattle.ic_trace.specs.declared.past.deep.DeepEvent.{DeepEvent as ADeepEvent};
ghost use Rattle.ic_trace.specs.DeepEvents.{deep_events};

use ic_name::limits::MAX_DEPTH;
use ic_name::{AgentName, Event, EventId, Profile};
use ic_start::outcome;

/// An event whose children no event can name, with the ids of its direct causes.
#[derive(Drop)]
pub(crate) struct DeepEvent {
    pub event: Event,
    pub causes: Vec<EventId>,
}

/// Whether no event can name the event's children.
pub(crate) fn is_deep(event: &Event, profile: Profile) -> bool
    ensures { IsTrue result ↔ IsDeep event.now }
{
    let rules = outcome(event.lead_kind(), event.other_kind(), profile);
    event.lead().depth() == MAX_DEPTH && !rules.children.is_empty()
}

/// The place of the event of these two agents, if it is one of these.
pub(crate) fn place_of(deep: &[DeepEvent], lead: &AgentName, other: &AgentName) -> Option<usize>
    ensures found { IfSome result (λ place. (d : ADeepEvent) × (slice_get deep.now place ≡ Some d) × (pair d.event ≡ record { lead = lead.now; other = other.now })) }
    ensures absent { IfNone result ((d : ADeepEvent) → IsIn d deep.now → pair d.event ≢ record { lead = lead.now; other = other.now }) }
{
    for place in 0..deep.len() {
        let event = &deep[place].event;
        if event.lead().is(lead) && event.other().is(other) {
            return Some(place);
        }
    }
    None
}

/// Whether one of the events consumed the agent of this name.
pub(crate) fn consume(deep: &[DeepEvent], name: &AgentName) -> bool
    ensures { IsTrue result ↔ (consumed_times name.now (deep_events deep.now) ≢ 0) }
{
    for standing in deep {
        if standing.event.lead().is(name) || standing.event.other().is(name) {
            return true;
        }
    }
    false
}

/// Whether one of the events has the one under the id as a direct cause.
pub(crate) fn rest_on(deep: &[DeepEvent], cause: EventId) -> bool
    ensures { IsTrue result ↔ ((d : ADeepEvent) × IsIn d deep.now × IsIn cause d.causes.items) }
{
    for standing in deep {
        if standing.causes.contains(&cause) {
            return true;
        }
    }
    false
}
