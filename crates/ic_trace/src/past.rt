//! Standing sets without limits and without a history, and whether a list of events is a causal order.
ghost use Rattle.std.specs.Prelude.{◌≡◌, ◌<◌, [], length, option_map, IfOk, OnErr};
ghost use Rattle.ic_name.specs.declared.limits.TheConstants.{MAX_LINES};
ghost use Rattle.ic_theory.specs.Nets.{kind_of};
ghost use Rattle.ic_theory.specs.Sound.{IsSound};
ghost use Rattle.ic_theory.specs.Starts.{IsProper};
ghost use Rattle.ic_trace.specs.Pasts.{IsSamePast, Fires, Undoes, AreCausesNamed};

mod causal;
mod causes;
mod deep;
mod firing;

use crate::past::causes::names_of;
use crate::past::deep::{DeepEvent, consume, is_deep, place_of, rest_on};
use crate::past::firing::{fire_beside, fire_in_set};
pub use causal::is_causal_order;
use ic_link::LinkRows;
use ic_name::{AgentName, Event, EventName, Kind};
use ic_set::BareSet;
use ic_start::Start;
use std::alloc::{AllocError, Global};
use std::marker::Model;

/// The standing set of a bench without its limits and without a history: events are fired and undone in any causally
/// allowed order, however deep names may grow and however many agents there may be.
///
/// The children of some events have names with more digits than an event can name. Nothing can depend on such an event,
/// and it stands beside the set.
#[derive(Drop)]
pub struct Past {
    pub(crate) set: BareSet<LinkRows>,
    pub(crate) deep: Vec<DeepEvent>,
    /// Whether an event of the set is of a line.
    taken: Vec<bool>,
    pub(crate) alloc: Global,
}

impl Model for Past {
    ghost use Rattle.std.specs.Prelude.{◌++◌};
    ghost use Rattle.ic_set.specs.Views.{standing};
    ghost use Rattle.ic_trace.specs.Pasts.{PastView};
    ghost use Rattle.ic_trace.specs.DeepEvents.{deep_events, KeepsDeep};

    ghost Value = { PastView };

    ghost view = { λ p. record { start = p.set.set.start; events = deep_events p.deep.items ++ standing p.set.set } };

    ghost use Rattle.ic_trace.specs.Taken.{AreTaken};

    ghost invariant = { λ p. KeepsDeep p.set.set p.deep.items × AreTaken p.set.set.events p.taken.items };
}

impl Past {
    /// No event stands yet.
    pub fn over(alloc: Global, start: &Start) -> Result<Past, AllocError>
        ensures { IfOk result (λ past. past ≡ record { start = start.now; events = [] }) }
    {
        let start = start.copy()?;
        let set = BareSet::over(alloc, start)?;
        set.lawful();
        Ok(Past {
            set,
            deep: Vec::new(alloc),
            taken: Vec::new(alloc),
            alloc,
        })
    }

    /// The invariant of every past.
    pub fn lawful(&self)
        ensures proper { IsProper self.now.start }
        ensures sound { IsSound self.now.start self.now.events }
    {
        self.set.lawful();
    }
    /// The kind of the agent of this name; `None` if there is none, or a standing event consumed it. It takes no memory.
    pub fn kind(&self, name: &AgentName) -> Option<Kind>
        ensures { result ≡ kind_of self.now.start self.now.events name.now }
    {
        name.lawful();
        if consume(&self.deep, name) {
            return None;
        }
        self.set.kind(name)
    }

    /// Fires an event, if it is active; false if it isn't. At an error nothing changes.
    pub fn fire(&mut self, event: &Event) -> Result<bool, AllocError>
        requires { length self.old.events < MAX_LINES }
        ensures fired { IfOk result (λ yes. Fires self.old event.now yes self.new) }
        ensures unchanged { OnErr result (IsSamePast self.old self.new) }
    {
        event.lead().lawful();
        event.other().lawful();
        self.set.lawful();
        let Some(pair) = self.set.active_pair(event) else {
            return Ok(false);
        };
        if place_of(&self.deep, event.lead(), event.other()).is_some() {
            return Ok(false);
        }
        if is_deep(event, self.set.start().profile()) {
            fire_beside(&self.set, &mut self.deep, event, pair)?;
        } else {
            fire_in_set(&mut self.set, &mut self.taken, pair)?;
        }
        Ok(true)
    }

    /// Undoes the event of this name, if it stands and nothing depends on it; false if it doesn't. It takes no
    /// memory.
    pub fn undo(&mut self, event: &EventName) -> bool
        ensures { Undoes self.old event.now result self.new }
    {
        self.set.lawful();
        if let Some(place) = place_of(&self.deep, event.lead(), event.other()) {
            let _ = self.deep.swap_remove(place);
            return true;
        }
        let Some(id) = self.set.roster().find_event(event) else {
            return false;
        };
        if rest_on(&self.deep, id) || self.set.least_dependent(id).is_some() {
            return false;
        }
        let _ = self.set.take_out(id);
        self.taken[id.line as usize] = false;
        true
    }

    /// The names of the direct causes of the standing event of this name; `None` if no event of this name stands.
    pub fn causes(&self, event: &EventName) -> Result<Option<Vec<EventName>>, AllocError>
        ensures { IfOk result (λ causes. AreCausesNamed self.now event.now (option_map (λ names. names.items) causes)) }
    {
        self.set.lawful();
        if let Some(place) = place_of(&self.deep, event.lead(), event.other()) {
            let names = names_of(self.alloc, self.set.roster(), &self.deep[place].causes)?;
            return Ok(Some(names));
        }
        let Some(id) = self.set.roster().find_event(event) else {
            return Ok(None);
        };
        let causes = self.set.causes(id)?;
        let names = names_of(self.alloc, self.set.roster(), &causes)?;
        Ok(Some(names))
    }
}
