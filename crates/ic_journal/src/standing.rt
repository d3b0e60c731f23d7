//! The standing set of a bench: its events with what they leave, and a queue of the leads of its active pairs.
ghost use Rattle.std.specs.Prelude.{◌≡◌, IfOk};
ghost use Rattle.ic_set.specs.Changes.{IsOver};

pub mod changes;
mod front;
mod queue;
pub mod renewing;

use crate::standing::queue::drop_stale;
use crate::standing::renewing::queue_of;
use ic_link::LinkStore;
use ic_names::LeadQueue;
use ic_set::{ActivePair, BareSet};
use ic_start::Start;
use std::alloc::{AllocError, Global};
use std::marker::Model;

/// The standing set of a bench over a start: its events, and the agents, the links and the causes that they leave, with
/// a queue of the leads of its active pairs, and the pair at the front of it. There is room in the queue for each name
/// that is known, so an undo takes none. The name of an agent that leads no pair any more goes when it comes to the front.
/// All but the queue and its front is in a box, so that a proof of a function that lets go of the set has one step for it.
#[derive(Drop)]
pub struct StandingSet<L: LinkStore> {
    pub(crate) bare: Box<BareSet<L>>,
    pub(crate) queue: LeadQueue,
    pub(crate) front: Option<ActivePair>,
    /// How many firings since the queue was made were of another pair than the front's.
    pub(crate) passed_over: usize,
    pub(crate) alloc: Global,
}

impl<L: LinkStore> Model for StandingSet<L> {
    ghost use Rattle.ic_set.specs.Views.{NamedView};
    ghost use Rattle.ic_journal.specs.Fronts.{KeepsQueue};

    ghost Value = { NamedView };

    ghost view = { λ a. a.bare.value };

    ghost invariant = { λ a. KeepsQueue a.bare.value a.queue a.front };
}

impl<L: LinkStore> StandingSet<L> {
    /// The empty set over a start.
    pub fn over(alloc: Global, start: Start) -> Result<StandingSet<L>, AllocError>
        ensures { IfOk result (λ set. IsOver start set.set) }
    {
        let (bare, ids) = BareSet::over_agents(alloc, start)?;
        bare.lawful();
        let mut queue = queue_of(alloc, &bare, ids.as_slice())?;
        let front = drop_stale(&mut queue, &bare);
        Ok(StandingSet {
            bare: Box::new(alloc, bare)?,
            queue,
            front,
            passed_over: 0,
            alloc,
        })
    }

    /// All of the set but its queue of leads and the front of that.
    pub fn bare(&self) -> &BareSet<L>
        ensures { result.now ≡ self.now }
    {
        &self.bare
    }
}
