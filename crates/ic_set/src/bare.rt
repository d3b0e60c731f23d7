ghost use Rattle.std.specs.Prelude.{◌≡◌, [], IfOk};
ghost use Rattle.ic_name.specs.Names.{start_name};
ghost use Rattle.ic_names.specs.Tables.{IsTable};
ghost use Rattle.ic_theory.specs.Born.{named};
ghost use Rattle.ic_set.specs.Sets.{IsStandingSet};
ghost use Rattle.ic_set.specs.Changes.{IsOver};
ghost use Rattle.ic_set.specs.Entering.{Enters};

use crate::entering::{agents_of_kinds, enter_all};
use crate::joining::add_start;
use ic_link::LinkStore;
use ic_name::AgentId;
use ic_roster::Roster;
use ic_start::Start;
use smallvec::SmallVec;
use std::alloc::{AllocError, Global};
use std::marker::Model;

/// A standing set without its queue of leads: its events with their direct causes, and the agents that they leave, each under
/// its id, and the links in a store.
#[derive(Drop)]
pub struct BareSet<L: LinkStore> {
    pub(crate) start: Start,
    pub(crate) roster: Roster,
    pub(crate) store: L,
    pub(crate) alloc: Global,
}

impl<L: LinkStore> Model for BareSet<L> {
    ghost use Rattle.ic_set.specs.Views.{NamedView};
    ghost use Rattle.ic_set.specs.Sets.{IsKept};

    ghost Value = { NamedView };

    ghost view = { λ a. record { set = record { start = a.start; agents = a.roster.agents; events = a.roster.events }; names = a.roster.names } };

    ghost invariant = { λ a. IsKept (record { start = a.start; agents = a.roster.agents; events = a.roster.events }) (L.links a.store) };
}

impl<L: LinkStore> BareSet<L> {
    /// The empty set over a start, with room for its agents and for the events of as many pairs as
    /// they make, if there is memory for that.
    pub fn over(alloc: Global, start: Start) -> Result<BareSet<L>, AllocError>
        ensures { IfOk result (λ set. IsOver start set.set) }
    {
        let (set, _ids) = BareSet::over_agents(alloc, start)?;
        Ok(set)
    }

    /// The empty set over a start as `over` makes it, and the ids of the start's agents, by number.
    pub fn over_agents(
        alloc: Global,
        start: Start,
    ) -> Result<(BareSet<L>, SmallVec<AgentId, 4>), AllocError>
        ensures set { IfOk result (λ opened. IsOver start opened.0.set) }
        ensures ids { IfOk result (λ opened. Enters [] (named start_name 0 start.kinds) 0 opened.1.items opened.0.set.agents) }
    {
        start.lawful();
        let mut roster = Roster::new(alloc);
        // Room that is refused here is looked for once more as agents and events come.
        let _ = roster.reserve_agents(start.agents());
        let _ = roster.reserve_events(start.agents() / 2);
        let entering = agents_of_kinds(alloc, &mut roster, start.kinds())?;
        let ids = enter_all(alloc, &mut roster, &entering, 0)?;
        roster.lawful();
        let mut store = L::empty(alloc);
        add_start(&mut store, ids.as_slice(), start.links())?;
        let set = BareSet {
            start,
            roster,
            store,
            alloc,
        };
        Ok((set, ids))
    }

    /// The invariant of every standing set.
    pub fn lawful(&self)
        ensures set { IsStandingSet self.now.set }
        ensures table { IsTable self.now.names }
    {
        self.roster.lawful();
    }

    /// The start.
    pub fn start(&self) -> &Start
        ensures { result.now ≡ self.now.set.start }
    {
        &self.start
    }

    /// The agents of the start and of the events, and the standing events, with the names that are known.
    pub fn roster(&self) -> &Roster
        ensures agents { result.now.agents ≡ self.now.set.agents }
        ensures events { result.now.events ≡ self.now.set.events }
        ensures names { result.now.names ≡ self.now.names }
    {
        &self.roster
    }
}
