ghost use Rattle.std.specs.Prelude.{◌≡◌, List, IfOk};
ghost use Rattle.ic_path.specs.Links.{degree};
ghost use Rattle.ic_name.specs.declared.ids.LinkId.{LinkId as ALinkId};
ghost use Rattle.ic_name.specs.declared.ids.Spot.{Spot as ASpot};
ghost use Rattle.ic_name.specs.declared.ids.Spot.TheVariants as spots;
ghost use Rattle.ic_link.specs.Links.{shape, Joins};
ghost use Rattle.ic_cause.specs.Makers.{AreMakers};

use ic_link::LinkStore;
use ic_name::{AgentId, EventId, Spot};
use smallvec::SmallVec;
use std::alloc::AllocError;

/// The direct causes of an event of two agents whose principal ports a path of the store joins: the events that made
/// links of the path, each once (Danos and Krivine 2004). They take memory only if events made more than four of these
/// links. An error comes if there is none for them, or for the ids of the path, which a store may list first.
pub fn direct_causes<L: LinkStore>(
    store: &L,
    a: AgentId,
    b: AgentId,
) -> Result<SmallVec<EventId, 4>, AllocError>
    requires loose { degree shape (L.links store.now) (spots.Agent a 0) ≡ 1 }
    requires joined { (ids : List ALinkId) × Joins (L.links store.now) (spots.Agent a 0) ids (spots.Agent b 0) }
    ensures { IfOk result (λ causes. (ids : List ALinkId) × Joins (L.links store.now) (spots.Agent a 0) ids (spots.Agent b 0) × AreMakers ids causes.items) }
{
    store.lawful();
    path_makers(store, Spot::Agent(a, 0))
}

/// The events that made links of the path from a spot with one link end, each once. Memory and errors are as at
/// `direct_causes`.
#[inline(always)]
pub fn path_makers<L: LinkStore>(store: &L, spot: Spot) -> Result<SmallVec<EventId, 4>, AllocError>
    requires { degree shape (L.links store.now) spot ≡ 1 }
    ensures { IfOk result (λ makers. (ids : List ALinkId) × ((q : ASpot) × Joins (L.links store.now) spot ids q) × AreMakers ids makers.items) }
{
    let mut makers = store.makers(spot)?;
    if makers.len() > 1 {
        makers.sort_unstable();
        makers.dedup();
    }
    Ok(makers)
}
