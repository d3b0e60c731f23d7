ghost use Rattle.std.specs.Prelude.{◌≡◌, ◌++◌, List, map, OnOk, OnErr};
ghost use Rattle.ic_name.specs.declared.ids.Link.{Link as ALink};
ghost use Rattle.ic_path.specs.Orders.{Alike};
ghost use Rattle.ic_path.specs.Links.{IsSlim};
ghost use Rattle.ic_link.specs.Links.{shape, HaveOwnIds};
ghost use Rattle.ic_set.specs.Joining.{moved_spot as spot_moved, moved_link, HasNumber, HaveNumbers};

use ic_link::LinkStore;
use ic_name::{AgentId, Link, Spot};
use ic_start::StartLinks;
use std::alloc::AllocError;

/// Puts in the links of a start, between the agents under these ids, by number. At an error some of them may have been put
/// in, from the first one on.
pub(crate) fn add_start<L: LinkStore>(
    store: &mut L,
    ids: &[AgentId],
    links: &StartLinks,
) -> Result<(), AllocError>
    requires numbers { HaveNumbers ids.now links.now }
    requires slim { IsSlim shape (map (moved_link ids.now) links.now ++ L.links store.old) }
    requires own_ids { HaveOwnIds (map (moved_link ids.now) links.now ++ L.links store.old) }
    ensures added { OnOk result (Alike (map (moved_link ids.now) links.now ++ L.links store.old) (L.links store.new)) }
    ensures some { OnErr result ((front back : List ALink) × (map (moved_link ids.now) links.now ≡ front ++ back) × Alike (front ++ L.links store.old) (L.links store.new)) }
{
    for number in 0..links.len() {
        let Some(link) = links.get(number) else {
            unreachable!()
        };
        store.add(Link {
            id: link.id,
            a: moved_spot(ids, link.a),
            b: moved_spot(ids, link.b),
        })?;
    }
    Ok(())
}

/// A spot of a start, with the agent under the id that has its number.
fn moved_spot(ids: &[AgentId], spot: Spot) -> Spot
    requires { HasNumber ids.now spot }
    ensures { result ≡ spot_moved ids.now spot }
{
    match spot {
        Spot::Agent(agent, port) => Spot::Agent(ids[agent.slot as usize], port),
        Spot::Name(name) => Spot::Name(name),
    }
}
