ghost use Rattle.std.specs.Prelude.{◌≡◌, ◌+◌, ◌*◌, ◌<◌, ◌≤◌, ◌^◌, if◌then◌else◌, length, IfOk};
ghost use Rattle.ic_path.specs.FarEnds.{far, splice};
ghost use Rattle.ic_path.specs.Rings.{rings};
ghost use Rattle.ic_name.specs.Spots.{same_spot};
ghost use Rattle.ic_name.specs.declared.ids.Spot.{Spot as ASpot};
ghost use Rattle.ic_link.specs.Links.{shape};
ghost use Rattle.ic_start.specs.Starts.{IsStartSpot, AreStartLinks};
ghost use Rattle.ic_net.specs.FarTables.{place_of, end_at, IsFarTable, HasFarEnds};

use ic_name::{AgentId, Spot};
use ic_start::StartLinks;
use std::alloc::{AllocError, Global};

/// The far ends of a start's ports, by place, and the number of rings.
#[derive(Drop)]
pub struct FarTable {
    pub ends: Vec<Spot>,
    pub rings: u64,
}

/// The place of a spot in a table for so many agents and names.
pub fn place_of(agents: usize, names: usize, spot: Spot) -> usize
    requires inside { IsStartSpot agents names spot }
    requires agents { agents < 2 ^ 32 }
    requires names { names ≤ 2 ^ 32 }
    ensures place { result ≡ place_of agents spot }
    ensures within { result < 3 * agents + names }
{
    match spot {
        Spot::Agent(agent, port) => 3 * agent.slot as usize + usize::from(port),
        Spot::Name(number) => 3 * agents + number as usize,
    }
}

/// What a table has for a spot.
pub fn end_of(ends: &[Spot], agents: usize, names: usize, spot: Spot) -> Spot
    requires table { IsFarTable agents names ends.now }
    requires inside { IsStartSpot agents names spot }
    requires agents { agents < 2 ^ 32 }
    requires names { names ≤ 2 ^ 32 }
    ensures end { result ≡ end_at agents ends.now spot }
    ensures inside { IsStartSpot agents names result }
{
    ends[place_of(agents, names, spot)]
}

/// The spot that has this place.
fn spot_at(agents: usize, names: usize, place: usize) -> Spot
    requires within { place < 3 * agents + names }
    requires agents { agents < 2 ^ 32 }
    requires names { names ≤ 2 ^ 32 }
    ensures place { place_of agents result ≡ place }
    ensures inside { IsStartSpot agents names result }
{
    if place < 3 * agents {
        let agent = AgentId {
            slot: (place / 3) as u32,
            serial: 0,
        };
        Spot::Agent(agent, (place % 3) as u8)
    } else {
        Spot::Name((place - 3 * agents) as u32)
    }
}

impl FarTable {
    /// Puts a link in. The far ends of its two spots become each other's. If they are already, a ring is closed.
    fn join(&mut self, agents: usize, names: usize, a: Spot, b: Spot)
        requires table { IsFarTable agents names self.old.ends.items }
        requires left { IsStartSpot agents names a }
        requires right { IsStartSpot agents names b }
        requires agents { agents < 2 ^ 32 }
        requires names { names ≤ 2 ^ 32 }
        requires room { self.old.rings + 1 < 2 ^ 64 }
        ensures table { IsFarTable agents names self.new.ends.items }
        ensures spliced { HasFarEnds agents names self.new.ends.items (splice shape (end_at agents self.old.ends.items) a b) }
        ensures rings { self.new.rings ≡ (if same_spot (end_at agents self.old.ends.items a) b then 1 else 0) + self.old.rings }
    {
        let from_a = end_of(&self.ends, agents, names, a);
        let from_b = end_of(&self.ends, agents, names, b);
        self.ends[place_of(agents, names, from_b)] = from_a;
        self.ends[place_of(agents, names, from_a)] = from_b;
        if from_a == b {
            self.rings += 1;
        }
    }
}

/// The table without links: each spot is its own far end.
fn bare_ends(alloc: Global, agents: usize, names: usize) -> Result<Vec<Spot>, AllocError>
    requires agents { agents < 2 ^ 32 }
    requires names { names ≤ 2 ^ 32 }
    ensures table { IfOk result (λ ends. IsFarTable agents names ends.items) }
    ensures bare { IfOk result (λ ends. HasFarEnds agents names ends.items (λ p. p)) }
{
    let mut ends = Vec::with_capacity(alloc, 3 * agents + names)?;
    for place in 0..3 * agents + names {
        ends.push(spot_at(agents, names, place))?;
    }
    Ok(ends)
}

/// The far ends of a start with these links, and the number of its rings.
pub fn far_table(
    alloc: Global,
    agents: usize,
    names: usize,
    links: &StartLinks,
) -> Result<FarTable, AllocError>
    requires agents { agents < 2 ^ 32 }
    requires names { names ≤ 2 ^ 32 }
    requires links { AreStartLinks agents names 0 links.now }
    ensures table { IfOk result (λ t. IsFarTable agents names t.ends.items) }
    ensures ends { IfOk result (λ t. HasFarEnds agents names t.ends.items (far shape links.now)) }
    ensures rings { IfOk result (λ t. t.rings ≡ rings shape links.now) }
{
    let ends = bare_ends(alloc, agents, names)?;
    let mut table = FarTable { ends, rings: 0 };
    let count = links.len();
    for done in 0..count {
        let Some(link) = links.get(count - 1 - done) else {
            unreachable!()
        };
        table.join(agents, names, link.a, link.b);
    }
    Ok(table)
}
