ghost use Rattle.std.specs.Prelude.{◌≡◌, ◌==◌, ℕ, ◌+◌, ◌<◌, ◌≤◌, ◌^◌, if◌then◌else◌, length, map, IfOk, OnOk, slice_index};
ghost use Rattle.std.specs.BTreeMap.{IsOrdered, insert_entry};
ghost use Rattle.std.specs.Ordering.{nat_cmp};
ghost use Rattle.ic_path.specs.Links.{degree};
ghost use Rattle.ic_name.specs.Names.{name_cmp};
ghost use Rattle.ic_name.specs.Spots.{same_spot};
ghost use Rattle.ic_name.specs.declared.ids.Spot.TheVariants as spots;
ghost use Rattle.ic_link.specs.Links.{shape};
ghost use Rattle.ic_start.specs.Starts.{IsStartSpot, AreStartLinks, port_at};
ghost use Rattle.ic_net.specs.FarTables.{IsFarTable, agent_partner, name_partner};
ghost use Rattle.ic_net.specs.Sheets.{partner_list, listed_agent};
ghost use Rattle.ic_net.specs.Nets.{at_ports, listed_from, frees_upto};

use crate::agents::{NetAgent, Partners};
use crate::far::end_of;
use ic_name::{AgentId, AgentName, Kind, Port, Spot};
use ic_start::StartLinks;
use std::alloc::{AllocError, Global};
use std::collections::BTreeMap;

/// The port that a spot of a start stands for.
fn port_of(alloc: Global, agents: usize, names: usize, spot: Spot) -> Port
    requires inside { IsStartSpot agents names spot }
    requires few { agents ≤ 65535 }
    ensures { result ≡ port_at spot }
{
    match spot {
        Spot::Agent(agent, port) => Port::Of(
            AgentName::start(alloc, agent.slot as u16).unwrap(),
            port,
        ),
        Spot::Name(number) => Port::Name(number),
    }
}

/// A table of far ends, for so many agents and names.
#[derive(Clone, Copy)]
struct FarEnds<'a> {
    agents: usize,
    names: usize,
    ends: &'a [Spot],
}

/// The partner of a start agent's port, by a table of far ends.
fn partner_of(alloc: Global, table: &FarEnds<'_>, number: u32, port: u8) -> Port
    requires table { IsFarTable table.now.agents table.now.names table.now.ends.now }
    requires few { table.now.agents ≤ 65535 }
    requires names { table.now.names ≤ 2 ^ 32 }
    requires number { number < table.now.agents }
    requires port { port ≤ 2 }
    ensures { result ≡ agent_partner table.now.agents table.now.ends.now number port }
{
    let agent = AgentId {
        slot: number,
        serial: 0,
    };
    let spot = Spot::Agent(agent, port);
    let end = end_of(table.ends, table.agents, table.names, spot);
    port_of(alloc, table.agents, table.names, end)
}

/// The partners of a start agent's ports, by a table of far ends.
fn partners_of(alloc: Global, table: &FarEnds<'_>, number: u32, kind: Kind) -> Partners
    requires table { IsFarTable table.now.agents table.now.names table.now.ends.now }
    requires few { table.now.agents ≤ 65535 }
    requires names { table.now.names ≤ 2 ^ 32 }
    requires number { number < table.now.agents }
    ensures { partner_list result ≡ at_ports kind (agent_partner table.now.agents table.now.ends.now number) }
{
    match kind {
        Kind::Eps => Partners::One([partner_of(alloc, table, number, 0)]),
        Kind::Gamma | Kind::Delta => Partners::Three([
            partner_of(alloc, table, number, 0),
            partner_of(alloc, table, number, 1),
            partner_of(alloc, table, number, 2),
        ]),
    }
}

/// The agents of a start of these kinds, by a table of far ends.
pub(crate) fn agents_of(
    alloc: Global,
    kinds: &[Kind],
    names: usize,
    ends: &[Spot],
) -> Result<BTreeMap<AgentName, NetAgent>, AllocError>
    requires table { IsFarTable (length kinds.now) names ends.now }
    requires few { length kinds.now ≤ 65535 }
    requires names { names ≤ 2 ^ 32 }
    ensures listed { IfOk result (λ m. map listed_agent m.entries ≡ listed_from (agent_partner (length kinds.now) ends.now) 0 kinds.now) }
    ensures ordered { IfOk result (λ m. IsOrdered name_cmp m) }
{
    let mut agents = BTreeMap::new(alloc);
    let count = kinds.len();
    let table = FarEnds {
        agents: count,
        names,
        ends,
    };
    for number in 0..count {
        let kind = kinds[number];
        let name = AgentName::start(alloc, number as u16).unwrap();
        let partners = partners_of(alloc, &table, number as u32, kind);
        let _ = agents.insert(name, NetAgent { kind, partners })?;
    }
    Ok(agents)
}

/// One link end more at the spot, if it is a name.
fn count_end(times: &mut Vec<u8>, agents: usize, spot: Spot)
    requires inside { IsStartSpot agents (length times.old.items) spot }
    requires room { (j : ℕ) → slice_index times.old.items j < 255 }
    ensures long { length times.new.items ≡ length times.old.items }
    ensures counted { (j : ℕ) → j < length times.old.items → slice_index times.new.items j ≡ slice_index times.old.items j + (if same_spot (spots.Name j) spot then 1 else 0) }
{
    match spot {
        Spot::Agent(_, _) => {}
        Spot::Name(number) => times[number as usize] += 1,
    }
}

/// How many link ends are at each name of a start.
pub(crate) fn name_ends(
    alloc: Global,
    agents: usize,
    names: usize,
    links: &StartLinks,
) -> Result<Vec<u8>, AllocError>
    requires links { AreStartLinks agents names 0 links.now }
    requires few { (j : ℕ) → degree shape links.now (spots.Name j) ≤ 2 }
    ensures long { IfOk result (λ times. length times.items ≡ names) }
    ensures counted { IfOk result (λ times. (j : ℕ) → j < names → slice_index times.items j ≡ degree shape links.now (spots.Name j)) }
{
    let mut times = vec![in alloc; 0u8; names]?;
    for number in 0..links.len() {
        let Some(link) = links.get(number) else {
            unreachable!()
        };
        count_end(&mut times, agents, link.a);
        count_end(&mut times, agents, link.b);
    }
    Ok(times)
}

/// A free name's partner is entered.
fn put_free(frees: &mut BTreeMap<u32, Port>, number: u32, partner: Port) -> Result<(), AllocError>
    ensures put { OnOk result (frees.new.entries ≡ insert_entry nat_cmp frees.old.entries number partner) }
    ensures ordered { IsOrdered nat_cmp frees.new }
{
    let _ = frees.insert(number, partner)?;
    Ok(())
}

/// The names of a start that occur once, with their partners.
pub(crate) fn frees_of(
    alloc: Global,
    agents: usize,
    times: &[u8],
    ends: &[Spot],
) -> Result<BTreeMap<u32, Port>, AllocError>
    requires table { IsFarTable agents (length times.now) ends.now }
    requires few { agents ≤ 65535 }
    requires names { length times.now ≤ 2 ^ 32 }
    ensures listed { IfOk result (λ m. m.entries ≡ frees_upto (λ j. slice_index times.now j == 1) (name_partner agents ends.now) (length times.now)) }
    ensures ordered { IfOk result (λ m. IsOrdered nat_cmp m) }
{
    let mut frees = BTreeMap::new(alloc);
    let names = times.len();
    for number in 0..names {
        if times[number] == 1 {
            let end = end_of(ends, agents, names, Spot::Name(number as u32));
            put_free(
                &mut frees,
                number as u32,
                port_of(alloc, agents, names, end),
            )?;
        }
    }
    Ok(frees)
}
