//! Agents and ports by names of their own, made of places in a table.
ghost use Rattle.std.specs.Prelude.{◌≡◌, ◌<◌, length, map, All, IfOk};
ghost use Rattle.ic_names.specs.Tables.{name_at};
ghost use Rattle.ic_net.specs.Sheets.{partner_list, listed_agent};
ghost use Rattle.ic_net.specs.Placed.{IsPortInside, IsAgentInside, placed_list, port_at, listed_at, free_at};

use crate::agents::{NetAgent, Partners};
use crate::sheet::{PlacedAgent, PlacedPartners, PlacedPort};
use ic_name::{AgentName, Port};
use ic_names::{NameId, NameTable};
use std::alloc::{AllocError, Global};

/// The name at a place. At an error memory ran out.
fn name_of(names: &NameTable, id: NameId) -> Result<AgentName, AllocError>
    requires { id.place < length names.now }
    ensures { IfOk result (λ name. name ≡ name_at names.now id.place) }
{
    match names.name(id)? {
        Some(name) => Ok(name),
        None => unreachable!(),
    }
}

/// The port that places stand for. At an error memory ran out.
fn port_of(names: &NameTable, port: PlacedPort) -> Result<Port, AllocError>
    requires { IsPortInside names.now port }
    ensures { IfOk result (λ named. named ≡ port_at names.now port) }
{
    match port {
        PlacedPort::Of(id, number) => Ok(Port::Of(name_of(names, id)?, number)),
        PlacedPort::Name(number) => Ok(Port::Name(number)),
    }
}

/// The partners that places stand for. At an error memory ran out.
fn partners_of(names: &NameTable, partners: PlacedPartners) -> Result<Partners, AllocError>
    requires { All (IsPortInside names.now) (placed_list partners) }
    ensures { IfOk result (λ named. partner_list named ≡ map (port_at names.now) (placed_list partners)) }
{
    match partners {
        PlacedPartners::One(ports) => Ok(Partners::One([port_of(names, ports[0])?])),
        PlacedPartners::Three(ports) => Ok(Partners::Three([
            port_of(names, ports[0])?,
            port_of(names, ports[1])?,
            port_of(names, ports[2])?,
        ])),
    }
}

/// The agents that places stand for. At an error memory ran out.
pub(crate) fn named_agents(
    alloc: Global,
    names: &NameTable,
    agents: &[PlacedAgent],
) -> Result<Vec<(AgentName, NetAgent)>, AllocError>
    requires { All (IsAgentInside names.now) agents.now }
    ensures { IfOk result (λ named. map listed_agent named.items ≡ map (listed_at names.now) agents.now) }
{
    let mut named = Vec::with_capacity(alloc, agents.len())?;
    for agent in agents {
        let name = name_of(names, agent.name)?;
        let partners = partners_of(names, agent.partners)?;
        named.push((
            name,
            NetAgent {
                kind: agent.kind,
                partners,
            },
        ))?;
    }
    Ok(named)
}

/// The free names with their partners that places stand for. At an error memory ran out.
pub(crate) fn named_frees(
    alloc: Global,
    names: &NameTable,
    frees: &[(u32, PlacedPort)],
) -> Result<Vec<(u32, Port)>, AllocError>
    requires { All (λ f. IsPortInside names.now f.1) frees.now }
    ensures { IfOk result (λ named. named.items ≡ map (free_at names.now) frees.now) }
{
    let mut named = Vec::with_capacity(alloc, frees.len())?;
    for (number, partner) in frees {
        named.push((*number, port_of(names, *partner)?))?;
    }
    Ok(named)
}
