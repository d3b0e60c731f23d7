//! A net's names as places in a table.
ghost use Rattle.std.specs.Prelude.{◌≡◌, map, All, IfOk, OnOk};
ghost use Rattle.ic_name.specs.Names.{Name};
ghost use Rattle.ic_names.specs.Tables.{StandsAt};
ghost use Rattle.ic_net.specs.Sheets.{partner_list, listed_agent};
ghost use Rattle.ic_net.specs.Placed.{Stands, HasPortName, HasAgentNames, IsPortInside, IsAgentInside, placed_list, port_at, listed_at, free_at};

use crate::agents::{NetAgent, Partners};
use crate::sheet::{PlacedAgent, PlacedPartners, PlacedPort};
use ic_name::{AgentName, Port};
use ic_names::{NameId, NameTable};
use std::alloc::{AllocError, Global};
use std::collections::BTreeMap;

/// Enters the name of a port's agent, if the port has one. At an error memory ran out.
fn enter_port(names: &mut NameTable, port: &Port) -> Result<(), AllocError>
    ensures entered { OnOk result (HasPortName names.new port.now) }
    ensures kept { (n : Name) → Stands names.old n → Stands names.new n }
{
    match port {
        Port::Of(name, _) => {
            names.enter(name)?;
            Ok(())
        }
        Port::Name(_) => Ok(()),
    }
}

/// Enters the names of an agent and of its partners. At an error memory ran out.
fn enter_agent(names: &mut NameTable, name: &AgentName, agent: &NetAgent) -> Result<(), AllocError>
    ensures entered { OnOk result (HasAgentNames names.new (listed_agent (name.now, agent.now))) }
    ensures kept { (n : Name) → Stands names.old n → Stands names.new n }
{
    names.enter(name)?;
    for port in agent.partners.as_slice() {
        enter_port(names, port)?;
    }
    Ok(())
}

/// Enters the names of agents and of their partners. At an error memory ran out.
pub(crate) fn enter_agents(
    names: &mut NameTable,
    agents: &BTreeMap<AgentName, NetAgent>,
) -> Result<(), AllocError>
    ensures entered { OnOk result (All (HasAgentNames names.new) (map listed_agent agents.now.entries)) }
    ensures kept { (n : Name) → Stands names.old n → Stands names.new n }
{
    for (name, agent) in agents {
        enter_agent(names, name, agent)?;
    }
    Ok(())
}

/// Enters the names of the agents that are partners of free names. At an error memory ran out.
pub(crate) fn enter_frees(
    names: &mut NameTable,
    frees: &BTreeMap<u32, Port>,
) -> Result<(), AllocError>
    ensures entered { OnOk result (All (λ f. HasPortName names.new f.1) frees.now.entries) }
    ensures kept { (n : Name) → Stands names.old n → Stands names.new n }
{
    for (_, partner) in frees {
        enter_port(names, partner)?;
    }
    Ok(())
}

/// The place of a name that stands in the table.
fn place_of(names: &NameTable, name: &AgentName) -> NameId
    requires { Stands names.now name.now }
    ensures { StandsAt names.now name.now result.place }
{
    match names.find(name) {
        Some(id) => id,
        None => unreachable!(),
    }
}

/// The port, by places.
fn place_port(names: &NameTable, port: &Port) -> PlacedPort
    requires { HasPortName names.now port.now }
    ensures shown { port_at names.now result ≡ port.now }
    ensures inside { IsPortInside names.now result }
{
    match port {
        Port::Of(name, number) => PlacedPort::Of(place_of(names, name), *number),
        Port::Name(number) => PlacedPort::Name(*number),
    }
}

/// The partners of an agent's ports, by places.
fn place_partners(names: &NameTable, partners: &Partners) -> PlacedPartners
    requires { All (HasPortName names.now) (partner_list partners.now) }
    ensures shown { map (port_at names.now) (placed_list result) ≡ partner_list partners.now }
    ensures inside { All (IsPortInside names.now) (placed_list result) }
{
    match partners {
        Partners::One(ports) => PlacedPartners::One([place_port(names, &ports[0])]),
        Partners::Three(ports) => PlacedPartners::Three([
            place_port(names, &ports[0]),
            place_port(names, &ports[1]),
            place_port(names, &ports[2]),
        ]),
    }
}

/// The agents of a table, by places. At an error memory ran out.
pub(crate) fn place_agents(
    alloc: Global,
    names: &NameTable,
    agents: &BTreeMap<AgentName, NetAgent>,
) -> Result<Vec<PlacedAgent>, AllocError>
    requires { All (HasAgentNames names.now) (map listed_agent agents.now.entries) }
    ensures shown { IfOk result (λ placed. map (listed_at names.now) placed.items ≡ map listed_agent agents.now.entries) }
    ensures inside { IfOk result (λ placed. All (IsAgentInside names.now) placed.items) }
{
    let mut placed = Vec::with_capacity(alloc, agents.len())?;
    for (name, agent) in agents {
        placed.push(PlacedAgent {
            name: place_of(names, name),
            kind: agent.kind,
            partners: place_partners(names, &agent.partners),
        })?;
    }
    Ok(placed)
}

/// The free names of a table with their partners, by places. At an error memory ran out.
pub(crate) fn place_frees(
    alloc: Global,
    names: &NameTable,
    frees: &BTreeMap<u32, Port>,
) -> Result<Vec<(u32, PlacedPort)>, AllocError>
    requires { All (λ f. HasPortName names.now f.1) frees.now.entries }
    ensures shown { IfOk result (λ placed. map (free_at names.now) placed.items ≡ frees.now.entries) }
    ensures inside { IfOk result (λ placed. All (λ f. IsPortInside names.now f.1) placed.items) }
{
    let mut placed = Vec::with_capacity(alloc, frees.len())?;
    for (number, partner) in frees {
        placed.push((*number, place_port(names, partner)))?;
    }
    Ok(placed)
}
