ghost use Rattle.std.specs.Prelude.{◌≡◌, ◌↔◌, IsTrue, map};
ghost use Rattle.ic_net.specs.Sheets.{listed_agent};

use crate::agents::NetAgent;
use ic_name::{AgentName, Port};
use std::collections::BTreeMap;

/// Whether two ports are one.
pub(crate) fn same_port(left: &Port, right: &Port) -> bool
    ensures { IsTrue result ↔ (left.now ≡ right.now) }
{
    match (left, right) {
        (Port::Of(name, number), Port::Of(other, other_number)) => number == other_number
            && name.is(other),
        (Port::Name(number), Port::Name(other)) => number == other,
        _ => false,
    }
}

/// Whether two agents have the same name, kind and partners.
fn same_agent(name: &AgentName, agent: &NetAgent, other_name: &AgentName, other: &NetAgent) -> bool
    ensures { IsTrue result ↔ (listed_agent (name.now, agent.now) ≡ listed_agent (other_name.now, other.now)) }
{
    name.is(other_name)
        && agent.kind == other.kind
        && same_ports(agent.partners.as_slice(), other.partners.as_slice())
}

/// Whether two lists of ports are one.
pub(crate) fn same_ports(left: &[Port], right: &[Port]) -> bool
    ensures { IsTrue result ↔ (left.now ≡ right.now) }
{
    left.len() == right.len() && left.iter().zip(right.iter()).all(|(a, b)| same_port(a, b))
}

/// Whether two tables of agents list the same.
pub(crate) fn same_agents(
    left: &BTreeMap<AgentName, NetAgent>,
    right: &BTreeMap<AgentName, NetAgent>,
) -> bool
    ensures { IsTrue result ↔ (map listed_agent left.now.entries ≡ map listed_agent right.now.entries) }
{
    left.len() == right.len()
        && left
            .iter()
            .zip(right.iter())
            .all(|(a, b)| same_agent(a.0, a.1, b.0, b.1))
}

/// Whether two tables of names are one.
pub(crate) fn same_frees(left: &BTreeMap<u32, Port>, right: &BTreeMap<u32, Port>) -> bool
    ensures { IsTrue result ↔ (left.now.entries ≡ right.now.entries) }
{
    left.len() == right.len()
        && left
            .iter()
            .zip(right.iter())
            .all(|(a, b)| a.0 == b.0 && same_port(a.1, b.1))
}
