ghost use Rattle.std.specs.Prelude.{◌≡◌, ◌*◌, ◌<◌, ◌≤◌, ◌^◌, length, map, count_by};
ghost use Rattle.std.specs.List.{flat_map};
ghost use Rattle.std.specs.Ordering.{is_lt};
ghost use Rattle.ic_name.specs.declared.ports.Port.TheVariants as ports;
ghost use Rattle.ic_theory.specs.Listed.{port_cmp, ends_from};
ghost use Rattle.ic_net.specs.Sheets.{listed_agent, agent_ends, name_end, is_lesser_end};

use crate::agents::NetAgent;
use ic_name::{AgentName, Port};
use std::collections::BTreeMap;

/// Whether an agent's port is less than another port: ports of agents come by name and number, and before names.
fn is_agent_port_less(name: &AgentName, number: u8, port: &Port) -> bool
    ensures { result ≡ is_lt (port_cmp (ports.Of name.now number) port.now) }
{
    match port {
        Port::Of(other, other_number) => name.cmp(other).then(number.cmp(other_number)).is_lt(),
        Port::Name(_) => true,
    }
}

/// Whether a name of the text is less than a port.
fn is_name_less(number: u32, port: &Port) -> bool
    ensures { result ≡ is_lt (port_cmp (ports.Name number) port.now) }
{
    match port {
        Port::Of(_, _) => false,
        Port::Name(other) => number.cmp(other).is_lt(),
    }
}

/// How many of an agent's ports are the lesser ends of their wires.
fn lesser_ends(name: &AgentName, partners: &[Port]) -> u64
    requires few { length partners.now ≤ 3 }
    ensures count { result ≡ count_by is_lesser_end (ends_from name.now 0 partners.now) }
    ensures few { result ≤ 3 }
{
    let mut wires = 0;
    for number in 0..partners.len() {
        if is_agent_port_less(name, number as u8, &partners[number]) {
            wires += 1;
        }
    }
    wires
}

/// The wires whose lesser end is an agent's port.
pub(crate) fn agent_wires(agents: &BTreeMap<AgentName, NetAgent>) -> u64
    requires few { 3 * length agents.now.entries < 2 ^ 64 }
    ensures count { result ≡ count_by is_lesser_end (flat_map agent_ends (map listed_agent agents.now.entries)) }
    ensures few { result ≤ 3 * length agents.now.entries }
{
    let mut wires = 0;
    for (name, agent) in agents {
        wires += lesser_ends(name, agent.partners.as_slice());
    }
    wires
}

/// The wires between two names.
pub(crate) fn name_wires(frees: &BTreeMap<u32, Port>) -> u64
    requires few { length frees.now.entries < 2 ^ 64 }
    ensures count { result ≡ count_by is_lesser_end (map name_end frees.now.entries) }
    ensures few { result ≤ length frees.now.entries }
{
    let mut wires = 0;
    for (number, port) in frees {
        if is_name_less(*number, port) {
            wires += 1;
        }
    }
    wires
}
