ghost use Rattle.std.specs.Prelude.{◌≡◌, ◌*◌, ◌<◌, ◌≤◌, ◌^◌, length, map, count_by, [], List};
ghost use Rattle.std.specs.List.{flat_map};
ghost use Rattle.std.specs.Ordering.{is_lt};
ghost use Rattle.ic_name.specs.declared.ports.Port.TheVariants as ports;
ghost use Rattle.ic_name.specs.Names.{Name};
ghost use Rattle.ic_names.specs.Tables.{name_at};
ghost use Rattle.ic_theory.specs.Listed.{port_cmp, ends_from};
ghost use Rattle.ic_net.specs.Sheets.{agent_ends, name_end, is_lesser_end};
ghost use Rattle.ic_net.specs.Placed.{port_at, listed_at, free_at};

use crate::sheet::{PlacedAgent, PlacedPort};
use ic_names::{NameId, NameTable};

/// Whether an agent's port is less than another port: ports of agents come by name and number, and before names.
fn is_agent_port_less(names: &NameTable, name: NameId, number: u8, port: PlacedPort) -> bool
    ensures { result ≡ is_lt (port_cmp (ports.Of (name_at names.now name.place) number) (port_at names.now port)) }
{
    match port {
        PlacedPort::Of(other, other_number) => names
            .cmp(name, other)
            .then(number.cmp(&other_number))
            .is_lt(),
        PlacedPort::Name(_) => true,
    }
}

/// Whether a name of the text is less than a port.
fn is_name_less(number: u32, port: PlacedPort) -> bool
    ensures { (ns : List Name) → result ≡ is_lt (port_cmp (ports.Name number) (port_at ns port)) }
{
    match port {
        PlacedPort::Of(_, _) => false,
        PlacedPort::Name(other) => number < other,
    }
}

/// How many of an agent's ports are the lesser ends of their wires.
fn lesser_ends(names: &NameTable, name: NameId, partners: &[PlacedPort]) -> u64
    requires few { length partners.now ≤ 3 }
    ensures count { result ≡ count_by is_lesser_end (ends_from (name_at names.now name.place) 0 (map (port_at names.now) partners.now)) }
    ensures few { result ≤ 3 }
{
    let mut wires = 0;
    for number in 0..partners.len() {
        if is_agent_port_less(names, name, number as u8, partners[number]) {
            wires += 1;
        }
    }
    wires
}

/// The wires whose lesser end is a port of one of these agents.
pub(crate) fn agent_wires(names: &NameTable, agents: &[PlacedAgent]) -> u64
    requires few { 3 * length agents.now < 2 ^ 64 }
    ensures count { result ≡ count_by is_lesser_end (flat_map agent_ends (map (listed_at names.now) agents.now)) }
    ensures few { result ≤ 3 * length agents.now }
{
    let mut wires = 0;
    for agent in agents {
        wires += lesser_ends(names, agent.name, agent.partners.as_slice());
    }
    wires
}

/// The wires between two of these names.
pub(crate) fn name_wires(frees: &[(u32, PlacedPort)]) -> u64
    requires few { length frees.now < 2 ^ 64 }
    ensures count { (ns : List Name) → result ≡ count_by is_lesser_end (map name_end (map (free_at ns) frees.now)) }
    ensures few { result ≤ length frees.now }
{
    let mut wires = 0;
    for (number, partner) in frees {
        if is_name_less(*number, *partner) {
            wires += 1;
        }
    }
    wires
}
