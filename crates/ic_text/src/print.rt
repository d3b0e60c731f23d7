//! The printed text of a net.
ghost use Rattle.std.specs.Prelude.{◌≡◌, map, IfOk};
ghost use Rattle.ic_text.specs.NetText.{net_text};

mod agent_lines;
pub mod agents;
mod free;
mod numbered;
mod numbers;
mod port_numbers;
mod ports;
mod put;

use crate::print::free::put_free_wires;
use crate::print::numbered::NumberedAgents;
use crate::print::put::{put_agents, put_header, put_profile, put_rings};
pub use agents::print_agents;
use ic_net::{Net, NetSheet};
use ic_start::Texts;
use std::alloc::{AllocError, Global};

/// The length of the shortest line of an agent, but for the name in it.
const LEAST_LINE: usize = "E = ;\n".len();

/// The printed text of a net with these texts of names: a line of counts, the agents, the wires between free names, and
/// the rings. Wires that aren't named by a free name get numbers in order of first appearance.
pub fn print_net(alloc: Global, net: &Net, names: &Texts) -> Result<Vec<u8>, AllocError>
    ensures { IfOk result (λ text. text.items ≡ net_text names.now net.now) }
{
    let table = net.names(alloc)?;
    print_sheet(alloc, &net.sheet(alloc, &table)?, names)
}

/// The printed text of a net that is listed by places, as `print_net` gives it.
///
/// The other end of each wire between agents is found by the place of its name in one look, and each wire between free names
/// is entered in a map; the rest is linear in the net and its text.
pub fn print_sheet(alloc: Global, net: &NetSheet<'_>, names: &Texts) -> Result<Vec<u8>, AllocError>
    ensures { IfOk result (λ text. text.items ≡ net_text names.now net.now) }
{
    let lists = net.lists();
    let agents = lists.agents.len();
    let numbered = NumberedAgents::new(alloc, lists)?;
    let mut out = Vec::with_capacity(alloc, agents.saturating_mul(LEAST_LINE))?;
    put_header(&mut out, agents as u64, net.wires(), net.rings())?;
    put_profile(&mut out, net.profile())?;
    put_agents(&mut out, &numbered, names)?;
    put_free_wires(&mut out, lists.frees, names)?;
    put_rings(&mut out, numbered.count(), net.rings())?;
    Ok(out)
}
