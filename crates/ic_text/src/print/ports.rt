ghost use Rattle.std.specs.Prelude.{◌≡◌, ◌<◌, length, List, All};
ghost use Rattle.ic_name.specs.Names.{Name};
ghost use Rattle.ic_net.specs.Placed.{placed_list, listed_at, port_at, IsPortInside};
ghost use Rattle.ic_text.specs.NetText.{partner_of};

use ic_net::{PlacedAgent, PlacedPort};

/// The partner of an agent's port.
pub(crate) fn partner(agent: &PlacedAgent, port: u8) -> PlacedPort
    requires { port < length (placed_list agent.now.partners) }
    ensures port { (ns : List Name) → port_at ns result ≡ partner_of (listed_at ns agent.now) port }
    ensures inside { (ns : List Name) → All (IsPortInside ns) (placed_list agent.now.partners) → IsPortInside ns result }
{
    agent.partners.as_slice()[usize::from(port)]
}
