ghost use Rattle.std.specs.Prelude.{◌≡◌, ◌≤◌, length};
ghost use Rattle.ic_net.specs.Placed.{placed_list};

use ic_name::Kind;
use ic_names::NameId;

/// A port of a net, by places: a port of the agent whose name stands at this place of the table, or the free name of this
/// number.
#[derive(Clone, Copy)]
pub enum PlacedPort {
    Of(NameId, u8),
    Name(u32),
}

/// The partners of an agent's ports, by number: of an epsilon's one port, or of the three of a gamma or delta.
#[derive(Clone, Copy)]
pub enum PlacedPartners {
    One([PlacedPort; 1]),
    Three([PlacedPort; 3]),
}

/// An agent of a net: the place of its name, its kind, and the partners of its ports.
#[derive(Clone, Copy)]
pub struct PlacedAgent {
    pub name: NameId,
    pub kind: Kind,
    pub partners: PlacedPartners,
}

impl PlacedPartners {
    /// The partners as a slice.
    pub fn as_slice(&self) -> &[PlacedPort]
        ensures value { result.now ≡ placed_list self.now }
        ensures few { length result.now ≤ 3 }
    {
        match self {
            PlacedPartners::One(ports) => ports,
            PlacedPartners::Three(ports) => ports,
        }
    }
}
