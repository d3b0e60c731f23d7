ghost use Rattle.std.specs.Prelude.{◌≡◌, ◌≤◌, length};
ghost use Rattle.ic_net.specs.Sheets.{partner_list};

use ic_name::{Kind, Port};

/// An agent of a net: its kind, and the partners of its ports by number.
#[derive(Drop)]
pub struct NetAgent {
    pub kind: Kind,
    pub partners: Partners,
}

/// The partners of an agent's ports, by number: of an epsilon's one port, or of the three of a gamma or delta.
#[derive(Drop)]
pub enum Partners {
    One([Port; 1]),
    Three([Port; 3]),
}

impl Partners {
    /// The partners as a slice.
    pub fn as_slice(&self) -> &[Port]
        ensures value { result.now ≡ partner_list self.now }
        ensures few { length result.now ≤ 3 }
    {
        match self {
            Partners::One(ports) => ports,
            Partners::Three(ports) => ports,
        }
    }
}
