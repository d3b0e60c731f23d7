//! Nets as lists: the agents in the order of their names, each with the partners of its ports, and the free names, each
//! with its partner. All names of agents are places in a table.
ghost use Rattle.std.specs.Prelude.{◌≡◌, map};
ghost use Rattle.ic_theory.specs.Listed.{wires_of};
ghost use Rattle.ic_net.specs.Sheets.{IsNet};
ghost use Rattle.ic_net.specs.Placed.{listed_at, free_at, AreInside};

pub mod making;
pub mod placed;
mod wires;

use crate::sheet::wires::{agent_wires, name_wires};
use ic_name::Profile;
use ic_names::NameTable;
pub use making::NetMaker;
pub use placed::{PlacedAgent, PlacedPartners, PlacedPort};
use std::marker::Model;

/// A net that lies as it is listed: its agents in the order of their names, each with the partners of its ports, and its
/// free names in the order of their numbers, each with its partner. No name is copied: each stands at its place in the
/// table.
#[derive(Drop)]
pub struct NetSheet<'a> {
    pub(crate) names: &'a NameTable,
    pub(crate) agents: Vec<PlacedAgent>,
    pub(crate) frees: Vec<(u32, PlacedPort)>,
    pub(crate) rings: u64,
    pub(crate) profile: Profile,
}

impl<'a> Model for NetSheet<'a> {
    ghost use Rattle.ic_theory.specs.Listed.{ListedNet};

    ghost Value = { ListedNet };

    ghost use Rattle.ic_net.specs.Sheets.{IsNet};
    ghost use Rattle.ic_net.specs.Placed.{listed_by, AreInside};

    ghost view = { λ s. listed_by s.names.now s.agents.items s.frees.items s.rings s.profile };

    ghost invariant = { λ s. IsNet (listed_by s.names.now s.agents.items s.frees.items s.rings s.profile) × AreInside s.names.now s.agents.items s.frees.items };
}

/// What a net is listed by: a table of names, its agents, and its free names with their partners.
#[derive(Clone, Copy)]
pub struct SheetLists<'a> {
    pub names: &'a NameTable,
    pub agents: &'a [PlacedAgent],
    pub frees: &'a [(u32, PlacedPort)],
}

impl<'a> NetSheet<'a> {
    /// What it is listed by.
    pub fn lists(&self) -> SheetLists<'_>
        ensures net { IsNet self.now }
        ensures agents { map (listed_at result.names.now) result.agents.now ≡ self.now.agents }
        ensures frees { map (free_at result.names.now) result.frees.now ≡ self.now.frees }
        ensures inside { AreInside result.names.now result.agents.now result.frees.now }
    {
        SheetLists {
            names: self.names,
            agents: &self.agents,
            frees: &self.frees,
        }
    }

    /// The number of wires; each joins two loose ports. It takes no memory.
    pub fn wires(&self) -> u64
        ensures { result ≡ wires_of self.now }
    {
        agent_wires(self.names, &self.agents) + name_wires(&self.frees)
    }

    /// The number of rings.
    pub fn rings(&self) -> u64
        ensures { result ≡ self.now.rings }
    {
        self.rings
    }

    /// Which ports an annihilation of two gammas joins.
    pub fn profile(&self) -> Profile
        ensures { result ≡ self.now.profile }
    {
        self.profile
    }
}
