ghost use Rattle.std.specs.Prelude.{◌≡◌, ◌<◌, ◌^◌, ◌++◌, ◌∷◌, [], length, map, OnOk, OnErr};
ghost use Rattle.std.specs.List.Sorted.{IsStrictlySortedBy};
ghost use Rattle.std.specs.Ordering.{nat_cmp};
ghost use Rattle.ic_name.specs.Names.{name_cmp};
ghost use Rattle.ic_theory.specs.Listed.{shown, IsListing};
ghost use Rattle.ic_names.specs.Tables.{name_at};
ghost use Rattle.ic_net.specs.Placed.{listed_at, free_at, IsAgentInside, IsPortInside};
ghost use Rattle.ic_net.specs.Sheets.{IsReached};
ghost use Rattle.ic_net.specs.Makings.{IsLastName, IsLastNumber, listed_parts};

use crate::sheet::{NetSheet, PlacedAgent, PlacedPartners, PlacedPort};
use ic_name::{Kind, Profile};
use ic_names::{NameId, NameTable};
use std::alloc::{AllocError, Global};
use std::marker::Model;

/// A net that is put together from its parts, one after the other: its agents in the order of their names, each with its
/// kind and the partners of its ports by number, its free names in the order of their numbers, each with its partner, and its
/// profile. The names of agents are places in a table.
#[derive(Drop)]
pub struct NetMaker<'a> {
    names: &'a NameTable,
    agents: Vec<PlacedAgent>,
    frees: Vec<(u32, PlacedPort)>,
    profile: Profile,
}

impl<'a> Model for NetMaker<'a> {
    ghost use Rattle.std.specs.Prelude.{map};
    ghost use Rattle.ic_net.specs.Makings.{NetParts};

    ghost Value = { NetParts };

    ghost use Rattle.ic_net.specs.Makings.{AreInOrder};
    ghost use Rattle.ic_net.specs.Placed.{listed_at, free_at};

    ghost view = { λ m. record { names = m.names.now; agents = map (listed_at m.names.now) m.agents.items; frees = map (free_at m.names.now) m.frees.items; profile = m.profile } };

    ghost invariant = { λ m. AreInOrder m.names.now m.agents.items m.frees.items };
}

impl<'a> NetMaker<'a> {
    /// No agents and no free names. It takes no memory yet.
    pub fn new(alloc: Global, names: &'a NameTable, profile: Profile) -> NetMaker<'a>
        ensures names { result.names ≡ names.now }
        ensures agents { result.agents ≡ [] }
        ensures frees { result.frees ≡ [] }
        ensures profile { result.profile ≡ profile }
    {
        NetMaker {
            names,
            agents: Vec::new(alloc),
            frees: Vec::new(alloc),
            profile,
        }
    }

    /// The invariant of every maker.
    pub fn lawful(&self)
        ensures in_order { IsStrictlySortedBy name_cmp (map (λ a. a.name) self.now.agents) }
        ensures numbered { IsStrictlySortedBy nat_cmp (map (λ f. f.0) self.now.frees) }
    {
        let _ = self.agents.len();
    }

    /// The number of agents.
    pub fn agents(&self) -> usize
        ensures { result ≡ length self.now.agents }
    {
        self.agents.len()
    }

    /// Adds an agent at the end, with the partners of its ports. At an error memory ran out, and nothing changes.
    pub fn push_agent(
        &mut self,
        name: NameId,
        kind: Kind,
        partners: PlacedPartners,
    ) -> Result<(), AllocError>
        requires inside { IsAgentInside self.old.names (record { name = name; kind = kind; partners = partners }) }
        requires last { IsLastName (name_at self.old.names name.place) self.old.agents }
        ensures names { OnOk result (self.new.names ≡ self.old.names) }
        ensures agents { OnOk result (self.new.agents ≡ self.old.agents ++ listed_at self.old.names (record { name = name; kind = kind; partners = partners }) ∷ []) }
        ensures frees { OnOk result (self.new.frees ≡ self.old.frees) }
        ensures profile { OnOk result (self.new.profile ≡ self.old.profile) }
        ensures unchanged { OnErr result (self.new ≡ self.old) }
    {
        self.agents.push(PlacedAgent {
            name,
            kind,
            partners,
        })?;
        Ok(())
    }

    /// Adds a free name at the end, with its partner. At an error memory ran out, and nothing changes.
    pub fn push_free(&mut self, number: u32, partner: PlacedPort) -> Result<(), AllocError>
        requires inside { IsPortInside self.old.names partner }
        requires last { IsLastNumber number self.old.frees }
        ensures names { OnOk result (self.new.names ≡ self.old.names) }
        ensures agents { OnOk result (self.new.agents ≡ self.old.agents) }
        ensures frees { OnOk result (self.new.frees ≡ self.old.frees ++ free_at self.old.names (number, partner) ∷ []) }
        ensures profile { OnOk result (self.new.profile ≡ self.old.profile) }
        ensures unchanged { OnErr result (self.new ≡ self.old) }
    {
        self.frees.push((number, partner))?;
        Ok(())
    }

    /// The net of what was put together, with this number of rings. It takes no memory.
    pub fn finish(self, rings: u64) -> NetSheet<'a>
        requires few_agents { length self.agents < 2 ^ 32 }
        requires few_frees { length self.frees < 2 ^ 32 }
        requires few_rings { rings < 2 ^ 63 }
        requires reached { IsReached (shown (listed_parts self rings)) }
        ensures sheet { result ≡ listed_parts self.entry rings }
        ensures listing { IsListing result }
    {
        self.lawful();
        let NetMaker {
            names,
            agents,
            frees,
            profile,
        } = self;
        NetSheet {
            names,
            agents,
            frees,
            rings,
            profile,
        }
    }
}
