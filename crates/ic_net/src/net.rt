ghost use Rattle.std.specs.Prelude.{◌≡◌, ◌↔◌, ◌≤◌, ◌<◌, ◌^◌, [], length, map, IfOk, IsTrue, option_copied};
ghost use Rattle.ic_theory.specs.Nets.{net_of, IsSameNet};
ghost use Rattle.ic_theory.specs.Listed.{IsListing, shown, wires_of, active_pairs};
ghost use Rattle.ic_net.specs.Sheets.{IsReached};
ghost use Rattle.ic_net.specs.Placed.{HasNames};

use crate::agents::NetAgent;
use crate::far::far_table;
use crate::naming::{named_agents, named_frees};
use crate::pairs::active_of;
use crate::placing::{enter_agents, enter_frees, place_agents, place_frees};
use crate::same::{same_agents, same_frees};
use crate::sheet::{NetSheet, SheetLists};
use crate::tables::{agents_of, frees_of, name_ends};
use crate::wires::{agent_wires, name_wires};
use ic_name::{AgentName, Kind, Port, Profile};
use ic_names::NameTable;
use ic_start::Start;
use std::alloc::{AllocError, Global};
use std::collections::BTreeMap;
use std::marker::Model;

/// A net without its links: its agents by name, the partner of each loose port, a number of rings, and a profile.
#[derive(Drop)]
pub struct Net {
    pub(crate) agents: BTreeMap<AgentName, NetAgent>,
    pub(crate) frees: BTreeMap<u32, Port>,
    pub(crate) rings: u64,
    pub(crate) profile: Profile,
}

impl Model for Net {
    ghost use Rattle.std.specs.Prelude.{map};
    ghost use Rattle.ic_theory.specs.Listed.{ListedNet};

    ghost Value = { ListedNet };

    ghost use Rattle.ic_net.specs.Sheets.{listed_agent, IsNet};

    ghost view = { λ n. record { agents = map listed_agent n.agents.entries; frees = n.frees.entries; rings = n.rings; profile = n.profile } };

    ghost invariant = { λ n. IsNet (record { agents = map listed_agent n.agents.entries; frees = n.frees.entries; rings = n.rings; profile = n.profile }) };
}

impl Net {
    /// The net of a start: no event has been fired in it.
    pub fn of_start(alloc: Global, start: &Start) -> Result<Net, AllocError>
        ensures net { IfOk result (λ n. IsSameNet (shown n) (net_of start.now [])) }
        ensures agents { IfOk result (λ n. length n.agents ≡ length start.now.kinds) }
        ensures few_rings { IfOk result (λ n. n.rings ≤ length start.now.joins) }
    {
        start.lawful();
        let (count, names, links) = (start.agents(), start.names().len(), start.links());
        links.lawful();
        let table = far_table(alloc, count, names, links)?;
        let ends = table.ends.as_slice();
        let times = name_ends(alloc, count, names, links)?;
        let agents = agents_of(alloc, start.kinds(), names, ends)?;
        let frees = frees_of(alloc, count, times.as_slice(), ends)?;
        Ok(Net {
            agents,
            frees,
            rings: table.rings,
            profile: start.profile(),
        })
    }

    /// The net of a sheet, whose agents and free names are found from then on.
    pub fn of_sheet(alloc: Global, sheet: &NetSheet<'_>) -> Result<Net, AllocError>
        ensures { IfOk result (λ net. net ≡ sheet.now) }
    {
        let SheetLists {
            names,
            agents,
            frees,
        } = sheet.lists();
        let agents = named_agents(alloc, names, agents)?;
        let frees = named_frees(alloc, names, frees)?;
        Ok(Net {
            agents: BTreeMap::from_iter(alloc, agents)?,
            frees: BTreeMap::from_iter(alloc, frees)?,
            rings: sheet.rings(),
            profile: sheet.profile(),
        })
    }

    /// The invariant of every net.
    pub fn lawful(&self)
        ensures listing { IsListing self.now }
        ensures few_agents { length self.now.agents < 2 ^ 32 }
        ensures few_frees { length self.now.frees < 2 ^ 32 }
        ensures few_rings { self.now.rings < 2 ^ 63 }
        ensures reached { IsReached (shown self.now) }
    {
        let _ = &self.rings;
    }

    /// The kind of an agent of the net. It takes no memory.
    pub fn kind(&self, name: &AgentName) -> Option<Kind>
        ensures { result ≡ (shown self.now).kind name.now }
    {
        match self.agents.get(name) {
            Some(agent) => Some(agent.kind),
            None => None,
        }
    }

    /// The partner of a loose port; `None` for any other. It takes no memory.
    pub fn partner(&self, port: &Port) -> Option<&Port>
        ensures { option_copied result ≡ (shown self.now).partner port.now }
    {
        match port {
            Port::Of(name, number) => match self.agents.get(name) {
                Some(agent) => agent.partners.as_slice().get(usize::from(*number)),
                None => None,
            },
            Port::Name(number) => self.frees.get(number),
        }
    }

    /// The number of agents.
    pub fn agents(&self) -> usize
        ensures { result ≡ length self.now.agents }
    {
        self.agents.len()
    }

    /// The number of wires; each joins two loose ports. It takes no memory.
    pub fn wires(&self) -> u64
        ensures { result ≡ wires_of self.now }
    {
        agent_wires(&self.agents) + name_wires(&self.frees)
    }

    /// The active pairs: the two agents whose principal ports meet, the lesser one, the lead, first, in order of leads.
    pub fn active(&self, alloc: Global) -> Result<Vec<(AgentName, AgentName)>, AllocError>
        ensures { IfOk result (λ pairs. pairs.items ≡ active_pairs self.now) }
    {
        active_of(alloc, &self.agents)
    }

    /// A table with the names of the net's agents. At an error memory ran out, or there is no place for all of them.
    pub fn names(&self, alloc: Global) -> Result<NameTable, AllocError>
        ensures { IfOk result (λ names. HasNames names self.now) }
    {
        let mut names = NameTable::new(alloc);
        enter_agents(&mut names, &self.agents)?;
        enter_frees(&mut names, &self.frees)?;
        Ok(names)
    }

    /// The net as a list, by the places of its names in a table that has them all. At an error memory ran out.
    pub fn sheet<'a>(&self, alloc: Global, names: &'a NameTable) -> Result<NetSheet<'a>, AllocError>
        requires { HasNames names.now self.now }
        ensures { IfOk result (λ sheet. sheet ≡ self.now) }
    {
        Ok(NetSheet {
            names,
            agents: place_agents(alloc, names, &self.agents)?,
            frees: place_frees(alloc, names, &self.frees)?,
            rings: self.rings,
            profile: self.profile,
        })
    }

    /// Whether two nets are the same, name by name and port by port. It takes no memory.
    pub fn same(&self, other: &Net) -> bool
        ensures { IsTrue result ↔ (self.now ≡ other.now) }
    {
        self.rings == other.rings
            && self.profile == other.profile
            && same_agents(&self.agents, &other.agents)
            && same_frees(&self.frees, &other.frees)
    }

    /// The number of rings.
    pub fn rings(&self) -> u64
        ensures { result ≡ self.now.rings }
    {
        self.rings
    }

    /// Which ports an annihilation of two gammas joins.
    pub fn profile(&self) -> Profile
        ensures { result ≡ self.now.profile }
    {
        self.profile
    }
}
