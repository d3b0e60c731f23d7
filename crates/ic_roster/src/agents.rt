ghost use Rattle.std.specs.Prelude.{◌≡◌, ◌≢◌, ◌<◌, ◌∷◌, length, map, IfSome, IfNone, IfOk, OnErr};
ghost use Rattle.ic_path.specs.Orders.{Alike, IsIn};
ghost use Rattle.ic_name.specs.declared.kinds.Kind.{Kind as AKind};
ghost use Rattle.ic_names.specs.Tables.{name_at};
ghost use Rattle.ic_roster.specs.declared.agent_records.PlacedAgent.{PlacedAgent as APlacedAgent};
ghost use Rattle.ic_roster.specs.Placed.{IsAgentOf};
ghost use Rattle.ic_roster.specs.Rosters.{Member, IsNewName, AreByName};

use crate::agent_records::PlacedAgent;
use crate::roster::Roster;
use ic_name::{AgentId, AgentName, Kind};
use ic_names::NameId;
use std::alloc::{AllocError, Global};

/// An agent, to be read.
#[derive(Clone, Copy)]
pub struct AgentEntry {
    pub name: NameId,
    pub kind: Kind,
}

impl Roster {
    /// Makes room for so many agents more and their names, which grow without it, too. At an error nothing changes.
    pub fn reserve_agents(&mut self, count: usize) -> Result<(), AllocError>
        ensures { self.new ≡ self.old }
    {
        self.names.reserve(count)?;
        self.agents.reserve_records(count)
    }

    /// The number of agents.
    pub fn agent_count(&self) -> usize
        ensures { result ≡ length self.now.agents }
    {
        self.agents.len()
    }

    /// The agent under an id; `None` for an id that holds no more. It takes no memory.
    pub fn agent(&self, id: AgentId) -> Option<AgentEntry>
        ensures found { IfSome result (λ entry. IsIn (record { id = id; name = name_at self.now.names entry.name.place; kind = entry.kind }) self.now.agents) }
        ensures inside { IfSome result (λ entry. entry.name.place < length self.now.names) }
        ensures absent { IfNone result ((x : Member) → IsIn x self.now.agents → x.id ≢ id) }
    {
        self.agents.get(id)
    }

    /// The id of the agent of this name, if it is there. It takes no memory.
    pub fn find(&self, name: &AgentName) -> Option<AgentId>
        ensures found { IfSome result (λ id. (kind : AKind) × IsIn (record { id = id; name = name.now; kind = kind }) self.now.agents) }
        ensures absent { IfNone result (IsNewName self.now.agents name.now) }
    {
        let place = self.names.find(name)?;
        self.named(place)
    }

    /// The id of the agent whose name stands at this place, if it is there, in constant time. It takes no memory.
    pub fn named(&self, name: NameId) -> Option<AgentId>
        requires { name.place < length self.now.names }
        ensures found { IfSome result (λ id. (kind : AKind) × IsIn (record { id = id; name = name_at self.now.names name.place; kind = kind }) self.now.agents) }
        ensures absent { IfNone result (IsNewName self.now.agents (name_at self.now.names name.place)) }
    {
        self.names.lawful();
        self.agents.at(name)
    }

    /// All agents, in order of their names, each under its id and with the place of its name.
    pub fn in_order(&self, alloc: Global) -> Result<Vec<PlacedAgent>, AllocError>
        ensures order { IfOk result (λ agents. AreByName self.now.agents (map (λ a. a.id) agents.items)) }
        ensures told { IfOk result (λ agents. (a : APlacedAgent) → IsIn a agents.items → IsAgentOf self.now a) }
    {
        self.lawful();
        let mut agents = self.agents.all(alloc)?;
        agents.sort_by(|a, b| self.names.cmp(a.name, b.name))?;
        Ok(agents)
    }

    /// One agent more, whose name stands at this place, under an id with this serial number, in constant time but for
    /// growth. At an error nothing changes.
    pub fn insert_agent(
        &mut self,
        name: NameId,
        kind: Kind,
        serial: u32,
    ) -> Result<AgentId, AllocError>
        requires inside { name.place < length self.old.names }
        requires is_new { IsNewName self.old.agents (name_at self.old.names name.place) }
        ensures entered { IfOk result (λ id. (id.serial ≡ serial) × Alike (record { id = id; name = name_at self.old.names name.place; kind = kind } ∷ self.old.agents) self.new.agents) }
        ensures names { self.new.names ≡ self.old.names }
        ensures events { self.new.events ≡ self.old.events }
        ensures unchanged { OnErr result (self.new ≡ self.old) }
    {
        self.agents.insert(name, kind, serial)
    }

    /// The agent under the id goes, if there is one, in constant time. It takes no memory.
    pub fn remove_agent(&mut self, id: AgentId)
        ensures gone { (x : Member) → IsIn x self.old.agents → x.id ≡ id → Alike self.old.agents (x ∷ self.new.agents) }
        ensures names { self.new.names ≡ self.old.names }
        ensures events { self.new.events ≡ self.old.events }
        ensures unchanged { ((x : Member) → IsIn x self.old.agents → x.id ≢ id) → self.new ≡ self.old }
    {
        self.agents.remove(id);
    }
}
