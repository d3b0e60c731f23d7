ghost use Rattle.std.specs.Prelude.{◌≡◌, ◌<◌, ◌↔◌, [], length, All, IfOk, IsErrOf, OnErr};
ghost use Rattle.ic_name.specs.Names.{depth as depth_of, child_name};
ghost use Rattle.ic_names.specs.Tables.{name_at, StandsAt, IsTable, Enters, GrowsUpTo};
ghost use Rattle.ic_path.specs.Orders.{IsIn};
ghost use Rattle.ic_roster.specs.Rosters.{Stander, HaveOwnNames, HaveOwnLines, Stands, event_in, IsNamed};

use crate::agent_records::AgentRecords;
use crate::event_records::EventRecords;
use crate::interaction::Interaction;
use ic_name::limits::MAX_DEPTH;
use ic_name::{AgentName, ChildFault, Event};
use ic_names::{NameId, NameTable};
use std::alloc::{AllocError, Global};
use std::marker::Model;

/// The agents of a bench and its standing events, each under its id and found in one look by its name. Names lie in one table,
/// which never forgets one.
#[derive(Drop)]
pub struct Roster {
    pub(crate) names: NameTable,
    pub(crate) agents: AgentRecords,
    pub(crate) events: EventRecords,
}

impl Model for Roster {
    ghost use Rattle.ic_roster.specs.Rosters.{RosterView};
    ghost use Rattle.ic_roster.specs.Placed.{roster_in, AreNamed};

    ghost Value = { RosterView };

    ghost view = { λ r. roster_in r.names r.agents r.events };

    ghost invariant = { λ r. AreNamed r.names r.agents r.events };
}

impl Roster {
    /// No agents and no events. It takes no memory yet.
    pub fn new(alloc: Global) -> Roster
        ensures names { result.names ≡ [] }
        ensures agents { result.agents ≡ [] }
        ensures events { result.events ≡ [] }
    {
        Roster {
            names: NameTable::new(alloc),
            agents: AgentRecords::new(alloc),
            events: EventRecords::new(alloc),
        }
    }

    /// The invariant of every roster.
    pub fn lawful(&self)
        ensures table { IsTable self.now.names }
        ensures names { HaveOwnNames self.now.agents }
        ensures lines { HaveOwnLines self.now.events }
        ensures causes { (x : Stander) → IsIn x self.now.events → All (Stands self.now.events) x.causes }
    {
        self.names.lawful();
        self.agents.lawful();
        self.events.lawful();
    }

    /// The names that are known: those of all agents and events, and of what once was there.
    pub fn names(&self) -> &NameTable
        ensures { result.now ≡ self.now.names }
    {
        &self.names
    }

    /// The place of the name, which is entered with its ancestors where they weren't there. At an error nothing changes.
    pub fn enter_name(&mut self, name: &AgentName) -> Result<NameId, AllocError>
        ensures entered { IfOk result (λ id. StandsAt self.new.names name.now id.place) }
        ensures grown { IfOk result (λ id. GrowsUpTo self.old.names name.now self.new.names) }
        ensures agents { self.new.agents ≡ self.old.agents }
        ensures events { self.new.events ≡ self.old.events }
        ensures unchanged { OnErr result (self.new ≡ self.old) }
    {
        self.names.enter(name)
    }

    /// The place of the child with this digit, which is entered where it wasn't there, in constant time but for growth. It
    /// is `Deep` where the parent has `MAX_DEPTH` digits, and only there. At an error nothing changes.
    pub fn enter_child_name(&mut self, parent: NameId, digit: u8) -> Result<NameId, ChildFault>
        requires inside { parent.place < length self.old.names }
        requires small { digit < 4 }
        ensures entered { IfOk result (λ id. StandsAt self.new.names (child_name (name_at self.old.names parent.place) digit) id.place) }
        ensures grown { IfOk result (λ id. Enters self.old.names (child_name (name_at self.old.names parent.place) digit) self.new.names) }
        ensures deep { IsErrOf result ChildFault.Deep ↔ (depth_of (name_at self.old.names parent.place) ≡ MAX_DEPTH) }
        ensures agents { self.new.agents ≡ self.old.agents }
        ensures events { self.new.events ≡ self.old.events }
        ensures unchanged { OnErr result (self.new ≡ self.old) }
    {
        self.names.enter_child(parent, digit)
    }

    /// The event of these names. At an error memory ran out.
    pub fn read(&self, interaction: Interaction) -> Result<Event, AllocError>
        requires { IsNamed self.now.names interaction }
        ensures { IfOk result (λ event. event ≡ event_in self.now.names interaction) }
    {
        let Some(lead) = self.names.name(interaction.lead)? else {
            unreachable!()
        };
        let Some(other) = self.names.name(interaction.other)? else {
            unreachable!()
        };
        match Event::of(lead, interaction.lead_kind, other, interaction.other_kind) {
            Some(event) => Ok(event),
            None => unreachable!(),
        }
    }
}
