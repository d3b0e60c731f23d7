ghost use Rattle.std.specs.Prelude.{◌≡◌, ◌<◌, ◌≤◌, ◌∷◌, [], ◌⊎◌, length, IfOk, OnErr};
ghost use Rattle.ic_name.specs.Names.{depth, start_name, child_name};
ghost use Rattle.ic_name.specs.declared.limits.TheConstants.{MAX_DEPTH};
ghost use Rattle.ic_names.specs.Tables.{name_at};
ghost use Rattle.ic_path.specs.Orders.{Alike};
ghost use Rattle.ic_theory.specs.Born.{named};
ghost use Rattle.ic_roster.specs.Rosters.{IsNewName};
ghost use Rattle.ic_set.specs.Entering.{agents_in, AreNamed, GrowsBy, CanEnter, Enters};
ghost use Rattle.ic_set.specs.Removal.{LosesEach};

use ic_name::limits::MAX_START_AGENTS;
use ic_name::{AgentId, AgentName, ChildFault, Kind};
use ic_names::NameId;
use ic_roster::Roster;
use smallvec::SmallVec;
use std::alloc::{AllocError, Global};

/// An agent to enter, by the place of its name.
#[derive(Clone, Copy)]
pub(crate) struct NewAgent {
    pub name: NameId,
    pub kind: Kind,
}

/// The agents of a start, by number, whose names are entered.
pub(crate) fn agents_of_kinds(
    alloc: Global,
    roster: &mut Roster,
    kinds: &[Kind],
) -> Result<Vec<NewAgent>, AllocError>
    requires { length kinds.now ≤ MAX_START_AGENTS }
    ensures named { IfOk result (λ agents. agents_in roster.new.names agents.items ≡ named start_name 0 kinds.now) }
    ensures inside { IfOk result (λ agents. AreNamed roster.new.names agents.items) }
    ensures agents { roster.new.agents ≡ roster.old.agents }
    ensures events { roster.new.events ≡ roster.old.events }
{
    let mut agents = Vec::with_capacity(alloc, kinds.len())?;
    for number in 0..kinds.len() {
        let Some(name) = AgentName::start(alloc, number as u16) else {
            unreachable!()
        };
        let name = roster.enter_name(&name)?;
        agents.push(NewAgent {
            name,
            kind: kinds[number],
        })?;
    }
    Ok(agents)
}

/// Enters the children of the agent whose name is at this place, with these kinds, by digit, all with this serial number, and
/// gives their ids. At an error nothing else changes but that names may be known that weren't.
#[inline(always)]
pub(crate) fn enter_children(
    alloc: Global,
    roster: &mut Roster,
    lead: NameId,
    kinds: &[Kind],
    serial: u32,
) -> Result<SmallVec<AgentId, 4>, AllocError>
    requires inside { lead.place < length roster.old.names }
    requires few { length kinds.now ≤ 4 }
    requires shallow { (kinds.now ≡ []) ⊎ (depth (name_at roster.old.names lead.place) < MAX_DEPTH) }
    requires can { CanEnter roster.old.agents (named (child_name (name_at roster.old.names lead.place)) 0 kinds.now) }
    ensures entered { IfOk result (λ ids. Enters roster.old.agents (named (child_name (name_at roster.old.names lead.place)) 0 kinds.now) serial ids.items roster.new.agents) }
    ensures grown { GrowsBy (length kinds.now) roster.old.names roster.new.names }
    ensures events { roster.new.events ≡ roster.old.events }
    ensures unchanged { OnErr result (Alike roster.old.agents roster.new.agents) }
{
    let mut ids = SmallVec::new(alloc);
    for digit in 0..kinds.len() {
        let Ok(id) = enter_child(roster, lead, digit as u8, kinds[digit], serial) else {
            remove_all(roster, ids.as_slice());
            return Err(AllocError);
        };
        ids.push_reserved(id);
    }
    Ok(ids)
}

/// Enters the child with this digit and kind of the agent whose name is at this place, and gives its id, which has this serial
/// number. At an error nothing else changes but that its name may be known.
#[inline(always)]
fn enter_child(
    roster: &mut Roster,
    lead: NameId,
    digit: u8,
    kind: Kind,
    serial: u32,
) -> Result<AgentId, AllocError>
    requires inside { lead.place < length roster.old.names }
    requires small { digit < 4 }
    requires shallow { depth (name_at roster.old.names lead.place) < MAX_DEPTH }
    requires is_new { IsNewName roster.old.agents (child_name (name_at roster.old.names lead.place) digit) }
    ensures entered { IfOk result (λ id. (id.serial ≡ serial) × Alike (record { id = id; name = child_name (name_at roster.old.names lead.place) digit; kind = kind } ∷ roster.old.agents) roster.new.agents) }
    ensures grown { GrowsBy 1 roster.old.names roster.new.names }
    ensures events { roster.new.events ≡ roster.old.events }
    ensures unchanged { OnErr result (roster.new.agents ≡ roster.old.agents) }
{
    let name = match roster.enter_child_name(lead, digit) {
        Ok(name) => name,
        Err(ChildFault::Memory) => return Err(AllocError),
        Err(ChildFault::Deep) => unreachable!(),
    };
    roster.insert_agent(name, kind, serial)
}

/// Enters these agents, all with this serial number, and gives their ids. At an error nothing changes.
pub(crate) fn enter_all(
    alloc: Global,
    roster: &mut Roster,
    entering: &[NewAgent],
    serial: u32,
) -> Result<SmallVec<AgentId, 4>, AllocError>
    requires inside { AreNamed roster.old.names entering.now }
    requires can { CanEnter roster.old.agents (agents_in roster.old.names entering.now) }
    ensures entered { IfOk result (λ ids. Enters roster.old.agents (agents_in roster.old.names entering.now) serial ids.items roster.new.agents) }
    ensures names { roster.new.names ≡ roster.old.names }
    ensures events { roster.new.events ≡ roster.old.events }
    ensures unchanged { OnErr result (Alike roster.old.agents roster.new.agents) }
{
    let mut ids = SmallVec::new(alloc);
    ids.reserve(entering.len())?;
    for agent in entering {
        let Ok(id) = roster.insert_agent(agent.name, agent.kind, serial) else {
            remove_all(roster, ids.as_slice());
            return Err(AllocError);
        };
        ids.push_reserved(id);
    }
    Ok(ids)
}

/// The agents under these ids go. It takes no memory.
pub(crate) fn remove_all(roster: &mut Roster, ids: &[AgentId])
    ensures left { LosesEach ids.now roster.old.agents roster.new.agents }
    ensures names { roster.new.names ≡ roster.old.names }
    ensures events { roster.new.events ≡ roster.old.events }
{
    for id in ids {
        roster.remove_agent(*id);
    }
}
