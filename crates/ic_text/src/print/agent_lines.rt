ghost use Rattle.std.specs.Prelude.{◌≡◌, ◌<◌, length, IfOk, IsSome, slice_get};
ghost use Rattle.ic_names.specs.Tables.{name_at};
ghost use Rattle.ic_theory.specs.Listed.{agent_among};
ghost use Rattle.ic_text.specs.Lists.{agents_of, AreNetLists, AreLines};

use ic_names::NameId;
use ic_net::{PlacedAgent, SheetLists};
use ic_slots::SlotIndex;
use std::alloc::{AllocError, Global};

/// An agent of a net, with the number of its line among the agents' lines.
#[derive(Clone, Copy)]
pub(crate) struct AgentLine<'a> {
    pub(crate) line: usize,
    pub(crate) agent: &'a PlacedAgent,
}

/// The lines of a net's agents, each found by the place of the agent's name in one look.
#[derive(Drop)]
pub(crate) struct LinesByName {
    slots: SlotIndex,
}

impl LinesByName {
    /// The lines of these agents.
    pub(crate) fn of(alloc: Global, lists: &SheetLists<'_>) -> Result<LinesByName, AllocError>
        requires { AreNetLists lists.now }
        ensures { IfOk result (λ lines. AreLines lists.now.agents.now lines) }
    {
        let mut greatest = 0;
        for agent in lists.agents {
            greatest = agent.name.place.max(greatest);
        }
        let mut slots = SlotIndex::new(alloc);
        slots.reserve(greatest)?;
        for (line, agent) in lists.agents.iter().enumerate() {
            slots.put(agent.name.place, line as u32);
        }
        Ok(LinesByName { slots })
    }

    /// The line of the agent whose name is at this place.
    pub(crate) fn line_of(&self, lists: &SheetLists<'_>, name: NameId) -> usize
        requires net { AreNetLists lists.now }
        requires lines { AreLines lists.now.agents.now self.now }
        requires inside { name.place < length lists.now.names.now }
        requires there { IsSome (agent_among (name_at lists.now.names.now name.place) (agents_of lists.now)) }
        ensures { slice_get (agents_of lists.now) result ≡ agent_among (name_at lists.now.names.now name.place) (agents_of lists.now) }
    {
        lists.names.lawful();
        match self.slots.get(name.place) {
            Some(line) => line as usize,
            None => unreachable!(),
        }
    }
}
