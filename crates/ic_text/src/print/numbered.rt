ghost use Rattle.ic_text.specs.Lists.{agents_of};
ghost use Rattle.ic_text.specs.NetText.{numbered_wires};
ghost use Rattle.ic_text.specs.Numbers.{IsNumbering};

use crate::print::agent_lines::AgentLine;
use crate::print::numbers::{WireNumbers, number_wires};
use ic_names::NameTable;
use ic_net::{PlacedAgent, SheetLists};
use std::alloc::{AllocError, Global};

/// The agents of a net, and the numbers of the wires that their lines show by one.
#[derive(Drop)]
pub(crate) struct NumberedAgents<'a> {
    lists: SheetLists<'a>,
    numbers: WireNumbers,
    ghost numbering: { IsNumbering (agents_of lists) numbers (numbered_wires (agents_of lists)) },
}

impl<'a> NumberedAgents<'a> {
    ghost use Rattle.std.specs.Prelude.{◌≡◌, ◌<◌, ◌≤◌, ◌*◌, length, unwrap_or, IfOk};
    ghost use Rattle.ic_text.specs.Lists.{agent_on, partners_on, AreNetLists, IsOnLine};
    ghost use Rattle.ic_text.specs.Numbers.{port_wire, wire_place};
    ghost use Rattle.ic_text.specs.NumberedWires.{wires_in};

    /// The agents with the numbers of their wires.
    pub(crate) fn new(
        alloc: Global,
        lists: SheetLists<'a>,
    ) -> Result<NumberedAgents<'a>, AllocError>
        requires { AreNetLists lists }
        ensures { IfOk result (λ n. n.lists ≡ lists.entry) }
    {
        let numbers = number_wires(alloc, &lists)?;
        Ok(NumberedAgents { lists, numbers })
    }

    /// The agents.
    pub(crate) fn agents(&self) -> &'a [PlacedAgent]
        ensures { result.now ≡ self.now.lists.agents.now }
    {
        self.lists.agents
    }

    /// The table of their names.
    pub(crate) fn names(&self) -> &'a NameTable
        ensures { result.now ≡ self.now.lists.names.now }
    {
        self.lists.names
    }

    /// The number of the wire at an agent's port, or 0 for one that has none.
    pub(crate) fn number(&self, agent: &AgentLine<'_>, port: u8) -> u64
        requires placed { IsOnLine self.now.lists agent.now }
        requires port { port < length (partners_on agent.now) }
        ensures { result ≡ unwrap_or (wire_place (wires_in self.now) (port_wire (agent_on self.now.lists agent.now) port)) 0 }
    {
        self.numbers.number_at(agent.line, port).unwrap_or(0)
    }

    /// How many wires have numbers: at most three for each agent.
    pub(crate) fn count(&self) -> u64
        ensures value { result ≡ length (wires_in self.now) }
        ensures few { result ≤ 3 * length self.now.lists.agents.now }
    {
        self.numbers.count
    }
}
