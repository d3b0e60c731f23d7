ghost use Rattle.std.specs.Prelude.{◌≡◌, ◌+◌, ◌<◌, ◌≤◌, ◌^◌, None, ℕ, length, IfOk};
ghost use Rattle.ic_name.specs.Kinds.{arity};
ghost use Rattle.ic_text.specs.NetText.{line_wires, numbered_wires};
ghost use Rattle.ic_text.specs.Lists.{agents_of, agent_on, partners_on, AreNetLists, AreLines, IsOnLine};
ghost use Rattle.ic_text.specs.Numbers.{number_at, Enters, GivesNumber, IsNumbering, port_wires};

use crate::print::agent_lines::{AgentLine, LinesByName};
use crate::print::port_numbers::PortNumbers;
use crate::print::ports::partner;
use ic_name::Kind;
use ic_net::{PlacedPort, SheetLists};
use std::alloc::{AllocError, Global};

/// Numbers of wires between agents, each kept at both ports that the wire joins.
#[derive(Drop)]
pub(crate) struct WireNumbers {
    ports: Vec<PortNumbers>,
    /// How many numbers have been given.
    pub(crate) count: u64,
}

impl WireNumbers {
    /// No numbers yet, of the wires of this many agents.
    fn none(alloc: Global, agents: usize) -> Result<WireNumbers, AllocError>
        ensures places { IfOk result (λ n. length n.ports.items ≡ agents) }
        ensures bare { IfOk result (λ n. (k i : ℕ) → number_at n k i ≡ None) }
        ensures count { IfOk result (λ n. n.count ≡ 0) }
    {
        let mut ports = Vec::new(alloc);
        ports.resize(agents, PortNumbers::bare())?;
        Ok(WireNumbers { ports, count: 0 })
    }

    /// The number at a port of the agent at a place, if it has one.
    pub(crate) fn number_at(&self, place: usize, port: u8) -> Option<u64>
        ensures { result ≡ number_at self.now place port }
    {
        self.ports.get(place)?.number(port)
    }

    /// Gives the next number to a port of the agent at a place.
    fn give_next(&mut self, place: usize, port: u8)
        requires place { place < length self.old.ports.items }
        requires port { port < 3 }
        requires room { self.old.count + 1 < 2 ^ 64 }
        ensures given { GivesNumber place port self.old.count self.old self.new }
        ensures places { length self.new.ports.items ≡ length self.old.ports.items }
        ensures count { self.new.count ≡ self.old.count }
    {
        self.ports[place].give(port, self.count);
    }

    /// Gives the wire at an agent's port the next number, unless it has one or a free name is at its other end.
    fn enter_port(
        &mut self,
        lists: &SheetLists<'_>,
        lines: &LinesByName,
        agent: &AgentLine<'_>,
        port: u8,
    )
        requires net { AreNetLists lists.now }
        requires lines { AreLines lists.now.agents.now lines.now }
        requires places { length self.old.ports.items ≡ length lists.now.agents.now }
        requires placed { IsOnLine lists.now agent.now }
        requires port { port < length (partners_on agent.now) }
        requires room { self.old.count + 1 < 2 ^ 64 }
        ensures entered { Enters (agents_of lists.now) self.old self.new (port_wires (agent_on lists.now agent.now) port) }
        ensures places { length self.new.ports.items ≡ length lists.now.agents.now }
        ensures one { self.new.count ≤ self.old.count + 1 }
    {
        let PlacedPort::Of(name, number) = partner(agent.agent, port) else {
            return;
        };
        if self.number_at(agent.line, port).is_some() {
            return;
        }
        self.give_next(agent.line, port);
        self.give_next(lines.line_of(lists, name), number);
        self.count += 1;
    }

    /// Gives the wires in an agent's line numbers, in the order in which the line shows them.
    fn enter_line(&mut self, lists: &SheetLists<'_>, lines: &LinesByName, agent: &AgentLine<'_>)
        requires net { AreNetLists lists.now }
        requires lines { AreLines lists.now.agents.now lines.now }
        requires places { length self.old.ports.items ≡ length lists.now.agents.now }
        requires placed { IsOnLine lists.now agent.now }
        requires whole { length (partners_on agent.now) ≡ arity agent.now.agent.now.kind + 1 }
        requires room { self.old.count + 3 < 2 ^ 64 }
        ensures entered { Enters (agents_of lists.now) self.old self.new (line_wires (agent_on lists.now agent.now)) }
        ensures places { length self.new.ports.items ≡ length lists.now.agents.now }
    {
        match agent.agent.kind {
            Kind::Eps => self.enter_port(lists, lines, agent, 0),
            Kind::Gamma | Kind::Delta => {
                self.enter_port(lists, lines, agent, 1);
                self.enter_port(lists, lines, agent, 2);
                self.enter_port(lists, lines, agent, 0);
            }
        }
    }
}

/// The numbers of the wires that the agents' lines show by one, in order of first appearance.
pub(crate) fn number_wires(alloc: Global, lists: &SheetLists<'_>) -> Result<WireNumbers, AllocError>
    requires { AreNetLists lists.now }
    ensures { IfOk result (λ n. IsNumbering (agents_of lists.now) n (numbered_wires (agents_of lists.now))) }
{
    let lines = LinesByName::of(alloc, lists)?;
    let mut numbers = WireNumbers::none(alloc, lists.agents.len())?;
    for (line, agent) in lists.agents.iter().enumerate() {
        numbers.enter_line(lists, &lines, &AgentLine { line, agent });
    }
    Ok(numbers)
}
