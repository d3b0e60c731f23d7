ghost use Rattle.std.specs.Prelude.{◌≡◌, ◌++◌, ◌+◌, ◌<◌, length, IfOk, OnOk, All};
ghost use Rattle.std.specs.List.{flat_map};
ghost use Rattle.ic_name.specs.Kinds.{arity};
ghost use Rattle.ic_net.specs.Placed.{IsAgentInside};
ghost use Rattle.ic_text.specs.AgentsText.{agents_text, named_line};
ghost use Rattle.ic_text.specs.Lists.{agents_of, agent_on, partners_on, IsOnLine};
ghost use Rattle.ic_text.specs.NumberedWires.{wires_in};

use crate::print::agent_lines::AgentLine;
use crate::print::numbered::NumberedAgents;
use crate::print::put::put_line;
use ic_net::NetSheet;
use ic_start::Texts;
use std::alloc::{AllocError, Global};

/// Which line of the printed net is which agent's: how many agents there are, and in order of their names the line of each
/// after its name.
pub fn print_agents(alloc: Global, net: &NetSheet<'_>, names: &Texts) -> Result<Vec<u8>, AllocError>
    ensures { IfOk result (λ text. text.items ≡ agents_text names.now net.now) }
{
    let lists = net.lists();
    let numbered = NumberedAgents::new(alloc, lists)?;
    let mut out = format!(in alloc; "agents {}\n", lists.agents.len())?.into_bytes();
    put_named(&mut out, &numbered, names)?;
    Ok(out)
}

/// Writes the line of each agent after its name.
fn put_named(out: &mut Vec<u8>, sheet: &NumberedAgents<'_>, names: &Texts) -> Result<(), AllocError>
    requires whole { All (λ a. length a.partners ≡ arity a.kind + 1) (agents_of sheet.now.lists) }
    requires inside { All (IsAgentInside sheet.now.lists.names.now) sheet.now.lists.agents.now }
    ensures { OnOk result (out.new.items ≡ out.old.items ++ flat_map (named_line names.now (wires_in sheet.now)) (agents_of sheet.now.lists)) }
{
    for (line, agent) in sheet.agents().iter().enumerate() {
        put_named_line(out, sheet, names, &AgentLine { line, agent })?;
    }
    Ok(())
}

/// Writes an agent's line after its name.
fn put_named_line(
    out: &mut Vec<u8>,
    sheet: &NumberedAgents<'_>,
    names: &Texts,
    agent: &AgentLine<'_>,
) -> Result<(), AllocError>
    requires placed { IsOnLine sheet.now.lists agent.now }
    requires inside { agent.now.agent.now.name.place < length sheet.now.lists.names.now }
    requires whole { length (partners_on agent.now) ≡ arity agent.now.agent.now.kind + 1 }
    ensures { OnOk result (out.new.items ≡ out.old.items ++ named_line names.now (wires_in sheet.now) (agent_on sheet.now.lists agent.now)) }
{
    sheet.names().write_to(agent.agent.name, out)?;
    out.push(b' ')?;
    put_line(out, sheet, names, agent)
}
