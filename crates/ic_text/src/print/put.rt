ghost use Rattle.std.specs.Prelude.{◌≡◌, ◌++◌, ◌+◌, ◌<◌, ◌^◌, map, length, decimal, OnOk, All};
ghost use Rattle.std.specs.List.{flat_map};
ghost use Rattle.ic_name.specs.Kinds.{arity};
ghost use Rattle.ic_text.specs.Lines.{auxiliaries, ring_line};
ghost use Rattle.ic_text.specs.Lists.{agents_of, agent_on, partners_on, IsOnLine};
ghost use Rattle.ic_text.specs.NetText.{agent_line, header, name_text, numbered, port_label, profile_line, ring_lines};
ghost use Rattle.ic_text.specs.NumberedWires.{wires_in};

use crate::print::agent_lines::AgentLine;
use crate::print::numbered::NumberedAgents;
use crate::print::ports::partner;
use ic_name::{Kind, Profile};
use ic_net::PlacedPort;
use ic_start::Texts;
use itoa::{Buffer, write_digits};
use std::alloc::AllocError;

/// The length of the longest number with its underscore.
const NUMBERED: usize = "_18446744073709551615".len();

/// The text of the name of this number.
pub(crate) fn text_of(names: &Texts, number: u32) -> &[u8]
    ensures { result.now ≡ name_text names.now number }
{
    match names.get(number as usize) {
        Some(text) => text,
        None => &[],
    }
}

fn put_decimal(out: &mut Vec<u8>, n: u64) -> Result<(), AllocError>
    ensures { OnOk result (out.new.items ≡ out.old.items ++ decimal n) }
{
    let mut buffer = Buffer::new();
    out.extend_from_slice(buffer.format(n).as_bytes())
}

fn put_numbered(out: &mut Vec<u8>, number: u64) -> Result<(), AllocError>
    ensures { OnOk result (out.new.items ≡ out.old.items ++ numbered number) }
{
    let mut text = [b'_'; NUMBERED];
    let start = write_digits(number, &mut text, NUMBERED);
    out.extend_from_slice(&text[start - 1..])
}

/// Writes the wire at an agent's port: the free name at its other end, or else its number.
fn put_port(
    out: &mut Vec<u8>,
    sheet: &NumberedAgents<'_>,
    names: &Texts,
    agent: &AgentLine<'_>,
    port: u8,
) -> Result<(), AllocError>
    requires placed { IsOnLine sheet.now.lists agent.now }
    requires port { port < length (partners_on agent.now) }
    ensures { OnOk result (out.new.items ≡ out.old.items ++ port_label names.now (wires_in sheet.now) (agent_on sheet.now.lists agent.now) port) }
{
    match partner(agent.agent, port) {
        PlacedPort::Name(number) => out.extend_from_slice(text_of(names, number)),
        PlacedPort::Of(..) => put_numbered(out, sheet.number(agent, port)),
    }
}

/// Writes the line of an agent.
pub(crate) fn put_line(
    out: &mut Vec<u8>,
    sheet: &NumberedAgents<'_>,
    names: &Texts,
    agent: &AgentLine<'_>,
) -> Result<(), AllocError>
    requires placed { IsOnLine sheet.now.lists agent.now }
    requires whole { length (partners_on agent.now) ≡ arity agent.now.agent.now.kind + 1 }
    ensures { OnOk result (out.new.items ≡ out.old.items ++ agent_line names.now (wires_in sheet.now) (agent_on sheet.now.lists agent.now)) }
{
    match agent.agent.kind {
        Kind::Eps => out.extend_from_slice(b"E = ")?,
        Kind::Gamma => {
            out.extend_from_slice(b"G(")?;
            put_arguments(out, sheet, names, agent)?;
        }
        Kind::Delta => {
            out.extend_from_slice(b"D(")?;
            put_arguments(out, sheet, names, agent)?;
        }
    }
    put_port(out, sheet, names, agent, 0)?;
    out.extend_from_slice(b";\n")
}

/// Writes the auxiliary ports in the line of a gamma or delta, up to its principal port.
fn put_arguments(
    out: &mut Vec<u8>,
    sheet: &NumberedAgents<'_>,
    names: &Texts,
    agent: &AgentLine<'_>,
) -> Result<(), AllocError>
    requires placed { IsOnLine sheet.now.lists agent.now }
    requires whole { length (partners_on agent.now) ≡ 3 }
    ensures { OnOk result (out.new.items ≡ out.old.items ++ auxiliaries names.now (wires_in sheet.now) (agent_on sheet.now.lists agent.now)) }
{
    put_port(out, sheet, names, agent, 1)?;
    out.push(b',')?;
    put_port(out, sheet, names, agent, 2)?;
    out.extend_from_slice(b") = ")
}

/// Writes the lines of the agents.
pub(crate) fn put_agents(
    out: &mut Vec<u8>,
    sheet: &NumberedAgents<'_>,
    names: &Texts,
) -> Result<(), AllocError>
    requires { All (λ a. length a.partners ≡ arity a.kind + 1) (agents_of sheet.now.lists) }
    ensures { OnOk result (out.new.items ≡ out.old.items ++ flat_map (agent_line names.now (wires_in sheet.now)) (agents_of sheet.now.lists)) }
{
    for (line, agent) in sheet.agents().iter().enumerate() {
        put_line(out, sheet, names, &AgentLine { line, agent })?;
    }
    Ok(())
}

/// Writes the first line, which counts agents, wires and rings.
pub(crate) fn put_header(
    out: &mut Vec<u8>,
    agents: u64,
    wires: u64,
    rings: u64,
) -> Result<(), AllocError>
    ensures { OnOk result (out.new.items ≡ out.old.items ++ header agents wires rings) }
{
    out.extend_from_slice(b"# agents ")?;
    put_decimal(out, agents)?;
    out.extend_from_slice(b" wires ")?;
    put_decimal(out, wires)?;
    out.extend_from_slice(b" rings ")?;
    put_decimal(out, rings)?;
    out.extend_from_slice(b"\n")
}

/// Writes the line of the profile, if it has one.
pub(crate) fn put_profile(out: &mut Vec<u8>, profile: Profile) -> Result<(), AllocError>
    ensures { OnOk result (out.new.items ≡ out.old.items ++ profile_line profile) }
{
    match profile {
        Profile::Classic => Ok(()),
        Profile::Straight => out.extend_from_slice(b"@straight;\n"),
    }
}

fn put_ring(out: &mut Vec<u8>, number: u64) -> Result<(), AllocError>
    ensures { OnOk result (out.new.items ≡ out.old.items ++ ring_line number) }
{
    put_numbered(out, number)?;
    out.extend_from_slice(b" = ")?;
    put_numbered(out, number)?;
    out.extend_from_slice(b";\n")
}

/// Writes the lines of the rings, numbered from `first` on.
#[tactic(auto, using(crate::proofs::Rings::one_ring, crate::proofs::Rings::no_rings))]
pub(crate) fn put_rings(out: &mut Vec<u8>, first: u64, rings: u64) -> Result<(), AllocError>
    requires { first + rings < 2 ^ 64 }
    ensures { OnOk result (out.new.items ≡ out.old.items ++ ring_lines first rings) }
{
    for i in 0..rings {
        put_ring(out, first + i)?;
    }
    Ok(())
}
