use crate::net::nets::{counts, is_of_kind};
use crate::start::two_agents;
use ic_name::{AgentName, Event, Port};
use ic_net::{Kind, Net, Profile, Start, StepFault};
use ic_text::read_net;
use std::alloc::Global;

/// The event of the first two start agents, of these kinds.
fn first_two(alloc: Global, lead: Kind, other: Kind) -> Option<Event> {
    let lead_name = AgentName::start(alloc, 0)?;
    let other_name = AgentName::start(alloc, 1)?;
    Event::of(lead_name, lead, other_name, other)
}

/// Makes the step of the first two start agents, of these kinds.
fn step(alloc: Global, net: &mut Net, lead: Kind, other: Kind) -> Option<Result<(), StepFault>> {
    let event = first_two(alloc, lead, other)?;
    Some(net.step(alloc, &event))
}

/// The net of a start after the step of its first two agents, of these kinds.
fn stepped(alloc: Global, start: &Start, lead: Kind, other: Kind) -> Option<Net> {
    let mut net = Net::of_start(alloc, start).ok()?;
    match step(alloc, &mut net, lead, other) {
        Some(Ok(())) => Some(net),
        _ => None,
    }
}

/// The net of a gamma and a delta after they met.
fn passed(alloc: Global) -> Option<Net> {
    let start = two_agents(alloc)?;
    stepped(alloc, &start, Kind::Gamma, Kind::Delta)
}

/// Whether the agent of this name has this kind.
fn has_kind(alloc: Global, net: &Net, text: &[u8], kind: Kind) -> bool {
    match AgentName::read(alloc, text) {
        Ok(name) => net.kind(&name) == Some(kind),
        Err(_) => false,
    }
}

/// How many agents, wires and rings are there then.
fn counts_when_passed(alloc: Global) -> Option<(usize, u64, u64)> {
    Some(counts(&passed(alloc)?))
}

#[test]
fn a_step_puts_four_agents_in_place_of_two(rt: HostRuntime) {
    assert_eq!(rt; counts_when_passed(rt.alloc()), Some((4, 7, 0)));
}

/// Whether the agents that met are gone then, and their children are there.
fn children_came(alloc: Global) -> Option<bool> {
    let net = passed(alloc)?;
    Some(
        is_of_kind(alloc, &net, 0, None)
            && has_kind(alloc, &net, b"0.1", Kind::Delta)
            && has_kind(alloc, &net, b"0.2", Kind::Gamma),
    )
}

#[test]
fn the_agents_of_a_step_go_and_their_children_come(rt: HostRuntime) {
    assert_eq!(rt; children_came(rt.alloc()), Some(true));
}

/// Whether the partner of a port is this port of the agent of this name.
fn meets(alloc: Global, net: &Net, port: &Port, text: &[u8], number: u8) -> bool {
    let Some(Port::Of(agent, found)) = net.partner(port) else {
        return false;
    };
    match AgentName::read(alloc, text) {
        Ok(name) => agent.is(&name) && *found == number,
        Err(_) => false,
    }
}

/// Whether the partner of a port of the first child is this port of the agent of this name.
fn first_child_meets(alloc: Global, net: &Net, own: u8, text: &[u8], number: u8) -> bool {
    match AgentName::read(alloc, b"0.0") {
        Ok(name) => meets(alloc, net, &Port::Of(name, own), text, number),
        Err(_) => false,
    }
}

/// Whether the children are wired up then.
fn are_wired(alloc: Global) -> Option<bool> {
    let net = passed(alloc)?;
    Some(
        first_child_meets(alloc, &net, 0, b"0.2", 0)
            && first_child_meets(alloc, &net, 2, b"0.3", 1)
            && meets(alloc, &net, &Port::Name(2), b"0.3", 0),
    )
}

#[test]
fn a_step_wires_up_its_children(rt: HostRuntime) {
    assert_eq!(rt; are_wired(rt.alloc()), Some(true));
}

/// What is wrong with the step of two agents as epsilons, if the net stays as it was.
fn refused_step(alloc: Global) -> Option<StepFault> {
    let start = two_agents(alloc)?;
    let mut net = Net::of_start(alloc, &start).ok()?;
    let fault = step(alloc, &mut net, Kind::Eps, Kind::Eps)?.err()?;
    let again = Net::of_start(alloc, &start).ok()?;
    if net.same(&again) { Some(fault) } else { None }
}

#[test]
fn agents_of_other_kinds_make_no_step(rt: HostRuntime) {
    assert_eq!(rt; refused_step(rt.alloc()), Some(StepFault::NotActive));
    assert_eq!(rt; StepFault::NotActive.number(), 21);
}

/// The start of `G(x,y) = G(x,y);`, where gammas are wired straight.
fn two_gammas(alloc: Global) -> Option<Start> {
    read_net(alloc, b"@straight; G(x,y) = G(x,y);").ok()
}

/// The net of two gammas after they met.
fn annihilated(alloc: Global) -> Option<Net> {
    let start = two_gammas(alloc)?;
    stepped(alloc, &start, Kind::Gamma, Kind::Gamma)
}

/// How many agents, wires and rings they leave.
fn counts_when_annihilated(alloc: Global) -> Option<(usize, u64, u64)> {
    Some(counts(&annihilated(alloc)?))
}

#[test]
fn two_gammas_wired_straight_leave_two_rings(rt: HostRuntime) {
    assert_eq!(rt; counts_when_annihilated(rt.alloc()), Some((0, 0, 2)));
}
