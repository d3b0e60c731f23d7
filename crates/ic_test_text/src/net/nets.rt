use crate::start::two_agents;
use ic_name::{AgentName, Port};
use ic_net::{Kind, Net, Profile, laws};
use std::alloc::Global;

/// The net of the start of two agents.
fn two_agents_net(alloc: Global) -> Option<Net> {
    let start = two_agents(alloc)?;
    Net::of_start(alloc, &start).ok()
}

/// How many agents, wires and rings a net has.
pub(crate) fn counts(net: &Net) -> (usize, u64, u64) {
    (net.agents(), net.wires(), net.rings())
}

/// How many the net of two agents has, and its profile.
fn counts_and_profile(alloc: Global) -> Option<((usize, u64, u64), Profile)> {
    let net = two_agents_net(alloc)?;
    net.lawful();
    Some((counts(&net), net.profile()))
}

#[test]
fn a_net_has_its_wires(rt: HostRuntime) {
    assert_eq!(rt;
        counts_and_profile(rt.alloc()),
        Some(((2, 4, 0), Profile::Straight))
    );
}

/// Whether the start agent of this number has this kind, or isn't there where none is given.
pub(crate) fn is_of_kind(alloc: Global, net: &Net, number: u16, kind: Option<Kind>) -> bool {
    match AgentName::start(alloc, number) {
        Some(name) => net.kind(&name) == kind,
        None => false,
    }
}

/// Whether the net of two agents has its kinds.
fn has_kinds(alloc: Global) -> Option<bool> {
    let net = two_agents_net(alloc)?;
    let lead = is_of_kind(alloc, &net, 0, Some(Kind::Gamma));
    Some(lead && is_of_kind(alloc, &net, 2, None))
}

#[test]
fn a_net_has_its_kinds(rt: HostRuntime) {
    assert_eq!(rt; has_kinds(rt.alloc()), Some(true));
}

/// A port of a start agent, or a name of the text, by its number.
#[derive(Clone, Copy, Debug, PartialEq, Eq)]
enum Partner {
    Agent(u16, u8),
    Name(u32),
    Nothing,
}

/// The partner of a port.
fn partner_of(net: &Net, port: &Port) -> Partner {
    match net.partner(port) {
        Some(Port::Of(agent, number)) => Partner::Agent(agent.start_number(), *number),
        Some(Port::Name(number)) => Partner::Name(*number),
        None => Partner::Nothing,
    }
}

/// The partner of a port of a start agent.
fn partner_at(alloc: Global, net: &Net, agent: u16, number: u8) -> Option<Partner> {
    let port = Port::Of(AgentName::start(alloc, agent)?, number);
    Some(partner_of(net, &port))
}

/// The partners of two ports of the first agent, and of the first name.
fn partners(alloc: Global) -> Option<(Partner, Partner, Partner)> {
    let net = two_agents_net(alloc)?;
    let first = partner_at(alloc, &net, 0, 1)?;
    let second = partner_at(alloc, &net, 0, 2)?;
    Some((first, second, partner_of(&net, &Port::Name(0))))
}

#[test]
fn ports_have_partners(rt: HostRuntime) {
    assert_eq!(rt;
        partners(rt.alloc()),
        Some((Partner::Agent(1, 1), Partner::Name(1), Partner::Nothing))
    );
}

/// Whether the net of a start made twice is the same.
fn is_the_same_again(alloc: Global) -> Option<bool> {
    let net = two_agents_net(alloc)?;
    let again = two_agents_net(alloc)?;
    Some(net.same(&again))
}

#[test]
fn a_net_made_twice_is_the_same(rt: HostRuntime) {
    assert_eq!(rt; is_the_same_again(rt.alloc()), Some(true));
}

/// The start numbers of the two agents of a net's only active pair.
fn active_pair(alloc: Global, net: &Net) -> Option<(u16, u16)> {
    let pairs = net.active(alloc).ok()?;
    match pairs.as_slice() {
        [(lead, other)] => Some((lead.start_number(), other.start_number())),
        _ => None,
    }
}

/// The start number and the kind of the second of a net's two agents, and the number of its partners.
fn second_agent(alloc: Global, net: &Net) -> Option<(u16, Kind, usize)> {
    let names = net.names(alloc).ok()?;
    let sheet = net.sheet(alloc, &names).ok()?;
    match sheet.lists().agents {
        [_, second] => {
            let name = names.name(second.name).ok()??;
            let partners = second.partners.as_slice();
            Some((name.start_number(), second.kind, partners.len()))
        }
        _ => None,
    }
}

/// The numbers of a net's two loose names.
fn loose_names(alloc: Global, net: &Net) -> Option<(u32, u32)> {
    let names = net.names(alloc).ok()?;
    let sheet = net.sheet(alloc, &names).ok()?;
    match sheet.lists().frees {
        [(first, _), (second, _)] => Some((*first, *second)),
        _ => None,
    }
}

/// The active pair, the second agent and the loose names of the net of two agents.
fn parts(alloc: Global) -> Option<((u16, u16), (u16, Kind, usize), (u32, u32))> {
    let net = two_agents_net(alloc)?;
    let pair = active_pair(alloc, &net)?;
    let agent = second_agent(alloc, &net)?;
    Some((pair, agent, loose_names(alloc, &net)?))
}

#[test]
fn a_net_shows_its_parts_in_order(rt: HostRuntime) {
    assert_eq!(rt;
        parts(rt.alloc()),
        Some(((0, 1), (1, Kind::Delta, 3), (1, 2)))
    );
    laws::one_listing();
    laws::active_pairs_are_active();
}
