use ic_name::{Kind, Profile, RuleEnd};
use ic_start::{Start, outcome};
use ic_text::read_net;
use std::alloc::Global;

/// The start of `G(x,a) = D(x,b);`, where gammas are wired straight.
const TWO_AGENTS: &[u8] = b"@straight; G(x,a) = D(x,b);";

/// Texts of other starts: each has another profile, agent, link or name.
const OTHERS: [&[u8]; 4] = [
    b"G(x,a) = D(x,b);",
    b"@straight; D(x,a) = D(x,b);",
    b"@straight; G(x,a) = D(b,x);",
    b"@straight; G(x,a) = D(x,c);",
];

/// The start of the first text.
pub(crate) fn two_agents(alloc: Global) -> Option<Start> {
    read_net(alloc, TWO_AGENTS).ok()
}

/// How many agents the start has, and whether a gamma and a delta are all its kinds.
fn agents_of_two(alloc: Global) -> Option<(usize, bool)> {
    let start = two_agents(alloc)?;
    start.lawful();
    let kinds = [Kind::Gamma, Kind::Delta];
    Some((start.agents(), start.kinds() == kinds.as_slice()))
}

#[test]
fn a_start_shows_its_agents(rt: HostRuntime) {
    assert_eq!(rt; agents_of_two(rt.alloc()), Some((2, true)));
}

/// The kinds of the agents 1 and 2 of the start.
fn last_kinds(alloc: Global) -> Option<(Option<Kind>, Option<Kind>)> {
    let start = two_agents(alloc)?;
    Some((start.kind(1), start.kind(2)))
}

#[test]
fn a_start_shows_the_kind_of_an_agent(rt: HostRuntime) {
    assert_eq!(rt; last_kinds(rt.alloc()), Some((Some(Kind::Delta), None)));
}

/// Whether this is the last name of a start.
fn is_last_name(start: &Start, text: &[u8]) -> bool {
    let names = start.names();
    match names.len().checked_sub(1) {
        Some(last) => names.get(last) == Some(text),
        None => false,
    }
}

/// How many links the start has, its profile, and whether its last name is `b`.
fn links_and_names(alloc: Global) -> Option<(usize, Profile, bool)> {
    let start = two_agents(alloc)?;
    let named = is_last_name(&start, b"b");
    Some((start.links().len(), start.profile(), named))
}

#[test]
fn a_start_shows_its_links_and_names(rt: HostRuntime) {
    assert_eq!(rt;
        links_and_names(rt.alloc()),
        Some((5, Profile::Straight, true))
    );
}

/// Whether the start of a text is that of the first one.
fn is_the_same(alloc: Global, text: &[u8]) -> Option<bool> {
    let start = two_agents(alloc)?;
    let other = read_net(alloc, text).ok()?;
    Some(start.same(&other))
}

#[test]
fn a_start_read_twice_is_the_same_and_no_other_is(rt: HostRuntime) {
    assert_eq!(rt; is_the_same(rt.alloc(), TWO_AGENTS), Some(true));
    for other in OTHERS {
        assert_eq!(rt; is_the_same(rt.alloc(), other), Some(false));
    }
}

#[test]
fn gamma_and_delta_pass_through_one_another(rt: HostRuntime) {
    let born = outcome(Kind::Gamma, Kind::Delta, Profile::Classic);
    let children = [Kind::Delta, Kind::Delta, Kind::Gamma, Kind::Gamma];
    assert_eq!(rt; born.children, children.as_slice());
    assert_eq!(rt; born.links.len(), 8);
    assert_eq!(rt; born.links[1], (RuleEnd::Child(1, 0), RuleEnd::Lead(2)));
    assert_eq!(rt; born.links[5], (RuleEnd::Child(0, 2), RuleEnd::Child(3, 1)));
}

#[test]
fn two_epsilons_leave_nothing(rt: HostRuntime) {
    let born = outcome(Kind::Eps, Kind::Eps, Profile::Classic);
    assert!(rt; born.links.is_empty());
}
