use ic_net::{Net, Profile};
use ic_text::read_net;
use std::alloc::Global;

/// Two gammas that meet, with the classic profile and with the other.
const CLASSIC: &[u8] = b"G(a,b) = G(c,d);";

const STRAIGHT: &[u8] = b"@straight; G(a,b) = G(c,d);";

/// Texts of nets, with the profile and the number of agents of each.
const PROFILES: [(&[u8], Profile, usize); 6] = [
    (b"", Profile::Classic, 0),
    (CLASSIC, Profile::Classic, 2),
    (STRAIGHT, Profile::Straight, 2),
    (b"@straight;", Profile::Straight, 0),
    (b"@straight ;", Profile::Straight, 0),
    (b"#a\n @straight;", Profile::Straight, 0),
];

/// The profile and the number of agents of the start of a text.
fn profile_and_agents(alloc: Global, text: &[u8]) -> Option<(Profile, usize)> {
    let start = read_net(alloc, text).ok()?;
    Some((start.profile(), start.agents()))
}

#[test]
fn a_text_may_begin_with_its_profile(rt: HostRuntime) {
    for (text, profile, agents) in &PROFILES {
        assert_eq!(rt;
            profile_and_agents(rt.alloc(), text),
            Some((*profile, *agents))
        );
    }
}

/// Whether the starts of two texts are the same, and whether their nets are.
fn are_same(alloc: Global, left: &[u8], right: &[u8]) -> Option<(bool, bool)> {
    let start = read_net(alloc, left).ok()?;
    let other = read_net(alloc, right).ok()?;
    let net = Net::of_start(alloc, &start).ok()?;
    let other_net = Net::of_start(alloc, &other).ok()?;
    Some((start.same(&other), net.same(&other_net)))
}

#[test]
fn starts_and_nets_of_two_profiles_differ(rt: HostRuntime) {
    assert_eq!(rt;
        are_same(rt.alloc(), STRAIGHT, STRAIGHT),
        Some((true, true))
    );
    assert_eq!(rt;
        are_same(rt.alloc(), CLASSIC, STRAIGHT),
        Some((false, false))
    );
}
