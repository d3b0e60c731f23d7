use ic_name::{Event, Kind};
use ic_net::{Net, Start, StepFault};
use ic_test_games::events::event_of;
use ic_text::{print_net, read_net};
use std::alloc::Global;
use std::test::Fail;

/// The event of the agents 0 and 1, of these kinds.
fn first_event(alloc: Global, lead: Kind, other: Kind) -> Result<Event, Fail> {
    event_of(alloc, &(b"0", lead, b"1", other))
}

/// Why a net refuses the step of the agents 0 and 1, of these kinds.
fn refusal(
    alloc: Global,
    net: &mut Net,
    lead: Kind,
    other: Kind,
) -> Result<Option<StepFault>, Fail> {
    let event = first_event(alloc, lead, other)?;
    Ok(net.step(alloc, &event).err())
}

/// Whether a net over a start is printed so.
pub(crate) fn is_printed(
    alloc: Global,
    net: &Net,
    start: &Start,
    printed: &[u8],
) -> Result<bool, Fail> {
    let text = print_net(alloc, net, start.names())?;
    Ok(text.as_slice() == printed)
}

/// Whether the step of the agents 0 and 1, of these kinds, leads from the net of a start to one that is printed so.
fn is_stepped(
    alloc: Global,
    start: &Start,
    net: &mut Net,
    kinds: (Kind, Kind),
    printed: &[u8],
) -> Result<bool, Fail> {
    let (lead, other) = kinds;
    Ok(refusal(alloc, net, lead, other)?.is_none() && is_printed(alloc, net, start, printed)?)
}

/// The same of the net of a text.
fn steps_to(
    alloc: Global,
    text: &[u8],
    lead: Kind,
    other: Kind,
    printed: &[u8],
) -> Result<bool, Fail> {
    let start = read_net(alloc, text)?;
    let mut net = Net::of_start(alloc, &start)?;
    is_stepped(alloc, &start, &mut net, (lead, other), printed)
}

/// Texts of nets of two gammas or two epsilons, with what the net is printed as once they have met.
const ANNIHILATING: [(&[u8], Kind, &[u8]); 3] = [
    (b"E = E;", Kind::Eps, b"# agents 0 wires 0 rings 0\n"),
    (
        b"G(x,x) = G(y,y);",
        Kind::Gamma,
        b"# agents 0 wires 0 rings 1\n_0 = _0;\n",
    ),
    (
        b"G(x,y) = G(y,x);",
        Kind::Gamma,
        b"# agents 0 wires 0 rings 2\n_0 = _0;\n_1 = _1;\n",
    ),
];

#[test]
fn agents_of_one_kind_annihilate(rt: HostRuntime) -> Result<(), Fail> {
    for (text, kind, printed) in ANNIHILATING {
        assert!(rt; steps_to(rt.alloc(), text, kind, kind, printed)?);
    }
    Ok(())
}

/// Texts of nets of a gamma and an agent of this kind, with what the net is printed as once they have met.
const PASSING: [(&[u8], Kind, &[u8]); 2] = [
    (
        b"G(a,b) = E;",
        Kind::Eps,
        b"# agents 2 wires 2 rings 0\nE = a;\nE = b;\n",
    ),
    (
        b"G(a,b) = D(c,d);",
        Kind::Delta,
        b"# agents 4 wires 8 rings 0\nD(_0,_1) = a;\nD(_2,_3) = b;\nG(_0,_2) = c;\nG(_1,_3) = d;\n",
    ),
];

#[test]
fn agents_of_two_kinds_pass_or_erase(rt: HostRuntime) -> Result<(), Fail> {
    for (text, kind, printed) in PASSING {
        assert!(rt; steps_to(rt.alloc(), text, Kind::Gamma, kind, printed)?);
    }
    Ok(())
}

/// Why the net of a start refuses the step of two epsilons, if it stays as it was.
fn refusal_over(alloc: Global, start: &Start) -> Result<Option<StepFault>, Fail> {
    let before = Net::of_start(alloc, start)?;
    let mut net = Net::of_start(alloc, start)?;
    let refusal = refusal(alloc, &mut net, Kind::Eps, Kind::Eps)?;
    Ok(if net.same(&before) { refusal } else { None })
}

#[test]
fn a_refused_step_leaves_the_net(rt: HostRuntime) -> Result<(), Fail> {
    let start = read_net(rt.alloc(), b"G(x,a) = E;")?;
    assert!(rt; refusal_over(rt.alloc(), &start)? == Some(StepFault::NotActive));
    Ok(())
}
