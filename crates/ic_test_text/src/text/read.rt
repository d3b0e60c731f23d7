use ic_name::{AgentId, Kind, Link, LinkId, MakerId, Profile, Spot};
use ic_start::Start;
use ic_text::{Refusal, TextFault, read_net};
use std::alloc::{AllocError, Global};
use std::test::Fail;

/// What is wrong with a text.
#[derive(Clone, Copy, Debug, PartialEq, Eq)]
enum Verdict {
    Read,
    Memory,
    Refused(u8, Option<usize>),
}

/// The number and the offset of what is wrong with a text, if anything is.
fn judged(alloc: Global, text: &[u8]) -> Verdict {
    match read_net(alloc, text) {
        Ok(_) => Verdict::Read,
        Err(TextFault::Refused(refusal)) => Verdict::Refused(refusal.number(), refusal.offset()),
        Err(TextFault::Memory) => Verdict::Memory,
    }
}

/// Texts that are no nets, with the number and the offset of what is wrong.
const REFUSED: [(&[u8], u8, usize); 20] = [
    (b"G(a,b) = !;", 2, 9),
    (b"@straight!;", 2, 9),
    (b"# \xc3", 2, 2),
    (b"G(a,b = E;", 3, 6),
    (b"x = y", 3, 5),
    (b"x = E; 5", 3, 7),
    (b"@", 3, 0),
    (b"@straighten;", 3, 0),
    (b"@straight", 3, 9),
    (b"@straight x = y;", 3, 10),
    (b"@straight;@", 3, 10),
    (b"@straight; @straight;", 3, 11),
    (b"x = y; @straight;", 3, 7),
    (b"aaaaaaaaaaaaaaaaaaaaaaaaaaaaaaaaa", 4, 0),
    (b"E = a234567890123456789012345678901_2;", 4, 4),
    (b"x = E; x = E; x = E;", 5, 14),
    (b"x = x; x = y;", 5, 7),
    (b"_0 = E;", 8, 0),
    (b"_a = b; _c = d;", 8, 0),
    (b"_a = x; _c = _a;", 8, 8),
];

#[test]
fn a_text_is_refused_at_its_first_fault(rt: HostRuntime) {
    for (text, number, offset) in &REFUSED {
        assert_eq!(rt;
            judged(rt.alloc(), text),
            Verdict::Refused(*number, Some(*offset))
        );
    }
}

#[test]
fn a_name_of_32_bytes_is_read(rt: HostRuntime) {
    let text = b"a234567890123456789012345678901_ = E;";
    assert_eq!(rt; judged(rt.alloc(), text), Verdict::Read);
}

#[test]
fn symbols_stand_within_at_most_255_others(rt: HostRuntime) -> Result<(), Fail> {
    let mut text = Vec::new(rt.alloc());
    for _ in 0..256 {
        text.extend_from_slice(b"G(")?;
    }
    assert_eq!(rt;
        judged(rt.alloc(), text.as_slice()),
        Verdict::Refused(3, Some(512))
    );
    text.push(b'E')?;
    assert_eq!(rt;
        judged(rt.alloc(), text.as_slice()),
        Verdict::Refused(7, Some(512))
    );
    Ok(())
}

/// A text in which 1,024 names occur once.
fn many_names(alloc: Global) -> Result<Vec<u8>, AllocError> {
    let mut text = Vec::new(alloc);
    for number in 0..512 {
        let pair = format!(in alloc; "a{number} = b{number};\n")?;
        text.extend_from_slice(pair.as_bytes())?;
    }
    Ok(text)
}

#[test]
fn at_most_1024_names_occur_once(rt: HostRuntime) -> Result<(), Fail> {
    let mut text = many_names(rt.alloc())?;
    assert_eq!(rt; judged(rt.alloc(), text.as_slice()), Verdict::Read);
    text.extend_from_slice(b"c = E;")?;
    assert_eq!(rt;
        judged(rt.alloc(), text.as_slice()),
        Verdict::Refused(9, None)
    );
    Ok(())
}

#[test]
fn too_long_a_text_is_refused_before_it_is_read(rt: HostRuntime) -> Result<(), Fail> {
    let mut text = vec![in rt.alloc(); b' '; 1_048_576]?;
    assert_eq!(rt; judged(rt.alloc(), text.as_slice()), Verdict::Read);
    text.push(b'!')?;
    assert_eq!(rt;
        judged(rt.alloc(), text.as_slice()),
        Verdict::Refused(1, None)
    );
    Ok(())
}

/// The start of a text with two agents that meet.
fn two_that_meet(alloc: Global) -> Result<Start, TextFault> {
    read_net(alloc, b"G(x,a) = D(E,x); # done")
}

/// The kinds of the agents of that start, by number.
const KINDS: [Kind; 3] = [Kind::Gamma, Kind::Delta, Kind::Eps];

/// Whether the agents of a start are of those kinds.
fn has_kinds(start: &Start) -> bool {
    for number in 0..KINDS.len() {
        if start.kind(number) != Some(KINDS[number]) {
            return false;
        }
    }
    start.agents() == KINDS.len() && start.kind(KINDS.len()).is_none()
}

#[test]
fn two_agents_that_meet(rt: HostRuntime) -> Result<(), TextFault> {
    let start = two_that_meet(rt.alloc())?;
    assert!(rt; has_kinds(&start));
    Ok(())
}

/// A port of an agent of a start.
fn port(slot: u32, port: u8) -> Spot {
    Spot::Agent(AgentId { slot, serial: 0 }, port)
}

/// The ends of the links of two agents that meet, by place.
fn ends_of_two() -> [(Spot, Spot); 5] {
    [
        (port(0, 1), Spot::Name(0)),
        (port(0, 2), Spot::Name(1)),
        (port(0, 0), port(1, 0)),
        (port(1, 1), port(2, 0)),
        (port(1, 2), Spot::Name(0)),
    ]
}

/// Whether the links of a start are those with these ends, by place.
fn has_links(start: &Start, ends: &[(Spot, Spot); 5]) -> bool {
    for place in 0..ends.len() {
        let (a, b) = ends[place];
        let id = LinkId {
            maker: MakerId::Start,
            place: place as u32,
        };
        if start.links().get(place) != Some(Link { id, a, b }) {
            return false;
        }
    }
    start.links().get(ends.len()).is_none()
}

/// Whether a start has these two names.
fn has_names(start: &Start, first: &[u8], second: &[u8]) -> bool {
    let names = start.names();
    names.len() == 2 && names.get(0) == Some(first) && names.get(1) == Some(second)
}

/// Whether a start has the links, the names and the profile of two agents that meet.
fn has_parts(start: &Start) -> bool {
    has_links(start, &ends_of_two())
        && has_names(start, b"x", b"a")
        && start.profile() == Profile::Classic
}

#[test]
fn two_agents_that_meet_have_links(rt: HostRuntime) -> Result<(), TextFault> {
    let start = two_that_meet(rt.alloc())?;
    assert!(rt; has_parts(&start));
    Ok(())
}

/// The number of agents and of links of the start of a text.
fn agents_and_links(alloc: Global, text: &[u8]) -> Option<(usize, usize)> {
    let start = read_net(alloc, text).ok()?;
    Some((start.agents(), start.links().len()))
}

#[test]
fn a_ring_and_nothing(rt: HostRuntime) {
    assert_eq!(rt; agents_and_links(rt.alloc(), b"_r = _r;"), Some((0, 1)));
    assert_eq!(rt;
        agents_and_links(rt.alloc(), b" \t\r\n# nothing"),
        Some((0, 0))
    );
}

#[test]
fn a_refusal_says_what_is_wrong(rt: HostRuntime) -> Result<(), Fail> {
    let thrice = format!(in rt.alloc(); "{}", TextFault::Refused(Refusal::Thrice(6)))?;
    assert_eq!(rt;
        thrice.as_str(),
        "thrice: the name at byte 6 occurs for the third time; expected each name once or twice"
    );
    let memory = format!(in rt.alloc(); "{}", TextFault::Memory)?;
    assert_eq!(rt; memory.as_str(), "out of memory");
    Ok(())
}
