// Desks over either store, where one allocation is refused, whichever it is: bench/refused_growth.py refuses each in turn.
// Where none is refused, each line is answered at once as it should be.
use ic_command::{Asked, Command, Request, asked_of, listed_of};
use ic_desk::{Answer, Desk, NoGate};
use ic_journal::{LinkStore, Store};
use ic_link::LinkRows;
use ic_text::read_net;
use std::alloc::{AllocError, Global};
use std::test::Fail;

/// The answers that say that memory ran out and nothing was done.
const NOTHING_DONE: [&[u8]; 3] = [
    b"refused 25 memory\n",
    b"refused 25 memory after 0\n",
    b"refused 25 memory after 0 undone 0 fired\n",
];

/// A net, and lines with what each is answered.
struct Session {
    net: &'static [u8],
    lines: &'static [(&'static [u8], &'static [u8])],
}

/// A desk over a net.
fn desk<L: LinkStore>(alloc: Global, net: &[u8]) -> Option<Desk<L>> {
    let start = read_net(alloc, net).ok()?;
    Desk::over(alloc, start).ok()
}

/// A desk over it, at the first try or the second.
fn desk_at_last<L: LinkStore>(alloc: Global, net: &[u8]) -> Option<Desk<L>> {
    match desk(alloc, net) {
        Some(desk) => Some(desk),
        None => desk(alloc, net),
    }
}

/// What a line asks for; one that lists an event asks to absorb it.
fn request(alloc: Global, line: &[u8]) -> Result<Request, AllocError> {
    match listed_of(alloc, line)? {
        Some(event) => {
            let mut events = Vec::new(alloc);
            events.push(event)?;
            Ok(Request::Absorb(events))
        }
        None => match asked_of(alloc, line)? {
            Asked::Alone(request) => Ok(request),
            Asked::Absorb(_) => Ok(Request::Bench(Command::Malformed)),
        },
    }
}

/// What it asks for, at the first try or the second.
fn request_at_last(alloc: Global, line: &[u8]) -> Option<Request> {
    match request(alloc, line) {
        Ok(asked) => Some(asked),
        Err(_) => request(alloc, line).ok(),
    }
}

/// The answer to a line; `None` if there is no memory to tell what was done.
fn answer<L: LinkStore>(alloc: Global, desk: &mut Desk<L>, line: &[u8]) -> Option<Answer> {
    let asked = request_at_last(alloc, line)?;
    desk.carry_out(alloc, asked, &NoGate).ok()
}

/// Whether two desks answer a line alike.
fn answer_alike<L: LinkStore>(
    alloc: Global,
    desk: &mut Desk<L>,
    other: &mut Desk<LinkRows>,
    line: &[u8],
) -> Option<bool> {
    let first = answer(alloc, desk, line)?;
    let second = answer(alloc, other, line)?;
    Some(first.bytes() == second.bytes())
}

/// Carries out these lines.
fn carry_out_all(alloc: Global, desk: &mut Desk<LinkRows>, lines: &[(&[u8], &[u8])]) -> Option<()> {
    for (line, _) in lines {
        answer(alloc, desk, line)?;
    }
    Some(())
}

/// Whether a desk shows what another one does once these lines are carried out there: its net, and what stands.
fn shows_the_same<L: LinkStore>(
    alloc: Global,
    desk: &mut Desk<L>,
    other: &mut Desk<LinkRows>,
    lines: &[(&[u8], &[u8])],
) -> Option<bool> {
    carry_out_all(alloc, other, lines)?;
    let net = answer_alike(alloc, desk, other, b"net")?;
    Some(net && answer_alike(alloc, desk, other, b"journal")?)
}

/// Whether the desk shows what another one shows on which the lines before this place were carried out.
fn shows_what_follows<L: LinkStore>(
    alloc: Global,
    desk: &mut Desk<L>,
    session: &Session,
    place: usize,
) -> Option<bool> {
    let before = session.lines.get(..place)?;
    let mut other = desk_at_last::<LinkRows>(alloc, session.net)?;
    shows_the_same(alloc, desk, &mut other, before)
}

/// Whether the desk, which answered the line in this place so because memory ran out, is as before where the answer says so,
/// and whether it then answers the line as it should. Where something was done, it answers it somehow.
fn answers_again<L: LinkStore>(
    alloc: Global,
    desk: &mut Desk<L>,
    session: &Session,
    place: usize,
    first: &[u8],
) -> Option<bool> {
    let (line, text) = *session.lines.get(place)?;
    let nothing = NOTHING_DONE.contains(&first);
    let stayed = !nothing || shows_what_follows(alloc, desk, session, place)?;
    let second = answer(alloc, desk, line)?;
    let right = second.bytes() == text || !nothing && !second.bytes().starts_with(b"refused");
    Some(stayed && right)
}

/// Whether the desk answers the line in this place as it should, at the first try or the second.
fn answers<L: LinkStore>(
    alloc: Global,
    desk: &mut Desk<L>,
    session: &Session,
    place: usize,
) -> Option<bool> {
    let (line, text) = *session.lines.get(place)?;
    match answer(alloc, desk, line) {
        None => Some(true),
        Some(first) if first.bytes().starts_with(b"refused 25 ") => {
            answers_again(alloc, desk, session, place, first.bytes())
        }
        Some(first) => Some(first.bytes() == text),
    }
}

/// Whether the desk answers each line as it should, at the first try or the second.
fn answers_all<L: LinkStore>(alloc: Global, desk: &mut Desk<L>, session: &Session) -> Option<bool> {
    let mut right = true;
    for place in 0..session.lines.len() {
        right = right && answers(alloc, desk, session, place)?;
    }
    Some(right)
}

/// Whether a new desk does.
fn plays<L: LinkStore>(alloc: Global, session: &Session) -> Option<bool> {
    let mut desk = desk_at_last::<L>(alloc, session.net)?;
    answers_all(alloc, &mut desk, session)
}

/// A net that ends with four events.
const FOUR_EVENTS: &[u8] = b"G(E,a) = D(b,E);\n";

/// Firings, undoings and an unwinding.
const FIRING: Session = Session {
    net: FOUR_EVENTS,
    lines: &[
        (b"fire 0 2", b"fired 0 2\n"),
        (b"fire 1 0.0", b"fired 1 0.0\n"),
        (b"undo 0 2", b"refused 32 held by 1 0.0\n"),
        (b"undo 1 0.0", b"undone 1 0.0\n"),
        (b"fire 3 0.3", b"fired 3 0.3\n"),
        (b"active", b"active 1\n1 0.0\n"),
        (b"unwind 0 2", b"unwound 2\n3 0.3\n0 2\n"),
        (b"journal", b"journal 0\n"),
    ],
};

/// A mark, and ways back to it.
const GOING_BACK: Session = Session {
    net: FOUR_EVENTS,
    lines: &[
        (b"fire 0 2", b"fired 0 2\n"),
        (b"mark m", b"marked m 1\n"),
        (b"back m", b"back m undone 0 fired 0\n"),
        (b"undo 0 2", b"undone 0 2\n"),
        (b"back m", b"back m undone 0 fired 1\n"),
        (b"journal", b"journal 1\n0 2 rank 0\n"),
    ],
};

/// A reduction to the end, and all undone.
const REDUCING: Session = Session {
    net: FOUR_EVENTS,
    lines: &[
        (b"undo-all", b"undone-all 0\n"),
        (b"reduce 0", b"reduced 0 budget\n"),
        (b"reduce 9", b"reduced 4 normal\n"),
        (b"reduce 9", b"reduced 0 normal\n"),
        (b"undo-all", b"undone-all 4\n"),
        (b"journal", b"journal 0\n"),
    ],
};

/// Absorbing events one by one.
const ABSORBING: Session = Session {
    net: FOUR_EVENTS,
    lines: &[
        (b"1 0.0", b"refused 51 1 0.0\n"),
        (b"0 2", b"absorbed 1\n"),
        (b"0 2", b"absorbed 0\n"),
        (b"1 0.0", b"absorbed 1\n"),
        (b"journal", b"journal 2\n0 2 rank 0\n1 0.0 rank 1\n"),
    ],
};

/// A firing closes a ring, an older one is taken back and opens it, and comes again by a mark.
const RINGS: Session = Session {
    net: b"D(x,p) = D(y,q); D(x,r) = D(y,s);\n",
    lines: &[
        (b"fire 0 1", b"fired 0 1\n"),
        (b"fire 2 3", b"fired 2 3\n"),
        (b"mark m", b"marked m 2\n"),
        (b"net", RING_CLOSED),
        (b"undo 0 1", b"undone 0 1\n"),
        (b"net", RING_OPEN),
        (b"back m", b"back m undone 0 fired 1\n"),
        (b"net", RING_CLOSED),
    ],
};

const RING_CLOSED: &[u8] = b"# agents 0 wires 2 rings 1\np = q;\nr = s;\n_0 = _0;\n";

const RING_OPEN: &[u8] = b"# agents 2 wires 5 rings 0\nD(_0,p) = _1;\nD(_0,q) = _1;\nr = s;\n";

#[test]
fn firing_over_the_table(rt: HostRuntime) -> Result<(), Fail> {
    assert_eq!(rt; plays::<Store>(rt.alloc(), &FIRING), Some(true));
    Ok(())
}

#[test]
fn firing_over_rows(rt: HostRuntime) -> Result<(), Fail> {
    assert_eq!(rt; plays::<LinkRows>(rt.alloc(), &FIRING), Some(true));
    Ok(())
}

#[test]
fn going_back_over_the_table(rt: HostRuntime) -> Result<(), Fail> {
    assert_eq!(rt; plays::<Store>(rt.alloc(), &GOING_BACK), Some(true));
    Ok(())
}

#[test]
fn going_back_over_rows(rt: HostRuntime) -> Result<(), Fail> {
    assert_eq!(rt; plays::<LinkRows>(rt.alloc(), &GOING_BACK), Some(true));
    Ok(())
}

#[test]
fn reducing_over_the_table(rt: HostRuntime) -> Result<(), Fail> {
    assert_eq!(rt; plays::<Store>(rt.alloc(), &REDUCING), Some(true));
    Ok(())
}

#[test]
fn reducing_over_rows(rt: HostRuntime) -> Result<(), Fail> {
    assert_eq!(rt; plays::<LinkRows>(rt.alloc(), &REDUCING), Some(true));
    Ok(())
}

#[test]
fn absorbing_over_the_table(rt: HostRuntime) -> Result<(), Fail> {
    assert_eq!(rt; plays::<Store>(rt.alloc(), &ABSORBING), Some(true));
    Ok(())
}

#[test]
fn absorbing_over_rows(rt: HostRuntime) -> Result<(), Fail> {
    assert_eq!(rt; plays::<LinkRows>(rt.alloc(), &ABSORBING), Some(true));
    Ok(())
}

#[test]
fn rings_over_the_table(rt: HostRuntime) -> Result<(), Fail> {
    assert_eq!(rt; plays::<Store>(rt.alloc(), &RINGS), Some(true));
    Ok(())
}

#[test]
fn rings_over_rows(rt: HostRuntime) -> Result<(), Fail> {
    assert_eq!(rt; plays::<LinkRows>(rt.alloc(), &RINGS), Some(true));
    Ok(())
}
