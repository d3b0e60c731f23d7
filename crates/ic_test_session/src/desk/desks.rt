use ic_answer::carry_out;
use ic_command::{Asked, Command, asked_of};
use ic_desk::{Desk, NoGate, Refused};
use ic_journal::{Bench, Store};
use ic_text::read_net;
use std::alloc::Global;
use std::test::Fail;

/// Whether a bench answers so how many pairs are active.
fn has_active(alloc: Global, bench: &mut Bench<Store>, text: &[u8]) -> Result<bool, Fail> {
    let active = carry_out(alloc, bench, Command::Active, &NoGate)?;
    Ok(active.bytes() == text)
}

/// Whether one over the net of a text does.
fn answers_active(alloc: Global, net: &[u8], text: &[u8]) -> Result<bool, Fail> {
    let mut bench = Bench::over(alloc, read_net(alloc, net)?)?;
    has_active(alloc, &mut bench, text)
}

#[test]
fn a_command_is_carried_out(rt: HostRuntime) -> Result<(), Fail> {
    assert!(rt; answers_active(rt.alloc(), b"x = x;\n", b"active 0\n")?);
    Ok(())
}

#[test]
fn refusals_have_lines(rt: HostRuntime) -> Result<(), Fail> {
    assert_eq!(rt; Refused::Deep.line(), b"refused 22 deep\n".as_slice());
    Ok(())
}

/// A desk over the net `G(x,a) = D(x,b);`.
fn desk(alloc: Global) -> Result<Desk<Store>, Fail> {
    let start = read_net(alloc, b"G(x,a) = D(x,b);\n")?;
    Ok(Desk::over(alloc, start)?)
}

/// Whether the desk answers the line so.
fn answers(alloc: Global, desk: &mut Desk<Store>, line: &[u8], text: &[u8]) -> Result<bool, Fail> {
    let Asked::Alone(request) = asked_of(alloc, line)? else {
        return Ok(false);
    };
    let answer = desk.carry_out(alloc, request, &NoGate)?;
    Ok(answer.bytes() == text)
}

/// Whether the desk answers each of these lines by the text beside it.
fn answers_all(
    alloc: Global,
    desk: &mut Desk<Store>,
    lines: &[(&[u8], &[u8])],
) -> Result<bool, Fail> {
    for (line, text) in lines {
        if !answers(alloc, desk, line, text)? {
            return Ok(false);
        }
    }
    Ok(true)
}

/// Whether the mark `m` with this number behind it is made over the start.
fn marks(alloc: Global, desk: &mut Desk<Store>, number: u32) -> Result<bool, Fail> {
    let line = format!(in alloc; "mark m{}", number)?;
    let text = format!(in alloc; "marked m{} 0\n", number)?;
    answers(alloc, desk, line.as_bytes(), text.as_bytes())
}

/// Whether so many marks are made over the start, with the numbers from 0 on.
fn marks_all(alloc: Global, desk: &mut Desk<Store>, count: u32) -> Result<bool, Fail> {
    for number in 0..count {
        if !marks(alloc, desk, number)? {
            return Ok(false);
        }
    }
    Ok(true)
}

/// Whether they are, and each of these lines is then answered by the text beside it.
fn marks_and_answers(
    alloc: Global,
    desk: &mut Desk<Store>,
    count: u32,
    lines: &[(&[u8], &[u8])],
) -> Result<bool, Fail> {
    Ok(marks_all(alloc, desk, count)? && answers_all(alloc, desk, lines)?)
}

/// Whether a desk on which so many marks were made answers each of these lines by the text beside it.
fn plays(alloc: Global, count: u32, lines: &[(&[u8], &[u8])]) -> Result<bool, Fail> {
    let mut desk = desk(alloc)?;
    marks_and_answers(alloc, &mut desk, count, lines)
}

/// A desk goes back over what was undone and over what was fired. The event of 0.0 and 0.2 goes with the two that rest
/// on it.
const GOING_BACK: [(&[u8], &[u8]); 9] = [
    (b"fire 0 1", b"fired 0 1\n"),
    (b"fire 0.0 0.2", b"fired 0.0 0.2\n"),
    (b"mark m", b"marked m 2\n"),
    (b"reduce 2", b"reduced 2 budget\n"),
    (
        b"unwind 0.0 0.2",
        b"unwound 3\n0.0.0.0 0.0.0.2\n0.0.0 0.0.2\n0.0 0.2\n",
    ),
    (b"back m", b"back m undone 0 fired 1\n"),
    (b"reduce 3", b"reduced 3 budget\n"),
    (b"back m", b"back m undone 3 fired 0\n"),
    (b"back z", b"refused 41 no mark\n"),
];

#[test]
fn a_desk_goes_back_to_its_marks(rt: HostRuntime) -> Result<(), Fail> {
    assert!(rt; plays(rt.alloc(), 0, &GOING_BACK)?);
    Ok(())
}

/// A mark of the same name takes the place of the one before.
const REPLACING: [(&[u8], &[u8]); 5] = [
    (b"mark m", b"marked m 0\n"),
    (b"fire 0 1", b"fired 0 1\n"),
    (b"mark m", b"marked m 1\n"),
    (b"undo 0 1", b"undone 0 1\n"),
    (b"back m", b"back m undone 0 fired 1\n"),
];

#[test]
fn a_mark_is_replaced(rt: HostRuntime) -> Result<(), Fail> {
    assert!(rt; plays(rt.alloc(), 0, &REPLACING)?);
    Ok(())
}

/// Beside as many marks as there may be, a further name is refused, and one of a mark isn't.
const BESIDE_ALL: [(&[u8], &[u8]); 3] = [
    (b"mark m256", b"refused 42 too many marks\n"),
    (b"back m256", b"refused 41 no mark\n"),
    (b"mark m7", b"marked m7 0\n"),
];

#[test]
fn marks_are_limited(rt: HostRuntime) -> Result<(), Fail> {
    assert!(rt; plays(rt.alloc(), 256, &BESIDE_ALL)?);
    Ok(())
}
