use ic_command::words::next_word;
use ic_command::{Asked, Command, MarkName, Request, asked_of, laws};
use std::alloc::Global;
use std::test::Fail;

#[test]
fn words_are_cut_where_they_end(rt: HostRuntime) -> Result<(), Fail> {
    laws::words_end_at_blanks();
    match next_word(b" \tnet  #") {
        Some((word, behind)) => {
            assert_eq!(rt; word, b"net".as_slice());
            assert_eq!(rt; behind, b"  #".as_slice());
        }
        None => return Err("a word".into()),
    }
    assert!(rt; next_word(b" \t ").is_none());
    Ok(())
}

/// What is asked for, as far as it can be compared.
#[derive(Clone, Copy, Debug, PartialEq, Eq)]
enum Kind {
    Nothing,
    Net,
    Reduce(u32),
    Malformed,
    Other,
}

/// What a command asks for.
fn asked_by(command: Command) -> Kind {
    match command {
        Command::Nothing => Kind::Nothing,
        Command::Net => Kind::Net,
        Command::Reduce(most) => Kind::Reduce(most),
        Command::Malformed => Kind::Malformed,
        _ => Kind::Other,
    }
}

/// The command of a line; `None` if it asks for something else, or there is no memory.
fn command_in(alloc: Global, line: &[u8]) -> Option<Command> {
    match asked_of(alloc, line) {
        Ok(Asked::Alone(Request::Bench(command))) => Some(command),
        _ => None,
    }
}

/// What a line asks for; `None` if memory runs out.
fn asked_in(alloc: Global, line: &[u8]) -> Option<Kind> {
    let command = command_in(alloc, line)?;
    Some(asked_by(command))
}

/// What a line asks for in a session that fires at most so many events at once.
fn asked_within(alloc: Global, line: &[u8], budget: u32) -> Option<Kind> {
    let command = command_in(alloc, line)?;
    Some(asked_by(command.within(budget)))
}

/// Lines, and what they ask for.
const LINES: [(&[u8], Kind); 3] = [
    (b" net\t", Kind::Net),
    (b"# net", Kind::Nothing),
    (b"net net", Kind::Malformed),
];

#[test]
fn a_line_asks_for_a_command(rt: HostRuntime) {
    for (line, asked) in &LINES {
        assert_eq!(rt; asked_in(rt.alloc(), line), Some(*asked));
    }
    assert_eq!(rt;
        asked_within(rt.alloc(), b"reduce 7", 3),
        Some(Kind::Reduce(3))
    );
}

/// The name of a mark, which a line asks for.
fn marked(alloc: Global, line: &[u8]) -> Option<MarkName> {
    match asked_of(alloc, line) {
        Ok(Asked::Alone(Request::Mark(name))) => Some(name),
        _ => None,
    }
}

/// Whether a line asks for a mark of this name.
fn is_marked(alloc: Global, line: &[u8], bytes: &[u8]) -> bool {
    match marked(alloc, line) {
        Some(name) => name.bytes() == bytes,
        None => false,
    }
}

/// Whether two lines ask for marks of one name, if both ask for marks.
fn are_one_mark(alloc: Global, line: &[u8], other: &[u8]) -> Option<bool> {
    let name = marked(alloc, line)?;
    let other_name = marked(alloc, other)?;
    Some(name.is(&other_name))
}

#[test]
fn a_line_asks_for_a_mark(rt: HostRuntime) {
    assert!(rt; is_marked(rt.alloc(), b"mark a_1\r", b"a_1"));
    let same = are_one_mark(rt.alloc(), b"mark a_1\r", b" mark  a_2");
    assert_eq!(rt; same, Some(false));
}

/// Whether a request asks for no mark, and for no command.
fn is_malformed(request: &Request) -> bool {
    matches!(request, Request::Bench(Command::Malformed))
}

/// Whether a line asks for no mark, and for no command.
fn asks_nothing(alloc: Global, line: &[u8]) -> bool {
    match asked_of(alloc, line) {
        Ok(Asked::Alone(request)) => is_malformed(&request.within(1)),
        _ => false,
    }
}

/// Lines with names that are none of marks.
const BAD_MARKS: [&[u8]; 5] = [
    b"mark",
    b"mark 1a",
    b"back A",
    b"mark a b",
    b"back abcdefghijklmnopqrstuvwxyz0123456",
];

#[test]
fn names_of_marks_have_a_form(rt: HostRuntime) {
    for line in &BAD_MARKS {
        assert!(rt; asks_nothing(rt.alloc(), line));
    }
}
