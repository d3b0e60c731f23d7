// Sessions in which each command stands before its answer.
use crate::session::running::{plain, run};
use ic_session::{Fault, MAX_READS, Mode, Status};
use std::alloc::Global;
use std::sync::Wait;
use std::test::Fail;
use std::thread::Threads;

/// How a session that echoes ends over this input with so many reads, and what is written.
fn session<R: Threads + Wait + Sync>(
    rt: &R,
    alloc: Global,
    input: &[u8],
    reads: u32,
) -> (Result<Status, Fault>, Vec<u8>) {
    let mode = Mode {
        echoes: true,
        ..plain(1)
    };
    let mut reader = input;
    let mut writer = Vec::new(alloc);
    let end = run(rt, alloc, mode, reads, &mut reader, &mut writer);
    (end, writer)
}

/// Whether such a session over this input ends, and has written this.
fn is_echoed<R: Threads + Wait + Sync>(rt: &R, alloc: Global, input: &[u8], text: &[u8]) -> bool {
    let (end, written) = session(rt, alloc, input, MAX_READS);
    end == Ok(Status::Ended) && written.as_slice() == text
}

/// Inputs, and what is written: plain commands, a list, a list that ends too early, lines without an answer, carriage returns,
/// and a comment with a byte that no line may have.
const ECHOES: [(&[u8], &[u8]); 6] = [
    (
        b"G(x,a) = D(x,b);\n---\nactive\nfire 0 1\nfire 0 1",
        b"> active\nactive 1\n0 1\n> fire 0 1\nfired 0 1\n> fire 0 1\nrefused 21 not active\n",
    ),
    (
        b"G(E,a) = D(b,E);\n---\nabsorb 2\n0 2\n1 0.0 rank 1\nundo 1 0.0\n",
        b"> absorb 2\nabsorbed 2\n> undo 1 0.0\nundone 1 0.0\n",
    ),
    (
        b"E = E;\n---\nabsorb 2\n0 1\n",
        b"> absorb 2\nrefused 40 command\n",
    ),
    (
        b"E = E;\n---\n# A comment.\n\n \t\n fire 0 1 \n",
        b">  fire 0 1 \nfired 0 1\n",
    ),
    (
        b"E = E;\r\n---\r\nfire 0 1\r\n\r\n# A comment.\r\n",
        b"> fire 0 1\nfired 0 1\n",
    ),
    (b"---\n# \xc3\xa9\n", b"> # \xc3\xa9\nrefused 40 command\n"),
];

#[test]
fn each_command_stands_before_its_answer(rt: HostRuntime) {
    for (input, text) in &ECHOES {
        assert!(rt; is_echoed(&rt, rt.alloc(), input, text));
    }
}

#[test]
fn a_line_that_is_too_long_is_not_echoed(rt: HostRuntime) -> Result<(), Fail> {
    let mut input = Vec::from_slice(rt.alloc(), b"---\n")?;
    let long = vec![in rt.alloc(); b'x'; 131_074]?;
    input.extend_from_slice(&long)?;
    input.extend_from_slice(b"\nnet\n")?;
    let text = b"refused 40 command\n> net\n# agents 0 wires 0 rings 0\n";
    assert!(rt; is_echoed(&rt, rt.alloc(), &input, text));
    Ok(())
}

#[test]
fn a_command_is_echoed_before_its_list_is_read(rt: HostRuntime) {
    let (end, written) = session(&rt, rt.alloc(), b"E = E;\n---\nabsorb 2\n0 1\n", 1);
    assert_eq!(rt; end, Err(Fault::Read));
    assert!(rt; written.as_slice() == b"> absorb 2\n".as_slice());
}
