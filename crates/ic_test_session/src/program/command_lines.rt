use crate::program::running::{Run, runs, status_of};
use std::str;
use std::test::Fail;

/// Command lines that are refused, by what follows the program's name, and what is said of each.
const REFUSED: [(&[&str], &[u8]); 4] = [
    (
        &["icbench", "--workers", "0"],
        b"error: invalid value '0' for '--workers <1..64>': 0 is not in 1..=64\n\nFor more information, try '--help'.\n",
    ),
    (
        &["icbench", "--workers", "65"],
        b"error: invalid value '65' for '--workers <1..64>': 65 is not in 1..=64\n\nFor more information, try '--help'.\n",
    ),
    (
        &["icbench", "--budget", "1048577"],
        b"error: invalid value '1048577' for '--budget <0..1048576>': 1048577 is not in 0..=1048576\n\nFor more information, try '--help'.\n",
    ),
    (
        &["icbench", "--net"],
        b"error: unexpected argument '--net' found\n\n  tip: to pass '--net' as a value, use '-- --net'\n\nUsage: icbench [--workers 1..64] [--budget 0..1048576] [--explain] [--stop] [--echo] [-i] [FILE..]\n\nFor more information, try '--help'.\n",
    ),
];

#[test]
fn command_lines_are_refused(rt: HostRuntime) {
    for (words, errors) in REFUSED {
        let run = Run {
            words,
            input: b"E = E;\n---\nreduce 1\n",
            status: 64,
            output: b"",
            errors,
        };
        assert!(rt; runs(&rt, rt.alloc(), run));
    }
}

/// What the help names.
const NAMED: [&str; 18] = [
    "net ",
    "active ",
    "fire A B",
    "undo A B",
    "why A B",
    "unwind A B",
    "reduce N",
    "mark NAME",
    "back NAME",
    "absorb K",
    "journal ",
    "undo-all ",
    "--workers <1..64>",
    "--budget <0..1048576>",
    "--explain",
    "--stop",
    "--echo",
    "-i, --interactive",
];

#[test]
fn the_help_names_each_command(rt: HostRuntime) -> Result<(), Fail> {
    let mut reader: &[u8] = b"E = E;\n---\nreduce 1\n";
    let mut help: Vec<u8> = Vec::new(rt.alloc());
    let mut said: Vec<u8> = Vec::new(rt.alloc());
    let words = ["icbench", "--help"];
    let status = status_of(&rt, rt.alloc(), &words, &mut reader, &mut help, &mut said);
    assert!(rt; status == 0 && said.is_empty());
    let text = str::from_utf8(help.as_slice())?;
    for name in NAMED {
        assert!(rt; text.contains(name), "no {name}");
    }
    Ok(())
}

#[test]
fn the_version_is_told(rt: HostRuntime) {
    let run = Run {
        words: &["icbench", "--version"],
        input: b"",
        status: 0,
        output: b"icbench 0.2.0\n",
        errors: b"",
    };
    assert!(rt; runs(&rt, rt.alloc(), run));
}
