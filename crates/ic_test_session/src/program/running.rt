use ic_program::{Host, run_program};
use ic_session::NoGate;
use std::alloc::Global;
use std::fs::Files;
use std::io::{Read, Write};
use std::sync::Wait;
use std::thread::Threads;

/// A run of the program: the words of its command line and its input, and then its status and what it writes to standard output
/// and standard error.
#[derive(Clone, Copy)]
pub struct Run<'a> {
    pub words: &'a [&'a str],
    pub input: &'a [u8],
    pub status: u8,
    pub output: &'a [u8],
    pub errors: &'a [u8],
}

/// The status with which the program ends on these words and these streams.
pub fn status_of<T: Threads + Wait + Sync + Files, R: Read, W: Write, E: Write>(
    rt: &T,
    alloc: Global,
    words: &[&str],
    reader: &mut R,
    writer: &mut W,
    errors: &mut E,
) -> u8 {
    let host = Host {
        threads: rt,
        alloc,
        files: rt,
        gate: &NoGate,
    };
    run_program(&host, words, reader, writer, errors)
}

/// Whether the program runs so.
pub fn runs<T: Threads + Wait + Sync + Files>(rt: &T, alloc: Global, run: Run<'_>) -> bool {
    let mut reader = run.input;
    let mut output: Vec<u8> = Vec::new(alloc);
    let mut errors: Vec<u8> = Vec::new(alloc);
    let status = status_of(rt, alloc, run.words, &mut reader, &mut output, &mut errors);
    status == run.status && output.as_slice() == run.output && errors.as_slice() == run.errors
}
