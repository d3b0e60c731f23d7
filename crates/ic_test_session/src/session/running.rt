use ic_command::{Input, Output};
use ic_session::{Fault, Mode, NoGate, Prompts, Setting, Sink, Source, Status, run_session};
use std::alloc::Global;
use std::io::{Read, Write};
use std::sync::Wait;
use std::thread::Threads;

/// The mode of a session by so many workers that answers commands alone.
pub fn plain(workers: u8) -> Mode {
    Mode {
        workers,
        budget: 1_048_576,
        explains: false,
        stops: false,
        echoes: false,
        retries: false,
    }
}

/// How a session ends that calls the reader so often at most. What it says beside its answers isn't kept.
pub fn run<R: Read, W: Write, T: Threads + Wait + Sync>(
    threads: &T,
    alloc: Global,
    mode: Mode,
    reads: u32,
    reader: &mut R,
    writer: &mut W,
) -> Result<Status, Fault> {
    let setting = Setting {
        threads,
        alloc,
        gate: &NoGate,
        mode,
        prompts: Prompts::Silent,
    };
    let mut source = Source::new(alloc, Input::new(alloc, reads)?, reader);
    let mut sink = Sink {
        writer,
        output: Output::new(),
    };
    let mut unheard: Vec<u8> = Vec::new(alloc);
    run_session(&setting, &mut source, &mut sink, &mut unheard)
}
