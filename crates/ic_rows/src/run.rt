use crate::compare::{Difference, different_line, first_difference};
use crate::plain::run_plain_session;
use crate::row::{Row, Stores};
use anyhow::{Context, Result};
use ic_command::{Input, Output};
use ic_session::{
    Fault, MAX_READS, Mode, NoGate, Prompts, Setting, Sink, Source, Status, run_session,
};
use std::alloc::Global;
use std::fs;
use std::rt::Files;
use std::sync::Wait;
use std::thread::Threads;

/// Whether the session of a row is answered as is stored. A line is printed for each store over which it isn't.
pub fn passes<R: Files + Print + AllocGlobal + Threads + Wait + Sync>(
    rt: &R,
    row: &Row<'_>,
) -> Result<bool> {
    let input = stored(rt, row.name, "in")?;
    let wanted = stored(rt, row.name, "out")?;
    let ran = run(rt, rt.alloc(), row, &input);
    let found = ran.difference(row.status, &wanted);
    match row.stores {
        Stores::Fast => is_same(rt, row.name, "fast", found),
        Stores::Explained => {
            let said = stored(rt, row.name, "errors")?;
            is_same(
                rt,
                row.name,
                "fast",
                found.or_else(|| ran.other_notes(&said)),
            )
        }
        Stores::Both => {
            let fast = is_same(rt, row.name, "fast", found)?;
            let found = on_plain(rt.alloc(), row, &input, &wanted);
            let plain = is_same(rt, row.name, "plain", found)?;
            Ok(fast && plain)
        }
    }
}

/// What stands in the session's file of this ending.
fn stored<R: Files + AllocGlobal>(rt: &R, name: &str, ending: &str) -> Result<Vec<u8>> {
    let path = format!(in rt.alloc(); "{name}.{ending}")?;
    fs::read(rt, path.as_str()).context(format_args!("reading {path}"))
}

/// Whether nothing differs over a store; else a line tells what.
fn is_same(rt: &impl Print, name: &str, store: &str, found: Option<Difference>) -> Result<bool> {
    if let Some(difference) = found {
        println!(rt; "{name}, {store} store: {difference}")?;
    }
    Ok(found.is_none())
}

/// A session that ran: how it ended, what it wrote, and what it said beside that.
#[derive(Drop)]
struct Ran {
    ended: std::result::Result<Status, Fault>,
    written: Vec<u8>,
    said: Vec<u8>,
}

impl Ran {
    /// What differs in its end or in what it wrote.
    fn difference(&self, status: Status, wanted: &[u8]) -> Option<Difference> {
        first_difference(self.ended, status, &self.written, wanted)
    }

    /// What differs in what it said.
    fn other_notes(&self, wanted: &[u8]) -> Option<Difference> {
        different_line(&self.said, wanted).map(Difference::Said)
    }
}

/// Runs the session of a row over the fast store.
fn run<T: Threads + Wait + Sync>(threads: &T, alloc: Global, row: &Row<'_>, input: &[u8]) -> Ran {
    let mut written = Vec::new(alloc);
    let mut said = Vec::new(alloc);
    let ended = session(
        &setting_of(threads, alloc, row),
        input,
        &mut written,
        &mut said,
    );
    Ran {
        ended,
        written,
        said,
    }
}

/// How the session of a row is run.
fn setting_of<'a, T>(threads: &'a T, alloc: Global, row: &Row<'_>) -> Setting<'a, T, NoGate> {
    Setting {
        threads,
        alloc,
        gate: &NoGate,
        mode: Mode {
            workers: row.workers,
            budget: row.budget,
            explains: matches!(row.stores, Stores::Explained),
            stops: false,
            echoes: false,
            retries: false,
        },
        prompts: Prompts::Silent,
    }
}

/// Runs a session over an input.
fn session<T: Threads + Wait + Sync>(
    setting: &Setting<'_, T, NoGate>,
    input: &[u8],
    written: &mut Vec<u8>,
    said: &mut Vec<u8>,
) -> std::result::Result<Status, Fault> {
    let mut reader = input;
    let lines = Input::new(setting.alloc, MAX_READS)?;
    let mut source = Source::new(setting.alloc, lines, &mut reader);
    let mut sink = Sink {
        writer: written,
        output: Output::new(),
    };
    run_session(setting, &mut source, &mut sink, said)
}

/// What differs over the plain store.
fn on_plain(alloc: Global, row: &Row<'_>, input: &[u8], wanted: &[u8]) -> Option<Difference> {
    let mut written = Vec::new(alloc);
    let ended = run_plain_session(alloc, input, &mut written, row.budget);
    first_difference(ended, row.status, &written, wanted)
}
