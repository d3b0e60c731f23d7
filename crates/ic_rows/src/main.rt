//! Runs the worked sessions of `data`, and compares what each writes with the stored text.
#![tactic(auto)]

mod compare;
mod plain;
mod row;
mod run;

use crate::row::row_of;
use crate::run::passes;
use anyhow::{Context, Result};
use std::fs;
use std::process::ExitCode;
use std::rt::Files;
use std::sync::Wait;
use std::thread::Threads;

/// Runs the sessions of the index. A line tells of each that differs, and the last line how many passed.
fn main(rt: HostRuntime) -> Result<ExitCode> {
    let index = fs::read_to_string(&rt, "index.tsv").context("reading index.tsv")?;
    let mut passed = 0u32;
    let mut failed = 0u32;
    for line in index.lines().skip(1) {
        if passes_line(&rt, line)? {
            passed = passed.saturating_add(1);
        } else {
            failed = failed.saturating_add(1);
        }
    }
    println!(rt; "{passed} passed, {failed} failed")?;
    Ok(if failed == 0 {
        ExitCode::SUCCESS
    } else {
        ExitCode::FAILURE
    })
}

/// Whether the session of a line of the index is answered as is stored.
fn passes_line<R: Files + Print + AllocGlobal + Threads + Wait + Sync>(
    rt: &R,
    line: &str,
) -> Result<bool> {
    let row = row_of(line).context(format_args!("reading the line {line:?} of index.tsv"))?;
    passes(rt, &row)
}
