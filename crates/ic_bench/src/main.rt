//! The program icbench: a session over standard input and output.
#![tactic(auto)]

mod progress;

use crate::progress::Progress;
use ic_program::{Host, refuse_words, run_program};
use std::process::ExitCode;
use std::{env, io};

/// Runs the program on the words of its command line, over standard input, standard output and standard error.
fn main(rt: HostRuntime) -> ExitCode {
    let mut errors = rt.stderr();
    let status = match words_of(&rt) {
        Ok(words) => {
            let mut reader = rt.reader();
            let mut writer = io::writer(&rt);
            let host = Host {
                threads: &rt,
                alloc: rt.alloc(),
                files: &rt,
                gate: &Progress { rt: &rt },
            };
            run_program(
                &host,
                words.as_slice(),
                &mut reader,
                &mut writer,
                &mut errors,
            )
        }
        Err(error) => refuse_words(&error, &mut errors),
    };
    ExitCode::from(status)
}

/// The words of the command line.
fn words_of(rt: &HostRuntime) -> io::Result<Vec<String>> {
    Ok(env::args(rt)?.collect(rt.alloc())?)
}
