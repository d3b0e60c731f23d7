ghost use Rattle.std.specs.Prelude.{◌≡◌, ◌≢◌, ℕ, false, List, [], IfOk, IfSome, OnErr, map};
ghost use Rattle.std.specs.Io.KnownBytes.{Appends};
ghost use Rattle.std.specs.IoError.{error_kind};
ghost use Rattle.std.specs.declared.io.ErrorKind.TheVariants as io_kinds;
ghost use Rattle.clap.specs.Words.{kind_of};
ghost use Rattle.ic_command.specs.Faults.{AppendsFront};
ghost use Rattle.ic_session.specs.InputLines.{lines};
ghost use Rattle.ic_session.specs.Sessions.{IsBegun, NamesFirst, Writes};
ghost use Rattle.ic_session.specs.declared.session.Status.TheVariants.{NetRefused};
ghost use Rattle.ic_program.specs.CommandLine.{Choose, files_in};
ghost use Rattle.ic_program.specs.Runs.{Explains, Runs, RunsFiles, RunsSession, mode_of};
ghost use Rattle.ic_program.specs.Statuses.{fault_line, fault_status, unread_line};
ghost use Rattle.ic_program.specs.declared.options.Options.{Options as TheOptions};

use crate::options::{Asked, Options, read_options};
use crate::sources::Sources;
use crate::statuses::{
    BROKEN, ENDED, NET_REFUSED, NO_MEMORY, USAGE, fault_line, fault_status, session_status,
};
use clap::Error;
use clap::error::ErrorKind;
use ic_command::{Input, Output, write_reply};
use ic_session::{Fault, Gate, MAX_READS, NoGate, Setting, Sink, Source, Status, run_session};
use std::alloc::Global;
use std::convert::AsStr;
use std::fs::Files;
use std::io;
use std::io::{Read, Write};
use std::sync::Wait;
use std::thread::Threads;

/// What the program runs on besides its streams: threads, memory, files, and a gate that sees each commit of a session that
/// explains itself.
#[derive(Drop)]
pub struct Host<'a, T, G, F> {
    pub threads: &'a T,
    pub alloc: Global,
    pub files: &'a F,
    pub gate: &'a G,
}

impl<'a, T, G, F> Host<'a, T, G, F> {
    /// How a session with these options is run, when so many lines were read ahead.
    fn setting(&self, options: Options, ahead: u64) -> Setting<'a, T, G>
        ensures { result.mode ≡ mode_of options }
    {
        Setting {
            threads: self.threads,
            alloc: self.alloc,
            gate: self.gate,
            mode: options.mode(),
            prompts: options.prompts(ahead),
        }
    }
}

/// Runs the program on the words of a command line, and answers its exit status. What is said of a fault goes to
/// `errors`; if that fails too, the status stays. The session is read from the files that the words name, or else from
/// `reader`.
pub fn run_program<
    S: AsStr,
    R: Read,
    W: Write,
    E: Write,
    T: Threads + Wait + Sync,
    G: Gate,
    F: Files,
>(host: &Host<'_, T, G, F>, words: &[S], reader: &mut R, writer: &mut W, errors: &mut E) -> u8
    ensures ran { Runs (map S.text words.now) (R.remaining reader.old) (record { before = W.contents writer.old; after = W.contents writer.new }) (record { before = E.contents errors.old; after = E.contents errors.new }) result }
    ensures refused { files_in (map S.text words.now) ≡ [] → result ≡ NET_REFUSED → IfSome (R.remaining reader.old) (λ input. (options : TheOptions) × Choose (map S.text words.now) options × Writes (mode_of options) input NetRefused (W.contents writer.old) (W.contents writer.new)) }
    ensures named { files_in (map S.text words.now) ≡ [] → result ≡ NET_REFUSED → IfSome (R.remaining reader.old) (λ input. (options : TheOptions) × Choose (map S.text words.now) options × ((mode_of options).explains ≡ false → (text : List ℕ) × NamesFirst (lines input) text × Appends (W.contents writer.old) (W.contents writer.new) text)) }
    ensures unwritten { result ≡ USAGE → W.contents writer.new ≡ W.contents writer.old }
{
    match read_options(host.alloc, words) {
        Ok(asked) => run_asked(host, &asked, reader, writer, errors),
        Err(error) => explain(host.alloc, error, writer, errors),
    }
}

/// Runs a session over what the command line asks for.
fn run_asked<R: Read, W: Write, E: Write, T: Threads + Wait + Sync, G: Gate, F: Files>(
    host: &Host<'_, T, G, F>,
    asked: &Asked<'_>,
    reader: &mut R,
    writer: &mut W,
    errors: &mut E,
) -> u8
    ensures input { map (λ file. file.now) asked.now.files.items ≡ [] → RunsSession asked.now.options (R.remaining reader.old) (record { before = W.contents writer.old; after = W.contents writer.new }) (record { before = E.contents errors.old; after = E.contents errors.new }) result }
    ensures files { RunsFiles asked.now.options (map (λ file. file.now) asked.now.files.items) (record { before = W.contents writer.old; after = W.contents writer.new }) (record { before = E.contents errors.old; after = E.contents errors.new }) result }
{
    if asked.files.is_empty() {
        return run(host, asked.options, reader, writer, errors);
    }
    run_files(host, asked, reader, writer, errors)
}

/// Runs a session over files.
fn run_files<R: Read, W: Write, E: Write, T: Threads + Wait + Sync, G: Gate, F: Files>(
    host: &Host<'_, T, G, F>,
    asked: &Asked<'_>,
    reader: &mut R,
    writer: &mut W,
    errors: &mut E,
) -> u8
    ensures { RunsFiles asked.now.options (map (λ file. file.now) asked.now.files.items) (record { before = W.contents writer.old; after = W.contents writer.new }) (record { before = E.contents errors.old; after = E.contents errors.new }) result }
{
    let options = asked.options;
    let files = &asked.files;
    let mut sources = Sources::new(host.alloc, host.files, files, reader, options.interactive);
    let ahead = sources.read_ahead(host.alloc);
    let setting = host.setting(options, ahead);
    match session(&setting, &mut sources, writer, errors) {
        Ok(status) => session_status(status),
        Err(fault) => {
            if fault == Fault::Read {
                if let Some(at) = sources.unread() {
                    if at < asked.files.len() {
                        return refuse_file(host.alloc, asked.files[at], errors);
                    }
                }
            }
            fail(fault, errors)
        }
    }
}

/// Runs a session over an input.
fn run<R: Read, W: Write, E: Write, T: Threads + Wait + Sync, G: Gate, F: Files>(
    host: &Host<'_, T, G, F>,
    options: Options,
    reader: &mut R,
    writer: &mut W,
    errors: &mut E,
) -> u8
    ensures { RunsSession options (R.remaining reader.old) (record { before = W.contents writer.old; after = W.contents writer.new }) (record { before = E.contents errors.old; after = E.contents errors.new }) result }
{
    let setting = host.setting(options, 0);
    match session(&setting, reader, writer, errors) {
        Ok(status) => session_status(status),
        Err(fault) => fail(fault, errors),
    }
}

/// Runs a session over an input, and answers how it ended. Only a session that explains itself is heard: it writes to `errors`,
/// and the gate sees its commits.
fn session<R: Read, W: Write, E: Write, T: Threads + Wait + Sync, G: Gate>(
    setting: &Setting<'_, T, G>,
    reader: &mut R,
    writer: &mut W,
    errors: &mut E,
) -> Result<Status, Fault>
    ensures wrote { IfOk result (λ status. IfSome (R.remaining reader.old) (λ bytes. Writes setting.now.mode bytes status (W.contents writer.old) (W.contents writer.new))) }
    ensures began { OnErr result (IfSome (R.remaining reader.old) (λ bytes. (text : List ℕ) × IsBegun setting.now.mode bytes text × Appends (W.contents writer.old) (W.contents writer.new) text)) }
    ensures silent { setting.now.mode.explains ≡ false → E.contents errors.new ≡ E.contents errors.old }
{
    let Ok(input) = Input::new(setting.alloc, MAX_READS) else {
        return Err(Fault::Memory);
    };
    let mut source = Source::new(setting.alloc, input, reader);
    let mut sink = Sink {
        writer,
        output: Output::new(),
    };
    if setting.mode.explains {
        return run_session(setting, &mut source, &mut sink, errors);
    }
    let silent = Setting {
        threads: setting.threads,
        alloc: setting.alloc,
        gate: &NoGate,
        mode: setting.mode,
        prompts: setting.prompts,
    };
    let mut unheard: Vec<u8> = Vec::new(setting.alloc);
    run_session(&silent, &mut source, &mut sink, &mut unheard)
}

/// Says that a file can't be read, and answers the status.
fn refuse_file<E: Write>(alloc: Global, name: &str, errors: &mut E) -> u8
    ensures status { result ≡ BROKEN }
    ensures said { AppendsFront (E.contents errors.old) (E.contents errors.new) (unread_line name.now) }
{
    let Ok(text) = format!(in alloc; "icbench: {}: cannot be read\n", name) else {
        return BROKEN;
    };
    let _ = write_reply(errors, text.as_bytes());
    BROKEN
}

/// Writes the help if the command line asks for it, and else what is wrong with the command line.
fn explain<W: Write, E: Write>(alloc: Global, error: Error, writer: &mut W, errors: &mut E) -> u8
    ensures { Explains (kind_of error) (record { before = W.contents writer.old; after = W.contents writer.new }) (record { before = E.contents errors.old; after = E.contents errors.new }) result }
{
    if error.kind() == ErrorKind::OutOfMemory {
        return fail(Fault::Memory, errors);
    }
    let Ok(text) = format!(in alloc; "{error}") else {
        return fail(Fault::Memory, errors);
    };
    if error.use_stderr() {
        let _ = write_reply(errors, text.as_bytes());
        return USAGE;
    }
    match write_reply(writer, text.as_bytes()) {
        Ok(()) => ENDED,
        Err(fault) => fail(Fault::from(fault), errors),
    }
}

/// Says what failed, and answers its status.
fn fail<E: Write>(fault: Fault, errors: &mut E) -> u8
    ensures status { result ≡ fault_status fault }
    ensures said { AppendsFront (E.contents errors.old) (E.contents errors.new) (fault_line fault) }
{
    let _ = write_reply(errors, fault_line(fault).as_bytes());
    fault_status(fault)
}

/// Says why the words of the command line couldn't be read, and answers the status.
pub fn refuse_words<E: Write>(error: &io::Error, errors: &mut E) -> u8
    ensures memory { error_kind error.now ≡ io_kinds.OutOfMemory → result ≡ NO_MEMORY }
    ensures other { error_kind error.now ≢ io_kinds.OutOfMemory → result ≡ USAGE }
{
    if error.kind() == io::ErrorKind::OutOfMemory {
        return fail(Fault::Memory, errors);
    }
    let _ = write_reply(
        errors,
        b"error: invalid UTF-8 was detected in one or more arguments\n",
    );
    USAGE
}
