ghost use Rattle.std.specs.Prelude.{◌≡◌, ◌<◌, ◌≤◌, ℕ, List, true, IfErr, IfOk, IfSome, OnErr};
ghost use Rattle.std.specs.Io.KnownBytes.{Appends};
ghost use Rattle.ic_session.specs.Sessions.{IsBegun, Writes};
ghost use Rattle.ic_session.specs.Streams.{left_in, written_to};
ghost use Rattle.ic_session.specs.declared.fault.Fault.TheVariants.{Read, Settle, Write};

use crate::fault::Fault;
use crate::net_session::{NetEnd, run_net};
use crate::notes::explain_fault;
use crate::setting::Setting;
use crate::streams::{Sink, Source};
use ic_desk::Gate;
use std::io::{Read, Write};
use std::sync::Wait;
use std::thread::Threads;

/// How a session ended.
#[derive(Clone, Copy, Debug, PartialEq, Eq)]
pub enum Status {
    /// The input ended, or `quit` was read, and each command before was answered.
    Ended,
    /// A command was refused, in a session that stops there.
    Stopped,
    /// The net text was refused, and its first fault was named.
    NetRefused,
}

/// The calls of a reader's `read` that a session of the program makes, at most.
pub const MAX_READS: u32 = 1_073_741_824;

/// Runs a session: reads a net as text and commands, and writes an answer to each command. It begins with what the source has
/// read and not yet taken, and calls the reader at most as often as its input has calls left. A `reduce` fires at most the budget,
/// whatever it asks for. With two workers or more, of 64 at most, it is a sweep by so many, and the gate sees each commit.
///
/// A session that explains itself answers questions, too. To `errors` it writes a sentence for each refusal and fault, with the
/// number of its line: what is wrong, and what would be right. If `errors` fails, that is left out.
///
/// `Fault::Read` comes only if the input has no call of the reader left: all were made, or the reader failed. `Fault::Write`
/// comes only if the output has failed: the writer took no byte of an answer, or answered an error.
/// `Fault::Memory` comes only if memory runs out. `Fault::Settle` comes only with two workers or more, if those of a sweep say
/// that they did what the history doesn't say. What was written by then is a first part of what a session may write.
pub fn run_session<R: Read, W: Write, E: Write, T: Threads + Wait + Sync, G: Gate>(
    setting: &Setting<'_, T, G>,
    source: &mut Source<'_, R>,
    sink: &mut Sink<'_, W>,
    errors: &mut E,
) -> Result<Status, Fault>
    ensures written { IfOk result (λ status. IfSome (left_in R.remaining source.old) (λ bytes. Writes setting.now.mode bytes status (written_to W.contents sink.old) (written_to W.contents sink.new))) }
    ensures begun { OnErr result (IfSome (left_in R.remaining source.old) (λ bytes. (text : List ℕ) × IsBegun setting.now.mode bytes text × Appends (written_to W.contents sink.old) (written_to W.contents sink.new) text)) }
    ensures fewer { source.new.input.reads ≤ source.old.input.reads }
    ensures read { IfErr result (λ fault. fault ≡ Read → source.new.input.reads ≡ 0) }
    ensures write { IfErr result (λ fault. fault ≡ Write → sink.new.output.failed ≡ true) }
    ensures settle { IfErr result (λ fault. fault ≡ Settle → 1 < setting.now.mode.workers) }
    ensures same_writer { sink.new.writer.ghost_name ≡ sink.old.writer.ghost_name }
{
    match run_over(setting, source, sink, errors) {
        Ok(status) => Ok(status),
        Err(fault) => {
            tell(setting, source, errors, fault);
            Err(fault)
        }
    }
}

/// Runs a session as `run_session` does: one net after the other, as long as another one comes.
fn run_over<R: Read, W: Write, E: Write, T: Threads + Wait + Sync, G: Gate>(
    setting: &Setting<'_, T, G>,
    source: &mut Source<'_, R>,
    sink: &mut Sink<'_, W>,
    errors: &mut E,
) -> Result<Status, Fault>
    ensures written { IfOk result (λ status. IfSome (left_in R.remaining source.old) (λ bytes. Writes setting.now.mode bytes status (written_to W.contents sink.old) (written_to W.contents sink.new))) }
    ensures begun { OnErr result (IfSome (left_in R.remaining source.old) (λ bytes. (text : List ℕ) × IsBegun setting.now.mode bytes text × Appends (written_to W.contents sink.old) (written_to W.contents sink.new) text)) }
    ensures fewer { source.new.input.reads ≤ source.old.input.reads }
    ensures read { IfErr result (λ fault. fault ≡ Read → source.new.input.reads ≡ 0) }
    ensures write { IfErr result (λ fault. fault ≡ Write → sink.new.output.failed ≡ true) }
    ensures settle { IfErr result (λ fault. fault ≡ Settle → 1 < setting.now.mode.workers) }
    ensures same_writer { sink.new.writer.ghost_name ≡ sink.old.writer.ghost_name }
{
    loop {
        match run_net(setting, source, sink, errors)? {
            NetEnd::Over(status) => return Ok(status),
            NetEnd::Another => {}
        }
    }
}

/// Says after which line a session broke off, if it explains itself.
fn tell<R, E: Write, T, G>(
    setting: &Setting<'_, T, G>,
    source: &Source<'_, R>,
    errors: &mut E,
    fault: Fault,
) {
    if setting.mode.explains {
        explain_fault(setting.alloc, errors, source.place, fault);
    }
}
