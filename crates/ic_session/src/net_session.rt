ghost use Rattle.std.specs.Prelude.{◌≡◌, ◌≢◌, ◌<◌, ◌≤◌, ℕ, List, true, IfErr, IfOk, IfSome, OnErr, OnOk};
ghost use Rattle.std.specs.Io.KnownBytes.{Appends};
ghost use Rattle.ic_command.specs.Left.{work};
ghost use Rattle.ic_command.specs.Faults.{AppendsFront};
ghost use Rattle.ic_session.specs.InputLines.{lines};
ghost use Rattle.ic_desk.specs.Desks.{State};
ghost use Rattle.ic_desk.specs.Views.{IsDeskAt};
ghost use Rattle.ic_session.specs.Refusals.{refusal_line};
ghost use Rattle.ic_answer.specs.Texts.{answer_text};
ghost use Rattle.ic_command.specs.declared.lines.piece.IoFault.TheVariants as io;
ghost use Rattle.ic_desk.specs.declared.fault.DeskFault.TheVariants as desk_fault;
ghost use Rattle.ic_session.specs.Modes.{IsSweepFor, TurnsIn, stops_at};
ghost use Rattle.ic_session.specs.Sessions.{AnswersNet, AreBegun, IsBegun, WritesNet, end_refused};
ghost use Rattle.ic_session.specs.Streams.{left_in, written_to};
ghost use Rattle.ic_session.specs.declared.fault.Fault.TheVariants.{Read, Settle, Write};
ghost use Rattle.ic_session.specs.declared.net_session.NetEnd.TheVariants.{Another};

use crate::demand::Demand;
use crate::fault::Fault;
use crate::mode::Mode;
use crate::net_input::{NetInput, read_net_text};
use crate::next_demand::{NextDemand, next_demand};
use crate::notes::{explain_answer, explain_net};
use crate::prompts::{ask_for_command, greet};
use crate::refusal::refusal_line;
use crate::session::Status;
use crate::setting::Setting;
use crate::streams::{Sink, Source};
use ic_command::{Command, IoFault, Request};
use ic_desk::{Answer, Desk, DeskFault, Gate, SweepSize};
use ic_journal::Store;
use ic_text::{Refusal, TextFault, read_net};
use std::alloc::AllocError;
use std::io::{Read, Write};
use std::sync::Wait;
use std::thread::Threads;

/// How a session has ended with one net.
#[derive(Clone, Copy, Debug, PartialEq, Eq)]
pub(crate) enum NetEnd {
    /// The session has ended.
    Over(Status),
    /// Another net comes next in the input.
    Another,
}

/// Runs what a session does with one net: reads it as text and commands, and writes an answer to each command, up to one by
/// which another net comes.
pub(crate) fn run_net<R: Read, W: Write, E: Write, T: Threads + Wait + Sync, G: Gate>(
    setting: &Setting<'_, T, G>,
    source: &mut Source<'_, R>,
    sink: &mut Sink<'_, W>,
    errors: &mut E,
) -> Result<NetEnd, Fault>
    ensures written { IfOk result (λ end. IfSome (left_in R.remaining source.old) (λ bytes. WritesNet setting.now.mode bytes end (left_in R.remaining source.new) (written_to W.contents sink.old) (written_to W.contents sink.new))) }
    ensures begun { OnErr result (IfSome (left_in R.remaining source.old) (λ bytes. (text : List ℕ) × IsBegun setting.now.mode bytes text × Appends (written_to W.contents sink.old) (written_to W.contents sink.new) text)) }
    ensures less { IfOk result (λ end. end ≡ Another → work source.new.input < work source.old.input) }
    ensures fewer { source.new.input.reads ≤ source.old.input.reads }
    ensures read { IfErr result (λ fault. fault ≡ Read → source.new.input.reads ≡ 0) }
    ensures write { IfErr result (λ fault. fault ≡ Write → sink.new.output.failed ≡ true) }
    ensures settle { IfErr result (λ fault. fault ≡ Settle → 1 < setting.now.mode.workers) }
    ensures same_writer { sink.new.writer.ghost_name ≡ sink.old.writer.ghost_name }
{
    let before = source.place.taken();
    let prompts = setting.prompts.after(before);
    let (text, barred) = match read_net_text(setting.alloc, source, errors, prompts)? {
        NetInput::TooLong => {
            let net = RefusedNet {
                refusal: Refusal::TooLong,
                bytes: &[],
                barred: false,
                before,
            };
            return refuse(setting, net, sink, errors);
        }
        NetInput::Whole { text, barred } => (text, barred),
    };
    let start = match read_net(setting.alloc, &text) {
        Ok(start) => start,
        Err(TextFault::Memory) => return Err(Fault::Memory),
        Err(TextFault::Refused(refusal)) => {
            source.place.pass_net(&text);
            let net = RefusedNet {
                refusal,
                bytes: &text,
                barred,
                before,
            };
            return refuse(setting, net, sink, errors);
        }
    };
    source.place.pass_net(&text);
    drop(text);
    let agents = start.agents();
    let desk: Desk<Store> = Desk::over(setting.alloc, start)?;
    greet(setting.alloc, errors, agents, &desk, setting.prompts);
    answer_all(setting, desk, source, sink, errors)
}

/// How a session of this mode has ended with a net that was refused, and that a bar ended or not.
fn after_refusal(mode: Mode, barred: bool) -> NetEnd
    ensures { result ≡ end_refused mode.retries barred }
{
    if mode.retries && barred {
        NetEnd::Another
    } else {
        NetEnd::Over(Status::NetRefused)
    }
}

/// A net text that is refused.
#[derive(Clone, Copy)]
struct RefusedNet<'a> {
    refusal: Refusal,
    bytes: &'a [u8],
    /// Whether a bar ended it.
    barred: bool,
    /// How many lines stand before it.
    before: u64,
}

/// Names the fault of a net text. If the session explains itself, it also says what is wrong. Answers how the session has ended
/// with this net.
fn refuse<W: Write, E: Write, T, G>(
    setting: &Setting<'_, T, G>,
    net: RefusedNet<'_>,
    sink: &mut Sink<'_, W>,
    errors: &mut E,
) -> Result<NetEnd, Fault>
    ensures named { IfOk result (λ end. (end ≡ end_refused setting.now.mode.retries net.entry.barred) × Appends (written_to W.contents sink.old) (written_to W.contents sink.new) (refusal_line net.entry.refusal)) }
    ensures front { OnErr result (AppendsFront (written_to W.contents sink.old) (written_to W.contents sink.new) (refusal_line net.entry.refusal)) }
    ensures fault { IfErr result (λ fault. (fault ≢ Read) × (fault ≢ Settle)) }
    ensures write { IfErr result (λ fault. fault ≡ Write → sink.new.output.failed ≡ true) }
    ensures same_writer { sink.new.writer.ghost_name ≡ sink.old.writer.ghost_name }
{
    let line = refusal_line(setting.alloc, net.refusal)?;
    sink.output.reply(sink.writer, &line)?;
    if setting.mode.explains {
        explain_net(setting.alloc, errors, net.before, net.bytes, net.refusal);
    }
    Ok(after_refusal(setting.mode, net.barred))
}

/// Answers the lines that are left, up to a refusal if the session stops there, or to one by which another net comes.
fn answer_all<R: Read, W: Write, E: Write, T: Threads + Wait + Sync, G: Gate>(
    setting: &Setting<'_, T, G>,
    mut desk: Desk<Store>,
    source: &mut Source<'_, R>,
    sink: &mut Sink<'_, W>,
    errors: &mut E,
) -> Result<NetEnd, Fault>
    ensures answered { IfOk result (λ end. IfSome (left_in R.remaining source.old) (λ bytes. (st : State) → IsDeskAt desk st →
        (text : List ℕ) × AnswersNet end desk.bench.start setting.now.mode st (lines bytes) (left_in R.remaining source.new) text × Appends (written_to W.contents sink.old) (written_to W.contents sink.new) text)) }
    ensures begun { OnErr result (IfSome (left_in R.remaining source.old) (λ bytes. (st : State) → IsDeskAt desk st →
        (text : List ℕ) × AreBegun desk.bench.start setting.now.mode st (lines bytes) text × Appends (written_to W.contents sink.old) (written_to W.contents sink.new) text)) }
    ensures less { IfOk result (λ end. end ≡ Another → work source.new.input < work source.old.input) }
    ensures fewer { source.new.input.reads ≤ source.old.input.reads }
    ensures fault { IfErr result (λ fault. fault ≡ Read → source.new.input.reads ≡ 0) }
    ensures write { IfErr result (λ fault. fault ≡ Write → sink.new.output.failed ≡ true) }
    ensures settle { IfErr result (λ fault. fault ≡ Settle → 1 < setting.now.mode.workers) }
    ensures same_writer { sink.new.writer.ghost_name ≡ sink.old.writer.ghost_name }
{
    loop {
        ask_for_command(errors, setting.prompts.after(source.place.taken()));
        match next_demand(setting.alloc, setting.mode, source, sink)? {
            NextDemand::Demand(demand) => {
                let (after, answer) = meet(setting, desk, demand)?;
                if reply(setting, answer, source, sink, errors)? {
                    return Ok(NetEnd::Over(Status::Stopped));
                }
                desk = after;
            }
            NextDemand::Renewal => return Ok(NetEnd::Another),
            NextDemand::Done => return Ok(NetEnd::Over(Status::Ended)),
        }
    }
}

/// Writes the answer to the line that was taken last, and says whether the session ends with it. If the session explains itself,
/// it says why a demand is refused.
fn reply<R, W: Write, E: Write, T, G>(
    setting: &Setting<'_, T, G>,
    answer: Answer,
    source: &Source<'_, R>,
    sink: &mut Sink<'_, W>,
    errors: &mut E,
) -> Result<bool, IoFault>
    ensures written { OnOk result (Appends (written_to W.contents sink.old) (written_to W.contents sink.new) (answer_text answer)) }
    ensures stopping { IfOk result (λ stops. stops ≡ stops_at setting.now.mode (answer_text answer)) }
    ensures front { OnErr result (AppendsFront (written_to W.contents sink.old) (written_to W.contents sink.new) (answer_text answer)) }
    ensures fault { IfErr result (λ fault. fault ≡ io.Write) }
    ensures failed { OnErr result (sink.new.output.failed ≡ true) }
    ensures same_writer { sink.new.writer.ghost_name ≡ sink.old.writer.ghost_name }
{
    sink.output.reply(sink.writer, answer.bytes())?;
    if setting.mode.explains {
        explain_answer(setting.alloc, errors, source.place, &source.line, &answer);
    }
    Ok(stops_at(setting.mode, answer.bytes()))
}

/// Whether a session of this mode ends with this answer.
fn stops_at(mode: Mode, answer: &[u8]) -> bool
    ensures { result ≡ stops_at mode answer.now }
{
    mode.stops && answer.starts_with(b"refused ")
}

/// Meets a demand: by a sweep, if it asks for a reduction and there are two workers or more, and else by one worker. The desk
/// comes back with the answer.
#[inline(always)]
fn meet<T: Threads + Wait + Sync, G: Gate>(
    setting: &Setting<'_, T, G>,
    mut desk: Desk<Store>,
    demand: Demand,
) -> Result<(Desk<Store>, Answer), DeskFault>
    ensures turns { IfOk result (λ r. TurnsIn setting.now.mode desk demand (answer_text r.1) r.0) }
    ensures settle { IfErr result (λ fault. fault ≡ desk_fault.Settle → 1 < setting.now.mode.workers) }
{
    if let Some(size) = sweep_for(setting.mode, &demand) {
        return desk.sweep(setting.threads, setting.alloc, size, setting.gate);
    }
    let answer = meet_alone(setting, &mut desk, demand)?;
    Ok((desk, answer))
}

/// The sweep that meets a demand, if it asks for a reduction, and there are two workers or more.
fn sweep_for(mode: Mode, demand: &Demand) -> Option<SweepSize>
    ensures { IfSome result (IsSweepFor mode demand.now) }
{
    let Demand::Requests(Request::Bench(Command::Reduce(asked))) = demand else {
        return None;
    };
    let budget = (*asked).min(mode.budget);
    if mode.workers < 2 || budget == 0 {
        return None;
    }
    SweepSize::new(u32::from(mode.workers), budget)
}

/// Meets a demand by one worker.
fn meet_alone<T, G: Gate>(
    setting: &Setting<'_, T, G>,
    desk: &mut Desk<Store>,
    demand: Demand,
) -> Result<Answer, AllocError>
    ensures { IfOk result (λ answer. TurnsIn setting.now.mode desk.old demand (answer_text answer) desk.new) }
{
    match demand {
        Demand::Requests(request) => {
            desk.carry_out(
                setting.alloc,
                request.within(setting.mode.budget),
                setting.gate,
            )
        }
        Demand::Asks(question) => desk.tell(setting.alloc, question),
    }
}
