ghost use Rattle.std.specs.Prelude.{◌≡◌, ◌≢◌, ◌<◌, ◌≤◌, ◌↔◌, Bool, true, IfErr, IfOk, IfSome, IsSomeAnd, IsTrue, OnErr, OnOk, ◌∷◌};
ghost use Rattle.ic_command.specs.Left.{work};
ghost use Rattle.ic_command.specs.Faults.{AppendsFront, IsReadFault};
ghost use Rattle.ic_command.specs.declared.lines.piece.IoFault.TheVariants as io;
ghost use Rattle.ic_session.specs.Echoes.{WritesEcho, echoed};
ghost use Rattle.ic_session.specs.InputLines.{lines};
ghost use Rattle.ic_session.specs.Modes.{IsQuestionAt, Quits, Renews, TakesDemand, TakesNext};
ghost use Rattle.ic_session.specs.NextRequest.{Takes};
ghost use Rattle.ic_session.specs.Streams.{left_in, written_to};
ghost use Rattle.ic_session.specs.declared.next_demand.NextDemand.TheVariants as next_demand;

use crate::demand::Demand;
use crate::echo::echo;
use crate::listed_events::listed_events;
use crate::mode::Mode;
use crate::streams::{Sink, Source};
use crate::taken_line::take_line;
use ic_command::{
    Asked, Command, IoFault, Piece, Question, Request, asked_of, is_new, is_quit, question_of,
};
use std::alloc::{AllocError, Global};
use std::io::{Read, Write};

/// What the next line of a session asks for, with the lines after it that it takes.
#[derive(Drop)]
pub(crate) enum NextDemand {
    Demand(Demand),
    /// It ends what the session does with this net: another net comes after it.
    Renewal,
    /// The input has ended, or the line ends the session.
    Done,
}

/// What the next line asks for. A session that echoes has written the line of a demand then.
pub(crate) fn next_demand<R: Read, W: Write>(
    alloc: Global,
    mode: Mode,
    source: &mut Source<'_, R>,
    sink: &mut Sink<'_, W>,
) -> Result<NextDemand, IoFault>
    ensures taken { IfOk result (λ next. IfSome (left_in R.remaining source.old)
        (λ bytes. TakesNext mode next bytes (left_in R.remaining source.new))) }
    ensures echoed { IfOk result (λ next. IfSome (left_in R.remaining source.old)
        (λ bytes. WritesEcho mode next bytes (written_to W.contents sink.old) (written_to W.contents sink.new))) }
    ensures begun { OnErr result (IfSome (left_in R.remaining source.old)
        (λ bytes. AppendsFront (written_to W.contents sink.old) (written_to W.contents sink.new) (echoed mode (lines bytes)))) }
    ensures less { OnOk result (work source.new.input ≤ work source.old.input) }
    ensures goes_on { IfOk result (λ next. next ≢ next_demand.Done → work source.new.input < work source.old.input) }
    ensures fewer { source.new.input.reads ≤ source.old.input.reads }
    ensures read { IfErr result (λ fault. fault ≡ io.Read → source.new.input.reads ≡ 0) }
    ensures write { IfErr result (λ fault. fault ≡ io.Write → sink.new.output.failed ≡ true) }
    ensures same_writer { sink.new.writer.ghost_name ≡ sink.old.writer.ghost_name }
{
    match take_line(source)? {
        Piece::Line(_) => {
            source.place.enter(&source.line, mode);
            if quits(&source.line, mode) {
                return Ok(NextDemand::Done);
            }
            if renews(&source.line, mode) {
                return Ok(NextDemand::Renewal);
            }
            echo(alloc, &source.line, sink, mode)?;
            let demand = demand_at(alloc, mode, source)?;
            Ok(NextDemand::Demand(demand))
        }
        Piece::TooLong => {
            source.place.enter_long();
            let request = Request::Bench(Command::Malformed);
            Ok(NextDemand::Demand(Demand::Requests(request)))
        }
        Piece::End => Ok(NextDemand::Done),
    }
}

/// Whether a line ends a session of this mode.
fn quits(line: &[u8], mode: Mode) -> bool
    ensures { IsTrue result ↔ Quits mode line.now }
{
    mode.explains && is_quit(line)
}

/// Whether a line ends what a session of this mode does with a net.
fn renews(line: &[u8], mode: Mode) -> bool
    ensures { IsTrue result ↔ Renews mode line.now }
{
    mode.explains && is_new(line)
}

/// What the line that was taken last asks for, with the lines after it that it takes.
fn demand_at<R: Read>(
    alloc: Global,
    mode: Mode,
    source: &mut Source<'_, R>,
) -> Result<Demand, IoFault>
    ensures taken { IfOk result (λ demand. IfSome (left_in R.remaining source.old)
        (λ bytes. IsSomeAnd (left_in R.remaining source.new) (λ rest. (ended : Bool) → ¬ (Quits mode source.old.line.items) → ¬ (Renews mode source.old.line.items)
        → TakesDemand mode (record { bytes = source.old.line.items; ended = ended } ∷ lines bytes) demand (lines rest)))) }
    ensures less { OnOk result (work source.new.input ≤ work source.old.input) }
    ensures fewer { source.new.input.reads ≤ source.old.input.reads }
    ensures fault { IfErr result (IsReadFault source.new.input.reads) }
{
    match question_at(alloc, &source.line, mode)? {
        Some(question) => Ok(Demand::Asks(question)),
        None => {
            let request = request_at(alloc, source)?;
            Ok(Demand::Requests(request))
        }
    }
}

/// The question of a line, if it asks one in a session of this mode.
#[inline(always)]
fn question_at(alloc: Global, line: &[u8], mode: Mode) -> Result<Option<Question>, AllocError>
    ensures { IfOk result (λ question. IsQuestionAt mode line.now question) }
{
    if mode.explains {
        question_of(alloc, line)
    } else {
        Ok(None)
    }
}

/// The request of the line that was taken last, with the lines after it that it takes.
fn request_at<R: Read>(alloc: Global, source: &mut Source<'_, R>) -> Result<Request, IoFault>
    ensures taken { IfOk result (λ request. IfSome (left_in R.remaining source.old)
        (λ bytes. IsSomeAnd (left_in R.remaining source.new) (λ rest. (ended : Bool) → Takes (record { bytes = source.old.line.items; ended = ended } ∷ lines bytes) request (lines rest)))) }
    ensures less { OnOk result (work source.new.input ≤ work source.old.input) }
    ensures fewer { source.new.input.reads ≤ source.old.input.reads }
    ensures fault { IfErr result (IsReadFault source.new.input.reads) }
{
    match asked_of(alloc, &source.line)? {
        Asked::Alone(request) => Ok(request),
        Asked::Absorb(count) => {
            match listed_events(alloc, source, count)? {
                Some(events) => Ok(Request::Absorb(events)),
                None => Ok(Request::Bench(Command::Malformed)),
            }
        }
    }
}
