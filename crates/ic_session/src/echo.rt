ghost use Rattle.std.specs.Prelude.{◌≡◌, ◌≢◌, true, IfErr, IfOk, OnErr, OnOk};
ghost use Rattle.std.specs.Io.KnownBytes.{Appends};
ghost use Rattle.ic_command.specs.Faults.{AppendsFront};
ghost use Rattle.ic_command.specs.Words.{words};
ghost use Rattle.ic_command.specs.declared.lines.piece.IoFault.TheVariants as io;
ghost use Rattle.ic_session.specs.Echoes.{echo_in, echo_of, is_echoed, is_unanswered, say_nothing};
ghost use Rattle.ic_session.specs.Streams.{written_to};

use crate::mode::Mode;
use crate::streams::Sink;
use ic_command::line_form::{are_plain, is_comment, without_return};
use ic_command::words::next_word;
use ic_command::{IoFault, MAX_COMMAND};
use std::alloc::{AllocError, Global};
use std::io::Write;

/// Writes what stands before the answer to a line: in a session that echoes, its echo.
pub(crate) fn echo<W: Write>(
    alloc: Global,
    line: &[u8],
    sink: &mut Sink<'_, W>,
    mode: Mode,
) -> Result<(), IoFault>
    ensures written { OnOk result (Appends (written_to W.contents sink.old) (written_to W.contents sink.new) (echo_in mode line.now)) }
    ensures front { OnErr result (AppendsFront (written_to W.contents sink.old) (written_to W.contents sink.new) (echo_in mode line.now)) }
    ensures fault { IfErr result (λ fault. fault ≢ io.Read) }
    ensures write { IfErr result (λ fault. fault ≡ io.Write → sink.new.output.failed ≡ true) }
    ensures same_writer { sink.new.writer.ghost_name ≡ sink.old.writer.ghost_name }
{
    if !mode.echoes {
        return Ok(());
    }
    let text = echo_of(alloc, line)?;
    sink.output.reply(sink.writer, &text)
}

/// The echo of a line: `> `, the line and a line feed; or nothing, if the line is too long or gets no answer.
fn echo_of(alloc: Global, line: &[u8]) -> Result<Vec<u8>, AllocError>
    ensures { IfOk result (λ text. text.items ≡ echo_of line.now) }
{
    let body = without_return(line);
    let mut text = Vec::new(alloc);
    if is_echoed(body) {
        text.extend_from_slice(b"> ")?;
        text.extend_from_slice(body)?;
        text.push(b'\n')?;
    }
    Ok(text)
}

/// Whether a line isn't too long, and gets an answer.
fn is_echoed(line: &[u8]) -> bool
    ensures { result ≡ is_echoed line.now }
{
    line.len() <= MAX_COMMAND && !is_unanswered(line)
}

/// Whether a line gets no answer: it has no words, or is a comment.
fn is_unanswered(line: &[u8]) -> bool
    ensures { result ≡ is_unanswered line.now }
{
    says_nothing(line) && are_plain(line)
}

/// Whether a line has no words, or the first of them begins a comment.
fn says_nothing(line: &[u8]) -> bool
    ensures { result ≡ say_nothing (words line.now) }
{
    match next_word(line) {
        None => true,
        Some((word, _behind)) => is_comment(word),
    }
}
