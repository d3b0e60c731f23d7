ghost use Rattle.std.specs.Prelude.{◌≡◌, ◌<◌, ◌≤◌, ◌++◌, true, IfErr, IfOk, IfSome, OnOk};
ghost use Rattle.ic_command.specs.Left.{work};
ghost use Rattle.ic_command.specs.Faults.{IsReadFault};
ghost use Rattle.ic_session.specs.InputLines.{is_bar, whole_line};
ghost use Rattle.ic_session.specs.NetInput.{IsShort, ReadsNet, has_read_bar};
ghost use Rattle.ic_session.specs.Streams.{left_in};

use crate::prompts::{Prompts, ask_for_net};
use crate::streams::Source;
use ic_command::{IoFault, Piece};
use ic_text::grammar::limits::MAX_TEXT;
use std::alloc::{AllocError, Global};
use std::io::{Read, Write};

/// The net text of a session: all before the bar, or all that is left.
#[derive(Drop)]
pub enum NetInput {
    /// It was read, and the bar after it, if there is one.
    Whole { text: Vec<u8>, barred: bool },
    /// It has more bytes than a net text may have. Reading stops as soon as that is known.
    TooLong,
}

/// Whether the line parts the net from the commands.
fn is_bar(line: &[u8]) -> bool
    ensures { result ≡ is_bar line.now }
{
    matches!(line, b"---" | b"---\r")
}

/// Reads the net text of a session, and the bar after it. It asks for each line if the session does. `IoFault::Read` if the
/// reader fails or no call of it is left, `IoFault::Memory` if there is no memory.
pub fn read_net_text<R: Read, E: Write>(
    alloc: Global,
    source: &mut Source<'_, R>,
    errors: &mut E,
    prompts: Prompts,
) -> Result<NetInput, IoFault>
    ensures read { IfOk result (λ net. IfSome (left_in R.remaining source.old) (λ bytes. ReadsNet net bytes (left_in R.remaining source.new))) }
    ensures short { IfOk result IsShort }
    ensures less { OnOk result (work source.new.input ≤ work source.old.input) }
    ensures barred { IfOk result (λ net. has_read_bar net ≡ true → work source.new.input < work source.old.input) }
    ensures fewer { source.new.input.reads ≤ source.old.input.reads }
    ensures fault { IfErr result (IsReadFault source.new.input.reads) }
{
    let mut text = Vec::new(alloc);
    let mut line = Vec::new(alloc);
    let mut prompts = prompts;
    loop {
        ask_for_net(errors, prompts);
        prompts = prompts.after(1);
        match source.input.next_line(source.reader, &mut line, MAX_TEXT)? {
            Piece::End => {
                return Ok(NetInput::Whole {
                    text,
                    barred: false,
                });
            }
            Piece::TooLong => return Ok(NetInput::TooLong),
            Piece::Line(ended) => {
                if is_bar(&line) {
                    return Ok(NetInput::Whole { text, barred: true });
                }
                append(&mut text, &line, ended)?;
                if text.len() > MAX_TEXT {
                    return Ok(NetInput::TooLong);
                }
            }
        }
    }
}

/// Puts a line at the end, as it stood in the input.
fn append(text: &mut Vec<u8>, line: &[u8], ended: bool) -> Result<(), AllocError>
    ensures { OnOk result (text.new.items ≡ text.old.items ++ whole_line (record { bytes = line.now; ended = ended })) }
{
    text.extend_from_slice(line)?;
    if ended {
        text.push(b'\n')?;
    }
    Ok(())
}
