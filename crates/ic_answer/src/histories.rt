ghost use Rattle.std.specs.Prelude.{◌≡◌, ◌++◌, ◌<◌, IfOk, OnOk};
ghost use Rattle.ic_command.specs.declared.question.Question.TheVariants.{History};
ghost use Rattle.ic_answer.specs.Histories.{call_text, line_text, numbered_lines, reply_text};
ghost use Rattle.ic_answer.specs.BenchQuestions.{InformsOf};

use ic_journal::{Bench, LinkStore};
use ic_name::{Call, Line, Reply, write_pair};
use std::alloc::{AllocError, Global};

/// All calls so far, each after its number with what was answered. An undo names the line of its event's firing.
pub fn tell_history<L: LinkStore>(alloc: Global, bench: &Bench<L>) -> Result<Vec<u8>, AllocError>
    ensures { IfOk result (λ text. InformsOf bench.now History text.items) }
{
    bench.lawful();
    let lines = bench.history()?;
    let mut text = format!(in alloc; "history {}\n", lines.len())?.into_bytes();
    push_lines(alloc, &mut text, &lines)?;
    Ok(text)
}

/// Puts these lines at the end, numbered from 0 on.
fn push_lines(alloc: Global, text: &mut Vec<u8>, lines: &[Line]) -> Result<(), AllocError>
    ensures { OnOk result (text.new.items ≡ text.old.items ++ numbered_lines 0 lines.now) }
{
    for number in 0..lines.len() {
        push_numbered(alloc, text, number, &lines[number])?;
    }
    Ok(())
}

/// Puts a line after its number at the end.
fn push_numbered(
    alloc: Global,
    text: &mut Vec<u8>,
    number: usize,
    line: &Line,
) -> Result<(), AllocError>
    ensures { OnOk result (text.new.items ≡ text.old.items ++ line_text number line.now) }
{
    let front = format!(in alloc; "{} ", number)?;
    text.extend_from_slice(front.as_bytes())?;
    push_call(alloc, text, &line.call)?;
    text.extend_from_slice(b": ")?;
    push_reply(alloc, text, line.reply)?;
    text.push(b'\n')?;
    Ok(())
}

/// Puts a call at the end.
fn push_call(alloc: Global, text: &mut Vec<u8>, call: &Call) -> Result<(), AllocError>
    ensures { OnOk result (text.new.items ≡ text.old.items ++ call_text call.now) }
{
    match call {
        Call::Fire(event) => {
            text.extend_from_slice(b"fire ")?;
            write_pair(event.lead(), event.other(), text)
        }
        Call::Undo(line) => {
            let undo = format!(in alloc; "undo line {}", line)?;
            text.extend_from_slice(undo.as_bytes())
        }
    }
}

/// Puts what was answered at the end.
fn push_reply(alloc: Global, text: &mut Vec<u8>, reply: Reply) -> Result<(), AllocError>
    ensures { OnOk result (text.new.items ≡ text.old.items ++ reply_text reply) }
{
    match reply {
        Reply::Fired => text.extend_from_slice(b"fired"),
        Reply::NotActive => text.extend_from_slice(b"not active"),
        Reply::Deep => text.extend_from_slice(b"deep"),
        Reply::Full => text.extend_from_slice(b"full"),
        Reply::Undone => text.extend_from_slice(b"undone"),
        Reply::NotStanding => text.extend_from_slice(b"not standing"),
        Reply::Held(line) => {
            let held = format!(in alloc; "held by line {}", line)?;
            text.extend_from_slice(held.as_bytes())
        }
    }
}
