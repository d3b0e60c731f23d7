ghost use Rattle.std.specs.Prelude.{◌≡◌, ◌++◌, IfOk, OnOk};
ghost use Rattle.ic_name.specs.Events.{Pair, pair};
ghost use Rattle.ic_name.specs.NameTexts.{pair_text};
ghost use Rattle.ic_answer.specs.Texts.{event_line, pair_line};

use ic_name::{Event, EventName, write_pair};
use std::alloc::{AllocError, Global};

/// The bytes of two short names with a blank and a line feed, for which a line has room at once.
const SHORT_NAMES: usize = 24;

/// Puts the names of an event at the end.
pub(crate) fn push_name(text: &mut Vec<u8>, event: &EventName) -> Result<(), AllocError>
    ensures { OnOk result (text.new.items ≡ text.old.items ++ pair_text event.now) }
{
    write_pair(event.lead(), event.other(), text)
}

/// Puts the names of an event of the bench at the end.
pub(crate) fn push_event_name(text: &mut Vec<u8>, event: &Event) -> Result<(), AllocError>
    ensures { OnOk result (text.new.items ≡ text.old.items ++ pair_text (pair event.now)) }
{
    write_pair(event.lead(), event.other(), text)
}

/// Puts a line with the names of an event at the end.
pub(crate) fn push_event(text: &mut Vec<u8>, event: &Event) -> Result<(), AllocError>
    ensures { OnOk result (text.new.items ≡ text.old.items ++ event_line event.now) }
{
    push_event_name(text, event)?;
    text.push(b'\n')?;
    Ok(())
}

/// A line with the names of an event after a word.
pub(crate) fn name_line(
    alloc: Global,
    word: &[u8],
    event: &EventName,
) -> Result<Vec<u8>, AllocError>
    ensures { IfOk result (λ text. text.items ≡ pair_line word.now event.now) }
{
    let mut text = Vec::with_capacity(alloc, word.len() + SHORT_NAMES)?;
    text.extend_from_slice(word)?;
    push_name(&mut text, event)?;
    text.push(b'\n')?;
    Ok(text)
}

/// A line with the names of an event after a word.
pub(crate) fn event_line(alloc: Global, word: &[u8], event: &Event) -> Result<Vec<u8>, AllocError>
    ensures { IfOk result (λ text. text.items ≡ pair_line word.now (pair event.now)) }
{
    let mut text = Vec::from_slice(alloc, word)?;
    push_event(&mut text, event)?;
    Ok(text)
}
