ghost use Rattle.std.specs.Prelude.{◌≡◌, IfOk};
ghost use Rattle.ic_desk.specs.Replies.{absorbed_text, back_text, marked_text, never_text, wanting_text};

use ic_command::MarkName;
use ic_name::{EventName, write_pair};
use ic_undo::Counts;
use std::alloc::{AllocError, Global};

/// How many events are marked under the name.
pub(crate) fn marked_text(alloc: Global, name: &MarkName, count: u32) -> Result<Vec<u8>, AllocError>
    ensures { IfOk result (λ text. text.items ≡ marked_text name.now count) }
{
    let mut text = Vec::from_slice(alloc, b"marked ")?;
    text.extend_from_slice(name.bytes())?;
    let rest = format!(in alloc; " {}\n", count)?;
    text.extend_from_slice(rest.as_bytes())?;
    Ok(text)
}

/// How many events were undone and fired to go back to the mark of this name.
pub(crate) fn back_text(
    alloc: Global,
    name: &MarkName,
    counts: Counts,
) -> Result<Vec<u8>, AllocError>
    ensures { IfOk result (λ text. text.items ≡ back_text name.now counts.undone counts.fired) }
{
    let mut text = Vec::from_slice(alloc, b"back ")?;
    text.extend_from_slice(name.bytes())?;
    let rest = format!(in alloc; " undone {} fired {}\n", counts.undone, counts.fired)?;
    text.extend_from_slice(rest.as_bytes())?;
    Ok(text)
}

/// That memory ran out after so many undoings and firings.
pub(crate) fn wanting_text(alloc: Global, counts: Counts) -> Result<Vec<u8>, AllocError>
    ensures { IfOk result (λ text. text.items ≡ wanting_text counts.undone counts.fired) }
{
    let text = format!(in alloc;
        "refused 25 memory after {} undone {} fired\n",
        counts.undone, counts.fired
    )?;
    Ok(text.into_bytes())
}

/// How many events were absorbed.
pub(crate) fn absorbed_text(alloc: Global, count: u32) -> Result<Vec<u8>, AllocError>
    ensures { IfOk result (λ text. text.items ≡ absorbed_text count) }
{
    Ok(format!(in alloc; "absorbed {}\n", count)?.into_bytes())
}

/// The event that can't come to stand.
pub(crate) fn never_text(alloc: Global, event: &EventName) -> Result<Vec<u8>, AllocError>
    ensures { IfOk result (λ text. text.items ≡ never_text event.now) }
{
    let mut text = Vec::from_slice(alloc, b"refused 51 ")?;
    write_pair(event.lead(), event.other(), &mut text)?;
    text.push(b'\n')?;
    Ok(text)
}
