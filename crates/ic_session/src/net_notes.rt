use crate::expected::expected_after;
use ic_command::{Topic, topic_of};
use ic_text::Refusal;
use std::alloc::{AllocError, Global};
use std::str;

/// The bytes of a name that are shown, at most.
const SHOWN: usize = 40;

/// The sentence for a net text that is refused: its line and column, what is wrong there, and what would be right. So many
/// lines stand before it.
pub(crate) fn net_note(
    alloc: Global,
    before: u64,
    text: &[u8],
    refusal: Refusal,
) -> Result<Vec<u8>, AllocError> {
    let Some(offset) = refusal.offset() else {
        return Ok(format!(in alloc; "net: {}\n", refusal)?.into_bytes());
    };
    let front = &text[..text.len().min(offset)];
    let rest = &text[text.len().min(offset)..];
    let feeds = front.iter().filter(|byte| **byte == b'\n').count() as u64;
    let begun = front.rsplit(|byte| *byte == b'\n').next().unwrap_or(front);
    let line = before.saturating_add(feeds).saturating_add(1);
    let column = (begun.len() as u64).saturating_add(1);
    let hint = hint_at(begun, rest);
    let note = match refusal {
        Refusal::Syntax(_) => {
            let (equation, expected) = expected_after(front);
            let found = found_in(rest);
            format!(in alloc;
                "line {line} column {column}: syntax: found {found} in equation {equation}; expected {expected}{hint}\n"
            )?
        }
        _ => format!(in alloc; "line {line} column {column}: {refusal}{hint}\n")?,
    };
    Ok(note.into_bytes())
}

/// What stands at the beginning of these bytes: the end of the text, a name, or a sign.
fn found_in(rest: &[u8]) -> &str {
    let name = rest.iter().take_while(|byte| is_of_name(**byte)).count();
    let found = &rest[..name.max(1).min(SHOWN).min(rest.len())];
    match str::from_utf8(found) {
        Ok("") => "the end of the net text",
        Ok(found) => found,
        Err(_) => "another byte",
    }
}

/// Whether names have the byte.
fn is_of_name(byte: u8) -> bool {
    matches!(byte, b'a'..=b'z' | b'0'..=b'9' | b'_')
}

/// A hint for a line with this much before the refused part, if it doesn't look like net text.
fn hint_at(begun: &[u8], rest: &[u8]) -> &'static str {
    if begun.is_empty() && rest.starts_with(b"---") {
        return "; the line that ends a net text is --- alone";
    }
    let known = topic_of(begun) != Topic::Unknown;
    if known || (begun.is_empty() && topic_of(first_line(rest)) != Topic::Unknown) {
        return "; this line looks like a command, and a line --- must stand before the commands";
    }
    ""
}

/// The bytes before the first line feed.
fn first_line(rest: &[u8]) -> &[u8] {
    let end = rest.iter().take_while(|byte| **byte != b'\n').count();
    &rest[..end.min(rest.len())]
}
