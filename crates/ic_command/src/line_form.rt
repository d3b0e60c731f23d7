ghost use Rattle.std.specs.Prelude.{◌≡◌};
ghost use Rattle.std.specs.List.{list_all};
ghost use Rattle.std.specs.Io.BufRead.{strip_last};
ghost use Rattle.ic_command.specs.Commands.{is_comment, is_plain, is_well_formed};

use crate::command::MAX_COMMAND;

/// The line without a carriage return at its end.
pub fn without_return(line: &[u8]) -> &[u8]
    ensures { result.now ≡ strip_last 13 line.now }
{
    match line.last() {
        Some(b'\r') => &line[..line.len() - 1],
        _ => line,
    }
}

/// Whether a command may have the byte.
pub fn is_plain(byte: u8) -> bool
    ensures { result ≡ is_plain byte }
{
    matches!(byte, b' '..=b'~' | b'\t')
}

/// Whether a command may have these bytes. One comparison tells all of them but tabs.
pub fn are_plain(body: &[u8]) -> bool
    ensures { result ≡ list_all is_plain body.now }
{
    let mut at = 0;
    loop {
        while at < body.len() && matches!(body[at], b' '..=b'~') {
            at += 1;
        }
        if at >= body.len() {
            return true;
        }
        if body[at] != b'\t' {
            return false;
        }
        at += 1;
    }
}

/// Whether a line without its end is no longer than a command may be, and has no other bytes than one may have.
pub(crate) fn is_well_formed(body: &[u8]) -> bool
    ensures { result ≡ is_well_formed body.now }
{
    body.len() <= MAX_COMMAND && are_plain(body)
}

/// Whether the first word of a line begins a comment.
pub fn is_comment(word: &[u8]) -> bool
    ensures { result ≡ is_comment word.now }
{
    matches!(word, [b'#', ..])
}
