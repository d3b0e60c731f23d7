ghost use Rattle.std.specs.Prelude.{◌≡◌, ◌↔◌, IsTrue, [], ◌∷◌};
ghost use Rattle.ic_command.specs.Questions.{IsNew, IsQuit, IsWordAlone};
ghost use Rattle.ic_command.specs.Words.{words};

use crate::line_form::{is_well_formed, without_return};
use crate::words::next_word;

/// Whether a line without its line feed ends a session that explains itself: it is the word `quit` alone.
pub fn is_quit(line: &[u8]) -> bool
    ensures { IsTrue result ↔ IsQuit line.now }
{
    is_word_alone(line, b"quit".as_slice())
}

/// Whether after a line without its line feed another net comes in such a session: it is the word `new` alone.
pub fn is_new(line: &[u8]) -> bool
    ensures { IsTrue result ↔ IsNew line.now }
{
    is_word_alone(line, b"new".as_slice())
}

/// Whether a line is this word alone. A carriage return at its end goes first.
fn is_word_alone(line: &[u8], word: &[u8]) -> bool
    ensures { IsTrue result ↔ IsWordAlone word.now line.now }
{
    let body = without_return(line);
    is_well_formed(body) && is_only_word(body, word)
}

/// Whether this is the only word.
fn is_only_word(body: &[u8], word: &[u8]) -> bool
    ensures { IsTrue result ↔ (words body.now ≡ word.now ∷ []) }
{
    let Some((first, behind)) = next_word(body) else {
        return false;
    };
    next_word(behind).is_none() && first == word
}
