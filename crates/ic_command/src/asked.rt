ghost use Rattle.std.specs.Prelude.{◌≡◌, ◌∷◌, ◌⊎◌, IfOk, false, true};
ghost use Rattle.ic_command.specs.Asked.{AreAskedWords, IsAsked, malformed};
ghost use Rattle.ic_command.specs.Commands.{are_plain_words, deed_word, is_paired};
ghost use Rattle.ic_command.specs.Words.{words};

use crate::command::{Command, Deed, MAX_COMMAND, alone_in, event_in, number_in};
use crate::line_form::{are_plain, without_return};
use crate::request::{Request, only_name_in};
use crate::words::next_word;
use ic_name::limits::{MAX_ABSORBED, MAX_LINES};
use std::alloc::{AllocError, Global};

/// What a line of a session asks for.
#[derive(Drop)]
pub enum Asked {
    /// What it says alone.
    Alone(Request),
    /// To absorb the events that so many lines after it list.
    Absorb(u32),
}

/// What a line without its line feed asks for. An error if there is no memory for the names in it.
pub fn asked_of(alloc: Global, line: &[u8]) -> Result<Asked, AllocError>
    ensures { IfOk result (λ asked. IsAsked line.now asked) }
{
    let body = without_return(line);
    if body.len() > MAX_COMMAND {
        return Ok(Asked::Alone(Request::Bench(Command::Malformed)));
    }
    let Some((word, behind)) = next_word(body) else {
        return Ok(Asked::Alone(Request::Bench(Command::Nothing)));
    };
    // (the names of agents have no bytes that a command may not have)
    if let Some(deed) = Deed::of(word) {
        return deed_in(alloc, deed, behind);
    }
    if !are_plain(body) {
        return Ok(Asked::Alone(Request::Bench(Command::Malformed)));
    }
    other_in(alloc, word, behind)
}

/// What the word of a deed and those after it ask for.
#[inline(never)]
fn deed_in(alloc: Global, deed: Deed, behind: &[u8]) -> Result<Asked, AllocError>
    ensures asked { IfOk result (λ asked. AreAskedWords (deed_word deed ∷ words behind.now) asked) }
    ensures plain { IfOk result (λ asked. (asked ≡ malformed) ⊎ (are_plain_words (words behind.now) ≡ true)) }
{
    match event_in(alloc, behind)? {
        Some(event) => Ok(Asked::Alone(Request::Bench(deed.with(event)))),
        None => Ok(Asked::Alone(Request::Bench(Command::Malformed))),
    }
}

/// What a word that names no deed and those after it ask for.
#[inline(never)]
fn other_in(alloc: Global, word: &[u8], behind: &[u8]) -> Result<Asked, AllocError>
    requires { is_paired word.now ≡ false }
    ensures { IfOk result (λ asked. AreAskedWords (word.now ∷ words behind.now) asked) }
{
    if word == b"reduce".as_slice() {
        return match number_in(alloc, behind, MAX_LINES as u32)? {
            Some(most) => Ok(Asked::Alone(Request::Bench(Command::Reduce(most)))),
            None => Ok(Asked::Alone(Request::Bench(Command::Malformed))),
        };
    }
    if word == b"absorb".as_slice() {
        return match number_in(alloc, behind, MAX_ABSORBED as u32)? {
            Some(count) => Ok(Asked::Absorb(count)),
            None => Ok(Asked::Alone(Request::Bench(Command::Malformed))),
        };
    }
    if word == b"mark".as_slice() {
        return match only_name_in(alloc, behind)? {
            Some(name) => Ok(Asked::Alone(Request::Mark(name))),
            None => Ok(Asked::Alone(Request::Bench(Command::Malformed))),
        };
    }
    if word == b"back".as_slice() {
        return match only_name_in(alloc, behind)? {
            Some(name) => Ok(Asked::Alone(Request::Back(name))),
            None => Ok(Asked::Alone(Request::Bench(Command::Malformed))),
        };
    }
    Ok(Asked::Alone(Request::Bench(alone_in(word, behind))))
}
