ghost use Rattle.std.specs.Prelude.{◌≡◌, [], ◌∷◌, IfOk, MatchOption, false};
ghost use Rattle.ic_command.specs.Commands.{AreNumberUpTo, AreWordsOf, IsEventIn, IsNameIn, IsNumberIn, deed_command, deed_word, is_counted, is_paired, within};
ghost use Rattle.ic_command.specs.Words.{words};

use crate::line_form::is_comment;
use crate::words::next_word;
use ic_name::{AgentName, EventName, NameFault};
use std::alloc::{AllocError, Global};

/// The bytes of a command line without its end, at most.
pub const MAX_COMMAND: usize = 131_072;

/// What a line of a session asks for.
#[derive(Drop)]
pub enum Command {
    /// No words, or a comment.
    Nothing,
    /// The printed net.
    Net,
    /// The active pairs.
    Active,
    /// The standing events with their ranks.
    Journal,
    /// To fire an event.
    Fire(EventName),
    /// To undo the firing of an event.
    Undo(EventName),
    /// The rank and the direct causes of an event.
    Why(EventName),
    /// To undo an event with all that depends on it.
    Unwind(EventName),
    /// To undo all events.
    UndoAll,
    /// To fire active pairs, at most so many.
    Reduce(u32),
    /// No command.
    Malformed,
}

impl Command {
    /// The command in a session that fires at most so many events at once.
    pub fn within(self, budget: u32) -> Command
        ensures { result ≡ within budget self }
    {
        match self {
            Command::Reduce(most) => Command::Reduce(most.min(budget)),
            other => other,
        }
    }
}

/// What is asked for with the names of two agents.
#[derive(Clone, Copy)]
pub(crate) enum Deed {
    Fire,
    Undo,
    Why,
    Unwind,
}

impl Deed {
    /// The deed that a word asks for; `None` if it asks for none.
    pub(crate) fn of(word: &[u8]) -> Option<Deed>
        ensures { MatchOption result (is_paired word.now ≡ false) (λ deed. word.now ≡ deed_word deed) }
    {
        match word {
            b"fire" => Some(Deed::Fire),
            b"undo" => Some(Deed::Undo),
            b"why" => Some(Deed::Why),
            b"unwind" => Some(Deed::Unwind),
            _ => None,
        }
    }

    /// The command for an event.
    pub(crate) fn with(self, event: EventName) -> Command
        ensures { result ≡ deed_command self event }
    {
        match self {
            Deed::Fire => Command::Fire(event),
            Deed::Undo => Command::Undo(event),
            Deed::Why => Command::Why(event),
            Deed::Unwind => Command::Unwind(event),
        }
    }
}

/// What a word and those after it ask for, if the word takes no words, or begins no command.
pub(crate) fn alone_in(word: &[u8], behind: &[u8]) -> Command
    requires paired { is_paired word.now ≡ false }
    requires counted { is_counted word.now ≡ false }
    ensures { AreWordsOf (word.now ∷ words behind.now) result }
{
    if is_comment(word) {
        Command::Nothing
    } else if next_word(behind).is_some() {
        Command::Malformed
    } else if word == b"net".as_slice() {
        Command::Net
    } else if word == b"active".as_slice() {
        Command::Active
    } else if word == b"journal".as_slice() {
        Command::Journal
    } else if word == b"undo-all".as_slice() {
        Command::UndoAll
    } else {
        Command::Malformed
    }
}

/// The event that the words of a line name; `None` if they aren't the names of two agents.
#[inline(always)]
pub(crate) fn event_in(alloc: Global, line: &[u8]) -> Result<Option<EventName>, AllocError>
    ensures { IfOk result (λ event. IsEventIn (words line.now) event) }
{
    let Some((first, rest)) = next_word(line) else {
        return Ok(None);
    };
    let Some((second, behind)) = next_word(rest) else {
        return Ok(None);
    };
    if next_word(behind).is_some() {
        return Ok(None);
    }
    event_of(alloc, first, second)
}

/// The event that two words name; `None` if they aren't the names of two agents.
#[inline(always)]
pub(crate) fn event_of(
    alloc: Global,
    first: &[u8],
    second: &[u8],
) -> Result<Option<EventName>, AllocError>
    ensures { IfOk result (λ event. IsEventIn (first.now ∷ second.now ∷ []) event) }
{
    let Some(left) = name_in(alloc, first)? else {
        return Ok(None);
    };
    let Some(right) = name_in(alloc, second)? else {
        return Ok(None);
    };
    Ok(EventName::of(left, right))
}

/// The name that a word writes; `None` if it writes none that an agent may have.
pub(crate) fn name_in(alloc: Global, word: &[u8]) -> Result<Option<AgentName>, AllocError>
    ensures { IfOk result (λ name. IsNameIn word.now name) }
{
    match AgentName::read(alloc, word) {
        Ok(name) => Ok(Some(name)),
        Err(NameFault::Memory) => Err(AllocError),
        Err(_) => Ok(None),
    }
}

/// The number that the words of a line write; `None` if they aren't one number that is at most so great.
pub(crate) fn number_in(alloc: Global, line: &[u8], most: u32) -> Result<Option<u32>, AllocError>
    ensures { IfOk result (λ number. AreNumberUpTo most (words line.now) number) }
{
    let Some((word, rest)) = next_word(line) else {
        return Ok(None);
    };
    if next_word(rest).is_some() {
        return Ok(None);
    }
    number_of(alloc, word, most)
}

/// The number that a word writes, without leading zeros; `None` if it writes none that is at most so great.
pub(crate) fn number_of(alloc: Global, word: &[u8], most: u32) -> Result<Option<u32>, AllocError>
    ensures { IfOk result (λ number. IsNumberIn most word.now number) }
{
    let Ok(text) = str::from_utf8(word) else {
        return Ok(None);
    };
    let Ok(number) = text.parse::<u32>() else {
        return Ok(None);
    };
    if number > most || format!(in alloc; "{}", number)?.as_bytes() != word {
        return Ok(None);
    }
    Ok(Some(number))
}
