ghost use Rattle.std.specs.Prelude.{[], ◌∷◌, IfOk};
ghost use Rattle.ic_command.specs.Questions.{AreQuestionWords, IsQuestionIn};
ghost use Rattle.ic_command.specs.Words.{words};

use crate::command::{event_in, number_in};
use crate::line_form::{is_well_formed, without_return};
use crate::place::{Place, place_in};
use crate::words::next_word;
use ic_name::EventName;
use ic_name::limits::MAX_LINES;
use std::alloc::{AllocError, Global};

/// What a line may ask of a session that explains itself alone. Only `Step`, `Steps` and `Unstep` change something.
#[derive(Drop)]
pub enum Question {
    /// Which line of the printed net is which agent's.
    Agents,
    /// All standing events with their ranks and direct causes.
    Causes,
    /// The events that depend on an event.
    Dependents(EventName),
    /// The other end of a wire, and the events that made it.
    Wire(Place),
    /// All calls so far, with what was answered.
    History,
    /// The marks, and how many events each has.
    Marks,
    /// What a firing does.
    Rules,
    /// What can be asked for.
    Help,
    /// To fire the active pair with the least lead.
    Step,
    /// To fire the active pair with the least lead, at most so many times.
    Steps(u32),
    /// To undo the event that was fired last, at most so many times.
    Unstep(u32),
}

/// The question of a line without its line feed; `None` if it asks none. An error if memory runs out for its names.
pub fn question_of(alloc: Global, line: &[u8]) -> Result<Option<Question>, AllocError>
    ensures { IfOk result (λ question. IsQuestionIn line.now question) }
{
    let body = without_return(line);
    if is_well_formed(body) {
        question_in(alloc, body)
    } else {
        Ok(None)
    }
}

/// The question that the words of a line ask; `None` if they ask none.
fn question_in(alloc: Global, body: &[u8]) -> Result<Option<Question>, AllocError>
    ensures { IfOk result (λ question. AreQuestionWords (words body.now) question) }
{
    let Some((word, behind)) = next_word(body) else {
        return Ok(None);
    };
    if next_word(behind).is_none() {
        return Ok(plain_question(word));
    }
    if word == b"dependents".as_slice() {
        return match event_in(alloc, behind)? {
            Some(event) => Ok(Some(Question::Dependents(event))),
            None => Ok(None),
        };
    }
    if word == b"wire".as_slice() {
        return match place_in(alloc, behind)? {
            Some(place) => Ok(Some(Question::Wire(place))),
            None => Ok(None),
        };
    }
    if word == b"step".as_slice() {
        return match number_in(alloc, behind, MAX_LINES as u32)? {
            Some(most) => Ok(Some(Question::Steps(most))),
            None => Ok(None),
        };
    }
    if word == b"unstep".as_slice() {
        return match number_in(alloc, behind, MAX_LINES as u32)? {
            Some(most) => Ok(Some(Question::Unstep(most))),
            None => Ok(None),
        };
    }
    Ok(None)
}

/// The question that a word asks alone.
fn plain_question(word: &[u8]) -> Option<Question>
    ensures { AreQuestionWords (word.now ∷ []) result }
{
    if word == b"agents".as_slice() {
        Some(Question::Agents)
    } else if word == b"history".as_slice() {
        Some(Question::History)
    } else if word == b"marks".as_slice() {
        Some(Question::Marks)
    } else if word == b"rules".as_slice() {
        Some(Question::Rules)
    } else if word == b"help".as_slice() {
        Some(Question::Help)
    } else if word == b"step".as_slice() {
        Some(Question::Step)
    } else if word == b"causes".as_slice() {
        Some(Question::Causes)
    } else if word == b"unstep".as_slice() {
        Some(Question::Unstep(1))
    } else {
        None
    }
}
