ghost use Rattle.std.specs.Prelude.{◌≡◌, IfOk};
ghost use Rattle.ic_command.specs.Requests.{within};
ghost use Rattle.ic_command.specs.MarkNames.{IsOnlyName};
ghost use Rattle.ic_command.specs.Words.{words};

use crate::command::Command;
use crate::mark_name::MarkName;
use crate::words::next_word;
use ic_name::EventName;
use std::alloc::{AllocError, Global};

/// What a line of a session asks for.
#[derive(Drop)]
pub enum Request {
    /// A command of the bench.
    Bench(Command),
    /// To mark what stands.
    Mark(MarkName),
    /// To go back to a mark.
    Back(MarkName),
    /// To absorb events.
    Absorb(Vec<EventName>),
}

impl Request {
    /// The request in a session that fires at most so many events at once.
    pub fn within(self, budget: u32) -> Request
        ensures { result ≡ within budget self }
    {
        match self {
            Request::Bench(command) => Request::Bench(command.within(budget)),
            other => other,
        }
    }
}

/// The name of a mark that is the only word of a line; `None` if there is no such word.
pub(crate) fn only_name_in(alloc: Global, line: &[u8]) -> Result<Option<MarkName>, AllocError>
    ensures { IfOk result (λ name. IsOnlyName (words line.now) name) }
{
    let Some((word, behind)) = next_word(line) else {
        return Ok(None);
    };
    if next_word(behind).is_some() {
        return Ok(None);
    }
    MarkName::read(alloc, word)
}
