ghost use Rattle.std.specs.Prelude.{◌≡◌};
ghost use Rattle.ic_trace.specs.Faults.{trace_number};

use ic_name::numbers;
use thiserror::Error;

/// Why there are no moves for a list of letters.
#[derive(Clone, Copy, Debug, PartialEq, Eq, Error)]
pub enum TraceFault {
    /// The list has more letters than it may have.
    #[error("the list has more than 2,000 letters")]
    TooMany,
    /// The letter with this number is the first that the start doesn't accept.
    #[error("letter {0} is not accepted")]
    NotLegal(usize),
    /// Memory ran out.
    #[error("memory ran out while looking for moves")]
    Memory,
}

impl TraceFault {
    /// The number of the refusal: 71, 72 or 25.
    pub fn number(self) -> u8
        ensures { result ≡ trace_number self }
    {
        match self {
            TraceFault::TooMany => numbers::TOO_MANY_LETTERS,
            TraceFault::NotLegal(_) => numbers::NOT_LEGAL,
            TraceFault::Memory => numbers::MEMORY,
        }
    }
}
