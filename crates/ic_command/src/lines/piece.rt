ghost use Rattle.std.specs.Prelude.{◌≡◌};
ghost use Rattle.ic_command.specs.declared.lines.piece.IoFault.TheVariants.{Memory};

use std::alloc::{AllocError, AllocFailed};

/// What was read of an input.
#[derive(Clone, Copy, Debug, PartialEq, Eq)]
pub enum Piece {
    /// A whole line, and whether a line feed ended it; only the last line of an input may lack it.
    Line(bool),
    /// The beginning of a line that is longer than was allowed. The rest of it is still to be read or skipped.
    TooLong,
    /// The input has ended.
    End,
}

/// Why reading or writing stopped.
#[derive(Clone, Copy, Debug, PartialEq, Eq)]
pub enum IoFault {
    Read,
    Write,
    Memory,
}

impl From<AllocError> for IoFault {
    ghost from_gives = { λ _ e. e ≡ Memory };

    fn from(_error: AllocError) -> IoFault {
        IoFault::Memory
    }
}

impl<T: Drop> From<AllocFailed<T>> for IoFault {
    ghost from_gives = { λ _ e. e ≡ Memory };

    fn from(_error: AllocFailed<T>) -> IoFault {
        IoFault::Memory
    }
}

/// What was found in the buffer: the end of a line, a part of a line, or more than has room.
#[derive(Clone, Copy, Debug, PartialEq, Eq)]
pub enum Front {
    Whole,
    Part,
    TooLong,
}
