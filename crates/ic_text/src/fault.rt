ghost use Rattle.std.specs.Prelude.{◌≡◌};
ghost use Rattle.ic_text.specs.ReadingFaults.{text_number};
ghost use Rattle.ic_text.specs.declared.fault.TextFault.TheVariants.{Memory};

use crate::grammar::Refusal;
use ic_name::numbers;
use std::alloc::{AllocError, AllocFailed};
use thiserror::Error;

/// Why a text was not read.
#[derive(Clone, Copy, Debug, PartialEq, Eq, Error)]
pub enum TextFault {
    /// There was no memory for what the text says.
    #[error("out of memory")]
    Memory,
    /// The text says nothing: this is the first thing that is wrong with it.
    #[error("{0}")]
    Refused(Refusal),
}

impl TextFault {
    /// The number of the fault: 25 if there was no memory, else that of the fault of the text, from 1 to 9.
    pub fn number(self) -> u8
        ensures { result ≡ text_number self }
    {
        match self {
            TextFault::Memory => numbers::MEMORY,
            TextFault::Refused(refusal) => refusal.number(),
        }
    }
}

impl From<AllocError> for TextFault {
    ghost from_gives = { λ _ e. e ≡ Memory };

    fn from(_error: AllocError) -> TextFault {
        TextFault::Memory
    }
}

impl<T: Drop> From<AllocFailed<T>> for TextFault {
    ghost from_gives = { λ _ e. e ≡ Memory };

    fn from(_error: AllocFailed<T>) -> TextFault {
        TextFault::Memory
    }
}
