ghost use Rattle.std.specs.Prelude.{◌≡◌};
ghost use Rattle.ic_desk.specs.declared.fault.DeskFault.TheVariants.{Memory};

use std::alloc::AllocError;

/// Why a request has no answer. The desk is gone then.
#[derive(Clone, Copy, Debug, PartialEq, Eq)]
pub enum DeskFault {
    /// There is no memory for the answer to what has changed the desk.
    Memory,
    /// What the workers of a sweep say that they did isn't what the history says.
    Settle,
}

impl From<AllocError> for DeskFault {
    ghost from_gives = { λ _ f. f ≡ Memory };

    fn from(_error: AllocError) -> DeskFault {
        DeskFault::Memory
    }
}
