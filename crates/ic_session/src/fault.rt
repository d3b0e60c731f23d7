ghost use Rattle.std.specs.Prelude.{◌≡◌, ◌≢◌};
ghost use Rattle.ic_session.specs.Faults.{fault_of, fault_at_desk};
ghost use Rattle.ic_session.specs.declared.fault.Fault.TheVariants as fault;

use ic_command::IoFault;
use ic_desk::DeskFault;
use std::alloc::AllocError;

/// Why a session ended before its input did.
#[derive(Clone, Copy, Debug, PartialEq, Eq)]
pub enum Fault {
    /// Reading failed, or too many calls of the reader were made.
    Read,
    /// Writing failed.
    Write,
    /// There was no memory for a line, a word, or the answer to what has changed the desk.
    Memory,
    /// What the workers of a sweep say that they did isn't what the history says.
    Settle,
}

impl From<IoFault> for Fault {
    ghost from_gives = { λ i f. f ≡ fault_of i };

    fn from(fault: IoFault) -> Fault {
        match fault {
            IoFault::Read => Fault::Read,
            IoFault::Write => Fault::Write,
            IoFault::Memory => Fault::Memory,
        }
    }
}

impl From<AllocError> for Fault {
    ghost from_gives = { λ _ f. f ≡ fault.Memory };

    fn from(_error: AllocError) -> Fault {
        Fault::Memory
    }
}

impl From<DeskFault> for Fault {
    ghost from_gives = { λ d f. (f ≡ fault_at_desk d) × (f ≢ fault.Read) × (f ≢ fault.Write) };

    fn from(fault: DeskFault) -> Fault {
        match fault {
            DeskFault::Memory => Fault::Memory,
            DeskFault::Settle => Fault::Settle,
        }
    }
}
