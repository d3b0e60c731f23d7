ghost use Rattle.std.specs.Prelude.{◌≡◌};
ghost use Rattle.ic_program.specs.Statuses.{fault_line, fault_status, session_status};

use ic_session::{Fault, Status};

/// The session ended, or the help was written.
pub const ENDED: u8 = 0;

/// Reading or writing failed.
pub const BROKEN: u8 = 1;

/// The net was refused.
pub const NET_REFUSED: u8 = 2;

/// There was no memory.
pub const NO_MEMORY: u8 = 3;

/// What workers say that they did isn't what the history says.
pub const UNSETTLED: u8 = 4;

/// A command was refused, and the session stopped there.
pub const STOPPED: u8 = 5;

/// The command line was refused.
pub const USAGE: u8 = 64;

/// The exit status of a session.
pub fn session_status(status: Status) -> u8
    ensures { result ≡ session_status status }
{
    match status {
        Status::Ended => ENDED,
        Status::Stopped => STOPPED,
        Status::NetRefused => NET_REFUSED,
    }
}

/// The exit status of a fault.
pub fn fault_status(fault: Fault) -> u8
    ensures { result ≡ fault_status fault }
{
    match fault {
        Fault::Read | Fault::Write => BROKEN,
        Fault::Memory => NO_MEMORY,
        Fault::Settle => UNSETTLED,
    }
}

/// What is said of a fault.
pub fn fault_line(fault: Fault) -> &'static str
    ensures { result.now ≡ fault_line fault }
{
    match fault {
        Fault::Read => "icbench: read failed\n",
        Fault::Write => "icbench: write failed\n",
        Fault::Memory => "icbench: no memory\n",
        Fault::Settle => "icbench: settle failed\n",
    }
}
