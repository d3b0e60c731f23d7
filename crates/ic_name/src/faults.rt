ghost use Rattle.std.specs.Prelude.{◌≡◌};
ghost use Rattle.ic_name.specs.Faults.{child_number, name_number};

use crate::limits::MAX_DEPTH;
use crate::numbers;
use thiserror::Error;

/// Why an agent's child has no name.
#[derive(Clone, Copy, Debug, PartialEq, Eq, Error)]
pub enum ChildFault {
    /// The name has as many digits as a name may have.
    #[error("the agent's name has {max} digits, and no name has more", max = MAX_DEPTH)]
    Deep,
    /// Memory ran out.
    #[error("memory ran out while naming a child")]
    Memory,
}

/// Why a text is not read as the name of an agent.
#[derive(Clone, Copy, Debug, PartialEq, Eq, Error)]
pub enum NameFault {
    /// No name is written so. It holds the offset of the first byte with which the text begins no name, or the length
    /// of a text that breaks off.
    #[error("byte {0}: expected an agent's name, a number up to 65534 and then any number of .0, .1, .2 or .3")]
    BadName(usize),
    /// The text is that of a name, but it has more digits than a name may have.
    #[error("the agent's name has more than {max} digits", max = MAX_DEPTH)]
    Deep,
    /// Memory ran out.
    #[error("memory ran out while reading a name")]
    Memory,
}

impl ChildFault {
    /// The number of the fault: 22 or 25.
    pub fn number(self) -> u8
        ensures { result ≡ child_number self }
    {
        match self {
            ChildFault::Deep => numbers::DEEP,
            ChildFault::Memory => numbers::MEMORY,
        }
    }
}

impl NameFault {
    /// The number of the fault: 11, 22 or 25.
    pub fn number(self) -> u8
        ensures { result ≡ name_number self }
    {
        match self {
            NameFault::BadName(_) => numbers::BAD_NAME,
            NameFault::Deep => numbers::DEEP,
            NameFault::Memory => numbers::MEMORY,
        }
    }
}
