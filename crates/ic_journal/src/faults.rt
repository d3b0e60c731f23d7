ghost use Rattle.std.specs.Prelude.{◌≡◌};
ghost use Rattle.ic_journal.specs.Faults.{fire_number, pair_number, undo_number, reserve_number, propose_number};
ghost use Rattle.ic_journal.specs.Limits.{fault_of};

use ic_history::{Limit, Proposal};
use ic_name::{EventId, numbers};
use thiserror::Error;

/// Why an event isn't fired. If the call is no step of the machine, it hands the proposal back.
#[derive(Drop)]
pub enum FireFault {
    /// The history has as many lines as it may have.
    HistoryFull(Proposal),
    /// The two agents aren't there with these kinds, or no wire joins their principal ports.
    NotActive,
    /// The rule makes children, and the lead's name has as many digits as a name may have.
    Deep,
    /// With the children there would be more agents than there may be.
    Full,
    /// Memory ran out.
    Memory(Proposal),
}

/// Why an active pair isn't fired.
#[derive(Clone, Copy, Debug, PartialEq, Eq, Error)]
pub enum PairFault {
    /// The history has as many lines as it may have.
    #[error("the history has no room for a line more")]
    HistoryFull,
    /// The rule makes children, and the lead's name has as many digits as a name may have.
    #[error("the names of the children would have too many digits")]
    Deep,
    /// With the children there would be more agents than there may be.
    #[error("there would be too many agents")]
    Full,
    /// Memory ran out.
    #[error("memory ran out while firing")]
    Memory,
}

/// Why the firing of an event isn't undone.
#[derive(Clone, Copy, Debug, PartialEq, Eq, Error)]
pub enum UndoFault {
    /// The history has as many lines as it may have.
    #[error("the history has no room for a line more")]
    HistoryFull,
    /// No event stands that was fired in this line.
    #[error("no such event stands")]
    NotStanding,
    /// Other events depend on it directly; this is the least of them in canonical order.
    #[error("an event that stands depends on it")]
    Held(EventId),
    /// Memory ran out.
    #[error("memory ran out while undoing")]
    Memory,
}

/// Why no room is reserved.
#[derive(Clone, Copy, Debug, PartialEq, Eq, Error)]
pub enum ReserveFault {
    /// The history would have more lines than it may have.
    #[error("the history has no room for so many lines")]
    HistoryFull,
    /// Memory ran out.
    #[error("memory ran out while reserving room")]
    Memory,
}

/// Why two ids make no proposal.
#[derive(Clone, Copy, Debug, PartialEq, Eq, Error)]
pub enum ProposeFault {
    /// An id holds no agent any more, or both are one.
    #[error("the two ids are not those of two agents")]
    NotActive,
    /// Memory ran out.
    #[error("memory ran out while proposing")]
    Memory,
}

impl FireFault {
    /// The number of the refusal: 21 to 25.
    pub fn number(&self) -> u8
        ensures { result ≡ fire_number self.now }
    {
        match self {
            FireFault::HistoryFull(_) => numbers::HISTORY_FULL,
            FireFault::NotActive => numbers::NOT_ACTIVE,
            FireFault::Deep => numbers::DEEP,
            FireFault::Full => numbers::FULL,
            FireFault::Memory(_) => numbers::MEMORY,
        }
    }
}

impl PairFault {
    /// The answer if firing an active pair meets this limit.
    pub(crate) fn of(limit: Limit) -> PairFault
        ensures { result ≡ fault_of limit }
    {
        match limit {
            Limit::Deep => PairFault::Deep,
            Limit::Full => PairFault::Full,
        }
    }

    /// The number of the refusal: 22, 23, 24 or 25.
    pub fn number(self) -> u8
        ensures { result ≡ pair_number self }
    {
        match self {
            PairFault::HistoryFull => numbers::HISTORY_FULL,
            PairFault::Deep => numbers::DEEP,
            PairFault::Full => numbers::FULL,
            PairFault::Memory => numbers::MEMORY,
        }
    }
}

impl UndoFault {
    /// The number of the refusal: 24, 25, 31 or 32.
    pub fn number(self) -> u8
        ensures { result ≡ undo_number self }
    {
        match self {
            UndoFault::HistoryFull => numbers::HISTORY_FULL,
            UndoFault::NotStanding => numbers::NOT_STANDING,
            UndoFault::Held(_) => numbers::HELD,
            UndoFault::Memory => numbers::MEMORY,
        }
    }
}

impl ReserveFault {
    /// The number of the refusal: 24 or 25.
    pub fn number(self) -> u8
        ensures { result ≡ reserve_number self }
    {
        match self {
            ReserveFault::HistoryFull => numbers::HISTORY_FULL,
            ReserveFault::Memory => numbers::MEMORY,
        }
    }
}

impl ProposeFault {
    /// The number of the refusal: 21 or 25.
    pub fn number(self) -> u8
        ensures { result ≡ propose_number self }
    {
        match self {
            ProposeFault::NotActive => numbers::NOT_ACTIVE,
            ProposeFault::Memory => numbers::MEMORY,
        }
    }
}
