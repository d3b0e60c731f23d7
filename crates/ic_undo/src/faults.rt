ghost use Rattle.std.specs.Prelude.{◌≡◌};
ghost use Rattle.ic_undo.specs.Faults.{absorb_number, back_number, undo_all_number, unwind_number};

use crate::obstacle::Obstacle;
use ic_name::{EventName, numbers};
use thiserror::Error;

/// Why an event isn't unwound.
#[derive(Clone, Copy, Debug, PartialEq, Eq, Error)]
pub enum UnwindFault {
    /// No event stands that was fired in the line of the id.
    #[error("no such event stands")]
    NotStanding,
    /// The history would have more lines than it may have.
    #[error("the history has no room for so many lines")]
    HistoryFull,
    /// Memory ran out.
    #[error("memory ran out while unwinding")]
    Memory,
}

/// Why not all events are undone.
#[derive(Clone, Copy, Debug, PartialEq, Eq, Error)]
pub enum UndoAllFault {
    /// The history would have more lines than it may have.
    #[error("the history has no room for so many lines")]
    HistoryFull,
    /// Memory ran out.
    #[error("memory ran out while undoing")]
    Memory,
}

/// How many events were undone, and how many were fired.
#[derive(Clone, Copy, Debug, PartialEq, Eq)]
pub struct Counts {
    pub undone: u32,
    pub fired: u32,
}

/// Why a bench isn't back at a mark.
#[derive(Clone, Copy, Debug, PartialEq, Eq, Error)]
pub enum BackFault {
    /// The history would have more lines than it may have.
    #[error("the history has no room for so many lines")]
    HistoryFull,
    /// Memory ran out, after so many undoings and firings.
    #[error("memory ran out while going back")]
    Memory(Counts),
}

/// Why listed events aren't absorbed. What stood before stands then, under the ids that it had.
#[derive(Drop)]
pub enum AbsorbFault {
    /// The least listed event that is in no sound set of the events that stood and those listed. The second part says what was
    /// in its way when no listed event could be fired any more, before the fired ones are undone.
    NeverActive(EventName, Obstacle),
    /// A listed event was active whose children's names would have too many digits.
    Deep,
    /// A listed event was active with which there would be too many agents.
    Full,
    /// The history would have more lines than it may have, with two for each listed event.
    HistoryFull,
    /// Memory ran out.
    Memory,
}

impl UnwindFault {
    /// The number of the refusal: 24, 25 or 31.
    pub fn number(self) -> u8
        ensures { result ≡ unwind_number self }
    {
        match self {
            UnwindFault::NotStanding => numbers::NOT_STANDING,
            UnwindFault::HistoryFull => numbers::HISTORY_FULL,
            UnwindFault::Memory => numbers::MEMORY,
        }
    }
}

impl UndoAllFault {
    /// The number of the refusal: 24 or 25.
    pub fn number(self) -> u8
        ensures { result ≡ undo_all_number self }
    {
        match self {
            UndoAllFault::HistoryFull => numbers::HISTORY_FULL,
            UndoAllFault::Memory => numbers::MEMORY,
        }
    }
}

impl BackFault {
    /// The number of the refusal: 24 or 25.
    pub fn number(self) -> u8
        ensures { result ≡ back_number self }
    {
        match self {
            BackFault::HistoryFull => numbers::HISTORY_FULL,
            BackFault::Memory(_) => numbers::MEMORY,
        }
    }
}

impl AbsorbFault {
    /// The number of the refusal: 22, 23, 24, 25 or 51.
    pub fn number(&self) -> u8
        ensures { result ≡ absorb_number self.now }
    {
        match self {
            AbsorbFault::NeverActive(_, _) => numbers::NEVER_ACTIVE,
            AbsorbFault::Deep => numbers::DEEP,
            AbsorbFault::Full => numbers::FULL,
            AbsorbFault::HistoryFull => numbers::HISTORY_FULL,
            AbsorbFault::Memory => numbers::MEMORY,
        }
    }
}
