ghost use Rattle.std.specs.Prelude.{◌≡◌};
ghost use Rattle.ic_answer.specs.Texts.{refusal_number, refusal_text};

use ic_name::numbers;

/// The net has no such port. No call is refused so, only a question.
pub const NO_PORT: u8 = 26;

/// A refusal whose line is always the same.
#[derive(Clone, Copy, Debug, PartialEq, Eq)]
pub enum Refused {
    /// An event that isn't active.
    NotActive,
    /// Children whose names would have too many digits.
    Deep,
    /// More agents than there may be.
    Full,
    /// A history with as many lines as it may have.
    HistoryFull,
    /// No memory is left.
    Memory,
    /// No memory is left for a `reduce`, before anything is fired.
    MemoryBeforeReduce,
    /// No memory is left for a `back`, before anything is undone or fired.
    MemoryBeforeBack,
    /// A port that no agent of the net has, or a name that isn't free in it.
    NoPort,
    /// An event that doesn't stand.
    NotStanding,
    /// A line that is no command.
    Command,
    /// A name that no mark has.
    NoMark,
    /// A further mark if there are as many as there may be.
    TooManyMarks,
}

impl Refused {
    /// The number of the refusal, as calls have it.
    pub fn number(self) -> u8
        ensures { result ≡ refusal_number self }
    {
        match self {
            Refused::NotActive => numbers::NOT_ACTIVE,
            Refused::Deep => numbers::DEEP,
            Refused::Full => numbers::FULL,
            Refused::HistoryFull => numbers::HISTORY_FULL,
            Refused::Memory => numbers::MEMORY,
            Refused::MemoryBeforeReduce => numbers::MEMORY,
            Refused::MemoryBeforeBack => numbers::MEMORY,
            Refused::NoPort => NO_PORT,
            Refused::NotStanding => numbers::NOT_STANDING,
            Refused::Command => numbers::COMMAND,
            Refused::NoMark => numbers::NO_MARK,
            Refused::TooManyMarks => numbers::TOO_MANY_MARKS,
        }
    }

    /// The line that names it.
    pub fn line(self) -> &'static [u8]
        ensures { result.now ≡ refusal_text self }
    {
        match self {
            Refused::NotActive => b"refused 21 not active\n",
            Refused::Deep => b"refused 22 deep\n",
            Refused::Full => b"refused 23 full\n",
            Refused::HistoryFull => b"refused 24 history full\n",
            Refused::Memory => b"refused 25 memory\n",
            Refused::MemoryBeforeReduce => b"refused 25 memory after 0\n",
            Refused::MemoryBeforeBack => b"refused 25 memory after 0 undone 0 fired\n",
            Refused::NoPort => b"refused 26 port\n",
            Refused::NotStanding => b"refused 31 not standing\n",
            Refused::Command => b"refused 40 command\n",
            Refused::NoMark => b"refused 41 no mark\n",
            Refused::TooManyMarks => b"refused 42 too many marks\n",
        }
    }
}
