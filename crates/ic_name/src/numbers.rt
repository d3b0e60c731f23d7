// The numbers of refusals: one table for all calls and for sessions. The faults of a net text have 1 to 9, by `ic_text::grammar`.

/// A text names no agent.
pub const BAD_NAME: u8 = 11;

/// The event isn't active.
pub const NOT_ACTIVE: u8 = 21;

/// The names of the children would have too many digits.
pub const DEEP: u8 = 22;

/// There would be too many agents.
pub const FULL: u8 = 23;

/// The history would have too many lines.
pub const HISTORY_FULL: u8 = 24;

/// Memory ran out.
pub const MEMORY: u8 = 25;

/// No such event stands.
pub const NOT_STANDING: u8 = 31;

/// Another event rests on it.
pub const HELD: u8 = 32;

/// A line is no command.
pub const COMMAND: u8 = 40;

/// No mark has the name.
pub const NO_MARK: u8 = 41;

/// There are as many marks as there may be.
pub const TOO_MANY_MARKS: u8 = 42;

/// A listed event can't come to stand with what stands and what else is listed.
pub const NEVER_ACTIVE: u8 = 51;

/// What passes say isn't what the history says.
pub const MISMATCH: u8 = 61;

/// Passes are missing.
pub const MISSING: u8 = 62;

/// A list has more letters than it may have.
pub const TOO_MANY_LETTERS: u8 = 71;

/// A letter of a list isn't accepted.
pub const NOT_LEGAL: u8 = 72;
