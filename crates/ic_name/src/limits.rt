/// The number of start agents of a net, at most; they are numbered from 0 on.
pub const MAX_START_AGENTS: usize = 65_535;

/// The digits of an agent's name, at most.
pub const MAX_DEPTH: usize = 16_383;

/// The agents of a start and of a standing set together, at most.
pub const MAX_AGENTS: usize = 262_144;

/// The lines of a history, at most.
pub const MAX_LINES: usize = 1_048_576;

/// Events that one call absorbs, at most.
pub const MAX_ABSORBED: usize = 131_072;
