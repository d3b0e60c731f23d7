/// The bytes of a text, at most.
pub const MAX_TEXT: usize = 1_048_576;

/// The names of a text that occur once, at most.
pub const MAX_FREE_NAMES: usize = 1_024;

/// The bytes of a name, at most.
pub const MAX_NAME: usize = 32;

/// The symbols round a symbol and the symbol itself, at most.
pub const MAX_NESTING: usize = 256;
