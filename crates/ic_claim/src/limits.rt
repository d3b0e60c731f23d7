/// How many claim words there are; they are numbered from 0 on.
pub const CLAIM_WORDS: u64 = 1_024;

/// How many tickets there are, at most.
pub const MAX_BUDGET: u32 = 1_048_576;

/// How many seats there are, at most; they are numbered from 0 on.
pub const MAX_SEATS: u64 = 64;

/// How many workers there are, at most, each with a seat of its own.
pub const MAX_WORKERS: u32 = 64;

/// Where the stop word stands in the table: first, since a split or a join loads the first word.
pub(crate) const STOP_PLACE: usize = 0;

/// Where the ticket word stands in the table.
pub(crate) const TICKET_PLACE: usize = 1;

/// Where the claim words begin in the table.
pub(crate) const FIRST_CLAIM_PLACE: usize = 2;

/// How many words the table has.
pub(crate) const PLACES: usize = 1_026;
