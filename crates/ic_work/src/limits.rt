/// How many events a worker fires under one lock, at most.
pub(crate) const MOST: usize = 4096;

/// How many leads a block of first hints has, at most. It is odd.
pub(crate) const BLOCK: usize = 63;

/// After how many firings, each of a pair that the one before made active, a run goes on with its other hints.
pub(crate) const IN_A_ROW: u32 = 16;

/// After how many busy hints in a row, its own or stolen, a worker looks at those of others before its own. If it has fewer
/// hints, it does so after as many as it has.
pub(crate) const BUSY_BEFORE_OTHERS: usize = 4;

/// How many busy hints in a row a worker passes by; at the next one it goes home. They stay among its own, and others find
/// them there.
pub(crate) const MAX_BUSY: u32 = 16;
