/// How many passes a bench is shared among, at most.
pub const MAX_PASSES: usize = 64;
