/// How a session is run.
#[derive(Clone, Copy, Debug, PartialEq, Eq)]
pub struct Mode {
    /// The workers of a `reduce`.
    pub workers: u8,
    /// The events that a `reduce` fires, at most.
    pub budget: u32,
    /// Whether the session answers questions, and says on a second writer what was wrong with what it refused.
    pub explains: bool,
    /// Whether the session ends at the first command that it refuses.
    pub stops: bool,
    /// Whether each command stands before its answer.
    pub echoes: bool,
    /// Whether the session goes on with another net after one that was refused.
    pub retries: bool,
}
