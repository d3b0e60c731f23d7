/// Which ports the annihilation of two gammas joins. That of two deltas is straight under either profile.
#[derive(Clone, Copy, Debug, PartialEq, Eq)]
pub enum Profile {
    /// Port 1 to port 2 and port 2 to port 1.
    Classic,
    /// Port 1 to port 1 and port 2 to port 2.
    Straight,
}

/// An end of a link that a rule makes: a port of a child, by the child's digit, or an auxiliary port of one of
/// the two agents that meet.
#[derive(Clone, Copy, Debug, PartialEq, Eq)]
pub enum RuleEnd {
    Child(u8, u8),
    Lead(u8),
    Other(u8),
}
