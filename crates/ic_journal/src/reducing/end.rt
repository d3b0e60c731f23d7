/// Why a reduction fires no more events.
#[derive(Clone, Copy, Debug, PartialEq, Eq)]
pub enum End {
    /// No pair is active.
    Normal,
    /// As many were fired as were asked for, and a pair is active still.
    Budget,
    /// The firing of the active pair with the least lead meets a limit.
    Limit,
    /// Memory ran out, and a pair is active still.
    Memory,
}
