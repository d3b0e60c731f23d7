use ic_journal::PairNote;
use ic_name::{Call, Reply};

/// A line of the history with its number, for the caller whose call it was.
#[derive(Drop)]
pub struct Receipt {
    pub number: u32,
    pub call: Call,
    pub reply: Reply,
}

/// A line of the history with its number, for the caller whose run of firings it is of. It tells the event by places of names,
/// so that none is copied.
#[derive(Clone, Copy)]
pub struct RunReceipt {
    pub number: u32,
    pub note: PairNote,
}
