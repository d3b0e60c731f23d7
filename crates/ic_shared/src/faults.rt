ghost use Rattle.std.specs.Prelude.{◌≡◌};
ghost use Rattle.ic_shared.specs.Faults.{settle_number};

use ic_journal::{Bench, Store};
use ic_name::numbers;

/// The bench, whose history is what all passes say, and how many lines were added while it was shared.
#[derive(Drop)]
pub struct Settled {
    pub bench: Bench<Store>,
    pub lines: u32,
}

/// Why the passes don't settle. The bench comes back.
#[derive(Drop)]
pub enum SettleFault {
    /// What the opening and the passes say of the history is false at this number.
    Mismatch(u32, Bench<Store>),
    /// There aren't as many passes as were given out.
    Missing(Bench<Store>),
}

impl SettleFault {
    /// The number of the refusal: 61 or 62.
    pub fn number(&self) -> u8
        ensures { result ≡ settle_number self.now }
    {
        match self {
            SettleFault::Mismatch(_, _) => numbers::MISMATCH,
            SettleFault::Missing(_) => numbers::MISSING,
        }
    }
}
