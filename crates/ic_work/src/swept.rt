ghost use Rattle.std.specs.Prelude.{◌≡◌};
ghost use Rattle.ic_work.specs.Faults.{sweep_number};

use ic_journal::{Bench, End, Store};
use ic_name::numbers;
use ic_shared::SettleFault;

/// What a sweep leaves.
#[derive(Drop)]
pub struct Swept {
    /// The bench, swept.
    pub bench: Bench<Store>,
    /// How many events were fired.
    pub fired: u32,
    /// Why no more were.
    pub end: End,
    /// How many workers ran. One whose thread can't be started is left out.
    pub ran: u32,
}

/// Why there is no sweep. The bench comes back.
#[derive(Drop)]
pub enum SweepFault {
    /// Memory ran out before any firing; the bench is as it was.
    Memory(Bench<Store>),
    /// What the workers say that they did isn't what the history says.
    Settle(SettleFault),
}

impl SweepFault {
    /// The number of the refusal: 25, or that of the settle fault, 61 or 62.
    pub fn number(&self) -> u8
        ensures { result ≡ sweep_number self.now }
    {
        match self {
            SweepFault::Memory(_) => numbers::MEMORY,
            SweepFault::Settle(fault) => fault.number(),
        }
    }
}
