ghost use Rattle.std.specs.Prelude.{◌≡◌};

use crate::view::View;
use std::marker::Model;

/// A right to step on the claims of one table, for one thread at a time.
#[derive(Drop)]
pub struct Seat {
    pub(crate) inner: atomic_table::Seat<u64, View>,
    pub(crate) number: u64,
    pub(crate) budget: u64,
    pub(crate) held: Option<u64>,
    pub(crate) done: bool,
    pub(crate) given: u64,
}

impl Model for Seat {
    ghost use Rattle.ic_claim.specs.Seats.{SeatValue, IsSeat};

    ghost Value = { SeatValue };

    ghost view = { λ s. record { table = s.inner.table_id; view = s.inner.me.0 } };

    ghost invariant = { λ s. IsSeat s.number s.budget s.held s.done s.given s.inner.me };
}

impl Seat {
    /// The number of the seat: 0 of the first, and else a number that no other seat of the table has or had.
    pub fn number(&self) -> u64
        ensures { result ≡ self.now.view.number }
    {
        self.number
    }
}
