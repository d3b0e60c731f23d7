ghost use Rattle.std.specs.Prelude.{◌≡◌, ◌<◌, ◌↔◌, ℕ, IsTrue};
ghost use Rattle.ic_names.specs.Tables.{name_at};
ghost use Rattle.ic_roster.specs.Rosters.{event_in, IsNamed};

use ic_names::{KnownNames, NameTable};
use ic_roster::Interaction;

/// A table of names beside the names that were known at some time. It still has so many of them, from the first place on.
#[derive(Drop)]
pub(crate) struct NowAndThen<'a> {
    table: &'a NameTable,
    known: &'a KnownNames,
    same: usize,
    ghost same_names: { (k : ℕ) → k < same → name_at table.now k ≡ name_at known.now k },
}

impl<'a> NowAndThen<'a> {
    /// A table beside names that were known.
    pub fn of(table: &'a NameTable, known: &'a KnownNames) -> NowAndThen<'a>
        ensures table { result.table.now ≡ table.now }
        ensures known { result.known.now ≡ known.now }
    {
        NowAndThen {
            table,
            known,
            same: table.same_as(known),
        }
    }

    /// Whether the event of these names of now is that of those names of then. It takes no memory.
    pub fn is_event(&self, now: Interaction, then: Interaction) -> bool
        requires now { IsNamed self.now.table.now now }
        requires then { IsNamed self.now.known.now then }
        ensures { IsTrue result ↔ (event_in self.now.table.now now ≡ event_in self.now.known.now then) }
    {
        now.lead_kind == then.lead_kind
            && now.other_kind == then.other_kind
            && self
                .table
                .is_known(now.lead, self.known, then.lead, self.same)
            && self
                .table
                .is_known(now.other, self.known, then.other, self.same)
    }
}
