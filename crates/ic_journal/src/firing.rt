ghost use Rattle.std.specs.Prelude.{◌≡◌, ◌≤◌, None, Ok, IfOk, OnErr};
ghost use Rattle.ic_name.specs.Events.{Event as AnEvent};
ghost use Rattle.ic_set.specs.Pairs.{IsActivePair, IsPairOf};
ghost use Rattle.ic_journal.specs.Calls.{awoken_answer, FiresPair, Stays};
ghost use Rattle.ic_journal.specs.Limits.{Meets};
ghost use Rattle.ic_journal.specs.Views.{set_of};
ghost use Rattle.ic_roster.specs.Rosters.{event_in, IsNamed};

use crate::bench::Bench;
use crate::faults::PairFault;
use crate::limit::limit_of;
use ic_history::KeptLine;
use ic_link::LinkStore;
use ic_name::EventId;
use ic_name::limits::MAX_LINES;
use ic_roster::Interaction;
use ic_set::{ActivePair, Fired};
use std::alloc::AllocError;

impl<L: LinkStore> Bench<L> {
    /// Fires an active pair as `fire` fires the proposal of its agents, but makes and looks up no name. This is one step of
    /// the machine and adds a line to the history. At `Ok` the event stands from then on under this id, and the pairs are
    /// those that became active by it.
    ///
    /// The refusals, in their order: `HistoryFull` if the history has `MAX_LINES` lines; then `Deep` and `Full`, each
    /// exactly if the machine says so. `Memory` can come in place of any answer but `HistoryFull`. These two add no line. A
    /// refused call changes nothing that stands.
    pub fn fire_pair(&mut self, pair: ActivePair) -> Result<Fired, PairFault>
        requires { IsActivePair (set_of self.old) pair }
        ensures { (e : AnEvent) → IsPairOf (set_of self.old) e pair → FiresPair self.old e result self.new }
    {
        let mut awoken = [None; 4];
        match self.fire_pair_into(pair, &mut awoken) {
            Ok(id) => Ok(Fired { id, awoken }),
            Err(fault) => Err(fault),
        }
    }

    /// Fires an active pair as `fire_pair` does. The pairs that became active by it are written into `awoken`.
    pub(crate) fn fire_pair_into(
        &mut self,
        pair: ActivePair,
        awoken: &mut [Option<ActivePair>; 4],
    ) -> Result<EventId, PairFault>
        requires { IsActivePair (set_of self.old) pair }
        ensures { (e : AnEvent) → IsPairOf (set_of self.old) e pair → FiresPair self.old e (awoken_answer result awoken.new) self.new }
    {
        let line = self.history.line_count();
        if line == MAX_LINES {
            return Err(PairFault::HistoryFull);
        }
        let Ok(()) = self.history.reserve(1) else {
            return Err(PairFault::Memory);
        };
        let set = self.set.bare();
        let event = set.interaction_of(pair);
        if let Some(limit) = limit_of(set, event) {
            self.history.note(KeptLine::limited(limit, event));
            return Err(PairFault::of(limit));
        }
        match self.admit_noted(pair, event, awoken) {
            Ok(id) => Ok(id),
            Err(_) => Err(PairFault::Memory),
        }
    }

    /// Admits an active pair that meets no limit, and notes the line of its event's firing. There is room for the line. The
    /// pairs that became active by it are written into `awoken`. An error means that memory ran out; no line was added then,
    /// and nothing that stands changed.
    fn admit_noted(
        &mut self,
        pair: ActivePair,
        event: Interaction,
        awoken: &mut [Option<ActivePair>; 4],
    ) -> Result<EventId, AllocError>
        requires room { 1 ≤ self.old.room }
        requires active { (e : AnEvent) × IsPairOf (set_of self.old) e pair × Meets (set_of self.old) e None }
        requires named { IsNamed self.old.names event }
        requires event { (e : AnEvent) → IsPairOf (set_of self.old) e pair → event_in self.old.names event ≡ e }
        ensures fired { IfOk result (λ id. (e : AnEvent) → IsPairOf (set_of self.old) e pair → FiresPair self.old e (Ok (record { id = id; awoken = awoken.new })) self.new) }
        ensures wanting { OnErr result (Stays self.old self.new) }
    {
        let set = self.set.bare();
        set.lawful();
        let line = self.history.line_count();
        let id = self.set.admit(pair, event, line as u32, awoken)?;
        self.history.note(KeptLine::fired(event));
        Ok(id)
    }
}
