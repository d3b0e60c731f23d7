ghost use Rattle.std.specs.Prelude.{◌≡◌, ◌<◌, ◌≤◌, [], length, Err, IfOk};
ghost use Rattle.ic_name.specs.declared.limits.TheConstants.{MAX_LINES};
ghost use Rattle.ic_theory.specs.Active.{IsActive};
ghost use Rattle.ic_journal.specs.Benches.{IsBench, Opens};
ghost use Rattle.ic_set.specs.Pairs.{Awakes};
ghost use Rattle.ic_set.specs.Cleared.{AreAll};
ghost use Rattle.ic_set.specs.Views.{standing};
ghost use Rattle.ic_journal.specs.Views.{set_of};
ghost use Rattle.ic_journal.specs.Calls.{id_answer, Fires, Undoes, Reserves};
ghost use Rattle.ic_journal.specs.Undone.{AreIdsOfFree, AreUndoneFrom};

use crate::faults::{FireFault, PairFault, ReserveFault, UndoFault};
use crate::standing::StandingSet;
use ic_history::{History, KeptLine, Proposal};
use ic_link::LinkStore;
use ic_name::EventId;
use ic_name::limits::MAX_LINES;
use ic_set::Fired;
use ic_start::Start;
use std::alloc::{AllocError, Global};
use std::marker::Model;

/// A bench over a start: what stands, and the history of the calls, over a store of links.
#[derive(Drop)]
pub struct Bench<L: LinkStore> {
    pub(crate) set: StandingSet<L>,
    pub(crate) history: History,
    pub(crate) alloc: Global,
}

impl<L: LinkStore> Model for Bench<L> {
    ghost use Rattle.ic_journal.specs.Views.{BenchView, view_of};
    ghost use Rattle.ic_journal.specs.Benches.{IsKept};

    ghost Value = { BenchView };

    ghost view = { λ b. view_of b.set b.history };

    ghost invariant = { λ b. IsKept b.set b.history };
}

impl<L: LinkStore> Bench<L> {
    /// A bench over the start. Nothing stands yet, and the history has no line and no room for one. If memory runs out, it
    /// is an error, and the start is gone.
    pub fn over(alloc: Global, start: Start) -> Result<Bench<L>, AllocError>
        ensures { IfOk result (λ bench. Opens start bench) }
    {
        let set = StandingSet::over(alloc, start)?;
        Ok(Bench {
            set,
            history: History::new(alloc),
            alloc,
        })
    }

    /// The invariant of every bench: its history is legal, what it shows is what stands after it,
    /// and the serial number of an agent tells the line of the firing that made it.
    pub fn lawful(&self)
        ensures { IsBench self.now }
    {
        self.set.bare().lawful();
    }

    /// The start.
    pub fn start(&self) -> &Start
        ensures { result.now ≡ self.now.start }
    {
        self.set.bare().start()
    }

    /// The history lines that are reserved and unused. It takes no memory.
    pub fn room(&self) -> usize
        ensures { result ≡ self.now.room }
    {
        self.history.room()
    }

    /// Reserves room for this many lines. It answers `HistoryFull` exactly if the history would have more than `MAX_LINES`
    /// lines with them. It answers `Memory` only if `room()` is less than that and no memory is left. At an error nothing
    /// changes.
    pub fn reserve(&mut self, lines: usize) -> Result<(), ReserveFault>
        ensures { Reserves self.old lines result self.new }
    {
        if lines > MAX_LINES - self.history.line_count() {
            return Err(ReserveFault::HistoryFull);
        }
        let Ok(()) = self.history.reserve(lines) else {
            return Err(ReserveFault::Memory);
        };
        Ok(())
    }

    /// Fires an event. This is one step of the machine and adds a line to the history. At `Ok` the event stands from then
    /// on under this id.
    ///
    /// The refusals, in their order: `HistoryFull` if the history has `MAX_LINES` lines; then `NotActive`, `Deep` and
    /// `Full`, each exactly if the machine says so. `Memory` can come in place of any answer but `HistoryFull`. These two
    /// add no line and hand the proposal back. A refused call changes nothing that stands.
    pub fn fire(&mut self, proposal: Proposal) -> Result<EventId, FireFault>
        ensures { Fires self.old proposal result self.new }
    {
        match self.fire_proposal(proposal) {
            Ok(fired) => Ok(fired.id),
            Err(fault) => Err(fault),
        }
    }

    /// Fires an event as `fire` does. The answer has the event's id and the pairs that became active by it.
    pub fn fire_proposal(&mut self, proposal: Proposal) -> Result<Fired, FireFault>
        ensures fires { Fires self.old proposal (id_answer result) self.new }
        ensures awoken { IfOk result (λ fired. Awakes (set_of self.old) (set_of self.new) fired.awoken) }
    {
        let line = self.history.line_count();
        if line == MAX_LINES {
            return Err(FireFault::HistoryFull(proposal));
        }
        let Some(pair) = self.set.bare().active_pair(proposal.event()) else {
            return Err(self.note_not_active(proposal));
        };
        match self.fire_pair(pair) {
            Ok(fired) => Ok(fired),
            Err(PairFault::HistoryFull) => Err(FireFault::HistoryFull(proposal)),
            Err(PairFault::Deep) => Err(FireFault::Deep),
            Err(PairFault::Full) => Err(FireFault::Full),
            Err(PairFault::Memory) => Err(FireFault::Memory(proposal)),
        }
    }

    /// Notes that the event of a proposal isn't active, and answers so: one step of the machine. `Memory` adds no line and
    /// hands the proposal back.
    fn note_not_active(&mut self, proposal: Proposal) -> FireFault
        requires short { length self.old.lines < MAX_LINES }
        requires inactive { ¬ (IsActive self.old.start (standing (set_of self.old)) proposal) }
        ensures { Fires self.old proposal (Err result) self.new }
    {
        let Ok(()) = self.history.reserve(1) else {
            return FireFault::Memory(proposal);
        };
        match self.history.note_not_active(proposal) {
            Ok(()) => FireFault::NotActive,
            Err(proposal) => FireFault::Memory(proposal),
        }
    }

    /// Undoes the event that was fired in the line of the id. This is one step of the machine and adds a line to the
    /// history. The slot of the id doesn't matter.
    ///
    /// The refusals, in their order: `HistoryFull` if the history has `MAX_LINES` lines; then `NotStanding`, and `Held`
    /// with the least direct dependent in canonical order, each exactly if the machine says so. With room for a line the
    /// call takes no memory. Without, `Memory` can come in place of any answer but `HistoryFull`. A refused call changes
    /// nothing that stands.
    pub fn undo(&mut self, id: EventId) -> Result<(), UndoFault>
        ensures { Undoes self.old id result self.new }
    {
        if self.history.line_count() == MAX_LINES {
            return Err(UndoFault::HistoryFull);
        }
        let Ok(()) = self.history.reserve(1) else {
            return Err(UndoFault::Memory);
        };
        let Some(standing) = self.standing_of(id.line) else {
            self.history.note(KeptLine::NotStanding(id.line));
            return Err(UndoFault::NotStanding);
        };
        match self.set.bare().least_dependent(standing) {
            Some(holder) => {
                self.history.note(KeptLine::Held {
                    line: id.line,
                    by: holder.line,
                });
                Err(UndoFault::Held(holder))
            }
            None => {
                self.set.take_out(standing);
                self.history.note(KeptLine::Undone(id.line));
                Ok(())
            }
        }
    }

    /// Undoes all events. `ids` lists them, each before those that depend on it, and the last one is undone first. Each
    /// undoing is one step of the machine and adds a line. Afterwards nothing stands, and the net is the start's. It takes
    /// no memory. For many events it takes less time than an `undo` for each, but it looks at every slot that ever had an
    /// event.
    pub fn clear(&mut self, ids: &[EventId])
        requires free { AreIdsOfFree self.old ids.now }
        requires all { AreAll (set_of self.old) ids.now }
        requires room { length ids.now ≤ self.old.room }
        ensures undone { AreUndoneFrom self.old ids.now self.new }
        ensures nothing { self.new.events ≡ [] }
    {
        self.lawful();
        self.set.clear(ids);
        self.history.note_undone(ids);
    }
}
