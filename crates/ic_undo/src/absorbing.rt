ghost use Rattle.std.specs.Prelude.{◌≡◌, ◌≤◌, length, IfErr, IfOk};
ghost use Rattle.ic_undo.specs.Absorbing.{Absorbs, AbsorbsNone};
ghost use Rattle.ic_journal.specs.Undone.{AreIdsOfFree, AreUndoneFrom};
ghost use Rattle.ic_undo.specs.Coming.{fault_from};

use crate::backwards::undo_each;
use crate::faults::AbsorbFault;
use crate::obstacle::obstacle_of;
use crate::turns::{Hindrance, Stop, Turns, fire_listed};
use ic_journal::{Bench, LinkStore, ReserveFault};
use ic_name::limits::MAX_LINES;
use ic_name::{EventId, EventName};
use std::alloc::Global;

/// Fires the listed events that don't stand. Each time it takes the active one with the least lead. Afterwards all of them
/// stand, whatever the order of the list, and the answer is how many were fired. A listed event that stands already, or is
/// listed twice, isn't fired again. For K listed events it takes time in proportion to K log K, and K firings at most.
///
/// `HistoryFull` comes before anything else, exactly if the history would be too long with two lines for each listed event.
/// `Deep`, `Full` and `Memory` come if a firing is answered so, and `Memory` also if memory runs out elsewhere. `NeverActive`
/// comes if a listed event is in no sound set of the events that stood and those listed. It tells the least such name, and
/// what is in its way. At each of these errors, the events that were fired are undone, the last first. That takes no memory.
pub fn absorb<L: LinkStore>(
    alloc: Global,
    bench: &mut Bench<L>,
    events: &[EventName],
) -> Result<u32, AbsorbFault>
    ensures absorbed { IfOk result (λ count. Absorbs bench.old events.now count bench.new) }
    ensures fault { IfErr result (λ fault. AbsorbsNone bench.old events.now fault bench.new) }
{
    bench.lawful();
    if events.len() > MAX_LINES {
        return Err(AbsorbFault::HistoryFull);
    }
    match bench.reserve(2 * events.len()) {
        Ok(()) => {}
        Err(ReserveFault::HistoryFull) => return Err(AbsorbFault::HistoryFull),
        Err(ReserveFault::Memory) => return Err(AbsorbFault::Memory),
    }
    bench.lawful();
    let fired = fire_listed(alloc, bench, events);
    bench.lawful();
    match fired {
        Ok(turns) => {
            let Turns { ids, mut missing } = turns;
            let Some(name) = missing.pop_first() else {
                return Ok(ids.len() as u32);
            };
            let obstacle = obstacle_of(bench, &name);
            take_back(bench, ids);
            bench.lawful();
            Err(AbsorbFault::NeverActive(name, obstacle))
        }
        Err(stop) => {
            let Stop { ids, why } = stop;
            take_back(bench, ids);
            bench.lawful();
            Err(fault_of(why))
        }
    }
}

/// Undoes all that was fired, the last event first. It takes no memory.
fn take_back<L: LinkStore>(bench: &mut Bench<L>, ids: Vec<EventId>)
    requires free { AreIdsOfFree bench.old ids.items }
    requires room { length ids.items ≤ bench.old.room }
    ensures { AreUndoneFrom bench.old ids.items bench.new }
{
    undo_each(bench, &ids);
}

/// The fault that a hindrance is.
fn fault_of(why: Hindrance) -> AbsorbFault
    ensures { result ≡ fault_from why }
{
    match why {
        Hindrance::Deep => AbsorbFault::Deep,
        Hindrance::Full => AbsorbFault::Full,
        Hindrance::Memory => AbsorbFault::Memory,
    }
}
