ghost use Rattle.std.specs.Prelude.{◌≡◌, [], IfErr, IfOk, OnOk};
ghost use Rattle.ic_journal.specs.Reads.{NoneStands};
ghost use Rattle.ic_set.specs.Orders.{IsAny};
ghost use Rattle.ic_undo.specs.Undone.{IsCleared, IsUnwound, RestsOn};
ghost use Rattle.ic_undo.specs.Unwinding.{ArentUndone, IsntUnwound};

use crate::backwards::{BackwardsFault, undo_back, undo_unnamed};
use crate::faults::{UndoAllFault, UnwindFault};
use crate::resting::resting_on;
use ic_journal::{Bench, LinkStore};
use ic_name::{EventId, EventName};
use std::alloc::Global;

/// Undoes an event with all events that depend on it, directly or through others. The last in canonical order is undone
/// first, and their names are answered in that order. Each undoing adds a line, and takes at most one line of room.
///
/// It answers `NotStanding` exactly if no standing event was fired in the line of the id, else `HistoryFull` exactly if a
/// line for each of them doesn't fit into the history. `Memory` can come in place of any other answer. A refused call
/// changes nothing but the room.
pub fn unwind<L: LinkStore>(
    alloc: Global,
    bench: &mut Bench<L>,
    id: EventId,
) -> Result<Vec<EventName>, UnwindFault>
    ensures stood { OnOk result (¬ (NoneStands bench.old id)) }
    ensures unwound { IfOk result (λ names. IsUnwound bench.old (RestsOn bench.old id.line) names.items bench.new) }
    ensures fault { IfErr result (λ fault. IsntUnwound bench.old id fault bench.new) }
{
    bench.lawful();
    if bench.rank(id).is_none() {
        return Err(UnwindFault::NotStanding);
    }
    let Ok(ids) = resting_on(alloc, bench, id) else {
        return Err(UnwindFault::Memory);
    };
    match undo_back(alloc, bench, &ids) {
        Ok(names) => Ok(names),
        Err(BackwardsFault::HistoryFull) => Err(UnwindFault::HistoryFull),
        Err(BackwardsFault::Memory) => Err(UnwindFault::Memory),
    }
}

/// Undoes all events, the last in canonical order first, and answers their names in that order. Afterwards the net is the
/// start's. Each undoing adds a line, and takes at most one line of room.
///
/// It answers `HistoryFull` exactly if a line for each of them doesn't fit into the history; nothing has changed then.
/// `Memory` can come in place of any other answer; nothing but the room has changed then.
pub fn undo_all<L: LinkStore>(
    alloc: Global,
    bench: &mut Bench<L>,
) -> Result<Vec<EventName>, UndoAllFault>
    ensures undone { IfOk result (λ names. IsUnwound bench.old IsAny names.items bench.new) }
    ensures nothing { OnOk result (bench.new.events ≡ []) }
    ensures fault { IfErr result (λ fault. ArentUndone bench.old fault bench.new) }
{
    bench.lawful();
    let Ok(ids) = bench.standing() else {
        return Err(UndoAllFault::Memory);
    };
    match undo_back(alloc, bench, &ids) {
        Ok(names) => Ok(names),
        Err(BackwardsFault::HistoryFull) => Err(UndoAllFault::HistoryFull),
        Err(BackwardsFault::Memory) => Err(UndoAllFault::Memory),
    }
}

/// Undoes all events as `undo_all` does, and answers how many they are. It takes no memory for their names.
///
/// It answers `HistoryFull` exactly if a line for each of them doesn't fit into the history; nothing has changed then.
/// `Memory` can come in place of any other answer; nothing but the room has changed then.
pub fn clear<L: LinkStore>(bench: &mut Bench<L>) -> Result<usize, UndoAllFault>
    ensures undone { IfOk result (λ count. IsCleared bench.old count bench.new) }
    ensures nothing { OnOk result (bench.new.events ≡ []) }
    ensures fault { IfErr result (λ fault. ArentUndone bench.old fault bench.new) }
{
    bench.lawful();
    let Ok(ids) = bench.standing() else {
        return Err(UndoAllFault::Memory);
    };
    match undo_unnamed(bench, &ids) {
        Ok(()) => Ok(ids.len()),
        Err(BackwardsFault::HistoryFull) => Err(UndoAllFault::HistoryFull),
        Err(BackwardsFault::Memory) => Err(UndoAllFault::Memory),
    }
}
