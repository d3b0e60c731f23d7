ghost use Rattle.std.specs.Prelude.{◌≡◌, ◌+◌, ◌<◌, ◌≤◌, ℕ, IfErr, IfOk, OnOk, length};
ghost use Rattle.ic_name.specs.declared.limits.TheConstants.{MAX_LINES};
ghost use Rattle.ic_path.specs.Orders.{Alike, IsIn};
ghost use Rattle.ic_set.specs.Orders.{AreInOrder};
ghost use Rattle.ic_set.specs.Views.{standing};
ghost use Rattle.ic_journal.specs.Views.{set_of};
ghost use Rattle.ic_undo.specs.GoingBack.{AreFirable, AreFired, AreMissingAt, AreSomeFired, IsBack, IsOutside, IsntBack, events_at};

use crate::backwards::undo_each;
use crate::faults::{BackFault, Counts};
use crate::marks::Mark;
use crate::missing::missing_events;
use crate::outside::outside_events;
use ic_journal::{Bench, LinkStore, PairFault, ReserveFault};
use ic_name::EventId;
use std::alloc::Global;

/// Nothing was undone, and nothing fired.
pub(crate) const NOTHING: Counts = Counts {
    undone: 0,
    fired: 0,
};

/// Goes back to a mark over the bench's start. It undoes the standing events that aren't in the mark, the last in canonical
/// order first, and then fires the events of the mark that don't stand, in canonical order. Afterwards exactly the mark's
/// events stand, and those that stood before keep their ids. Each undoing and each firing adds a line.
///
/// It answers `HistoryFull` exactly if a line for each of them doesn't fit into the history. Nothing has changed then, the
/// room included. `Memory` can come in place of any other answer. It tells how many events were undone and fired before
/// memory ran out, and these changes stay. The undoings take no memory, so it comes before all of them or after. Each line
/// takes at most one line of room.
pub fn back<L: LinkStore>(
    alloc: Global,
    bench: &mut Bench<L>,
    mark: &Mark,
) -> Result<Counts, BackFault>
    requires { mark.now.start ≡ bench.old.start }
    ensures back { IfOk result (λ counts. IsBack bench.old mark.now counts bench.new) }
    ensures stands { OnOk result (Alike mark.now.events (standing (set_of bench.new))) }
    ensures fault { IfErr result (λ fault. IsntBack bench.old mark.now fault bench.new) }
{
    bench.lawful();
    mark.lawful();
    let Ok(gone) = outside_events(alloc, bench, mark) else {
        return Err(BackFault::Memory(NOTHING));
    };
    let Ok(missing) = missing_events(alloc, bench, mark) else {
        return Err(BackFault::Memory(NOTHING));
    };
    go_over(bench, mark, &gone, &missing)
}

/// Undoes `gone`, the events that stand and aren't in the mark, the last one first. Then it fires the events of the mark that
/// don't stand, whose places are `missing`. Its answers are those of `back`.
pub(crate) fn go_over<L: LinkStore>(
    bench: &mut Bench<L>,
    mark: &Mark,
    gone: &[EventId],
    missing: &[u32],
) -> Result<Counts, BackFault>
    requires start { mark.now.start ≡ bench.old.start }
    requires outside { AreInOrder (set_of bench.old) (IsOutside mark.now) gone.now }
    requires missing { AreMissingAt bench.old mark.now missing.now }
    ensures back { IfOk result (λ counts. IsBack bench.old mark.now counts bench.new) }
    ensures stands { OnOk result (Alike mark.now.events (standing (set_of bench.new))) }
    ensures fault { IfErr result (λ fault. IsntBack bench.old mark.now fault bench.new) }
{
    bench.lawful();
    mark.lawful();
    match bench.reserve(gone.len() + missing.len()) {
        Ok(()) => {}
        Err(ReserveFault::HistoryFull) => return Err(BackFault::HistoryFull),
        Err(ReserveFault::Memory) => return Err(BackFault::Memory(NOTHING)),
    }
    bench.lawful();
    undo_each(bench, gone);
    bench.lawful();
    let undone = gone.len() as u32;
    match fire_each(bench, mark, missing) {
        Ok(fired) => Ok(Counts { undone, fired }),
        Err(fired) => Err(BackFault::Memory(Counts { undone, fired })),
    }
}

/// Fires the events at these places of the mark, the first one first, and answers how many they are; if memory runs out, how many
/// were fired.
fn fire_each<L: LinkStore>(bench: &mut Bench<L>, mark: &Mark, places: &[u32]) -> Result<u32, u32>
    requires within { (p : ℕ) → IsIn p places.now → p < length mark.now.events }
    requires firable { AreFirable bench.old.start (standing (set_of bench.old)) (events_at mark.now.events places.now) }
    requires fit { length bench.old.lines + length places.now ≤ MAX_LINES }
    ensures all { IfOk result (λ count. AreFired bench.old (events_at mark.now.events places.now) bench.new × (count ≡ length places.now)) }
    ensures some { IfErr result (λ count. AreSomeFired bench.old (events_at mark.now.events places.now) count bench.new) }
{
    let mut fired = 0;
    for place in places {
        bench.lawful();
        let Ok(event) = mark.event(*place) else {
            return Err(fired);
        };
        let Some(pair) = bench.pair_of(&event) else {
            unreachable!()
        };
        match bench.fire_pair(pair) {
            Ok(_) => fired += 1,
            Err(PairFault::Memory) => return Err(fired),
            Err(PairFault::Deep) => unreachable!(),
            Err(PairFault::Full) => unreachable!(),
            Err(PairFault::HistoryFull) => unreachable!(),
        }
    }
    Ok(fired)
}
