ghost use Rattle.std.specs.Prelude.{◌≡◌, IfErr, IfOk, OnOk};
ghost use Rattle.ic_path.specs.Orders.{Alike};
ghost use Rattle.ic_set.specs.Views.{standing};
ghost use Rattle.ic_journal.specs.Views.{set_of};
ghost use Rattle.ic_undo.specs.GoingBack.{IsBack, IsntBack};
ghost use Rattle.ic_undo.specs.Stood.{StoodAt};

use crate::among::{Differences, differences_among};
use crate::faults::{BackFault, Counts};
use crate::going_back::{NOTHING, back, go_over};
use crate::marks::Mark;
use ic_journal::{Bench, LinkStore};
use std::alloc::Global;

/// Goes back to a mark as `back` does. The mark was made after the first `since` lines of the history, so it looks only at
/// the lines after them. If these are more than the events that stand and those of the mark, it looks at the events.
pub fn back_since<L: LinkStore>(
    alloc: Global,
    bench: &mut Bench<L>,
    mark: &Mark,
    since: usize,
) -> Result<Counts, BackFault>
    requires start { mark.now.start ≡ bench.old.start }
    requires stood { StoodAt bench.old since mark.now }
    ensures back { IfOk result (λ counts. IsBack bench.old mark.now counts bench.new) }
    ensures stands { OnOk result (Alike mark.now.events (standing (set_of bench.new))) }
    ensures fault { IfErr result (λ fault. IsntBack bench.old mark.now fault bench.new) }
{
    bench.lawful();
    mark.lawful();
    let lines = (bench.lines() as usize).saturating_sub(since);
    if lines
        > bench
            .standing_count()
            .saturating_add(mark.event_count() as usize)
    {
        return back(alloc, bench, mark);
    }
    let Ok(leads) = bench.changed_leads_since(since) else {
        return Err(BackFault::Memory(NOTHING));
    };
    let Ok(Differences { outside, missing }) = differences_among(alloc, bench, mark, &leads) else {
        return Err(BackFault::Memory(NOTHING));
    };
    go_over(bench, mark, &outside, &missing)
}
