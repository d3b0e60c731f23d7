ghost use Rattle.std.specs.Prelude.{IfOk, OnOk};
ghost use Rattle.std.specs.BTreeSet.{contains};
ghost use Rattle.std.specs.Ordering.{nat_cmp};
ghost use Rattle.ic_path.specs.Rings.{HasEachOnce};
ghost use Rattle.ic_set.specs.Orders.{AreInOrder};
ghost use Rattle.ic_set.specs.Removal.{Stands};
ghost use Rattle.ic_journal.specs.Views.{set_of};
ghost use Rattle.ic_undo.specs.Resting.{IsRestingId, HaveLines, PutsBehind};
ghost use Rattle.ic_undo.specs.Undone.{RestsOn};

use ic_journal::{Bench, LinkStore};
use ic_name::EventId;
use std::alloc::{AllocError, Global};
use std::collections::BTreeSet;

/// The standing events that rest on the one whose firing is the line of the id, itself among them, in canonical order: those
/// that `unwind` takes back. It looks at these and at the direct dependents of each, however many others stand.
pub fn resting_on<L: LinkStore>(
    alloc: Global,
    bench: &Bench<L>,
    id: EventId,
) -> Result<Vec<EventId>, AllocError>
    ensures { IfOk result (λ ids. AreInOrder (set_of bench.now) (RestsOn bench.now id.line) ids.items) }
{
    bench.lawful();
    let Some(standing) = bench.standing_of(id.line) else {
        return Ok(Vec::new(alloc));
    };
    let ids = reached_from(alloc, bench, standing)?;
    bench.ordered(&ids)
}

/// The standing events that rest on this one, itself first, each once: they are reached from dependent to dependent.
fn reached_from<L: LinkStore>(
    alloc: Global,
    bench: &Bench<L>,
    id: EventId,
) -> Result<Vec<EventId>, AllocError>
    requires { Stands (set_of bench.now) id }
    ensures { IfOk result (λ ids. HasEachOnce (IsRestingId bench.now id.line) ids.items) }
{
    bench.lawful();
    let mut ids = Vec::new(alloc);
    let mut lines = BTreeSet::new(alloc);
    add_new(&mut ids, &mut lines, &[id])?;
    let mut next = 0;
    while next < ids.len() {
        let Some(dependents) = bench.dependents(ids[next])? else {
            unreachable!()
        };
        add_new(&mut ids, &mut lines, &dependents)?;
        next += 1;
    }
    Ok(ids)
}

/// Puts those of the others after the ids whose lines the ids don't have yet.
fn add_new(
    ids: &mut Vec<EventId>,
    lines: &mut BTreeSet<u32>,
    others: &[EventId],
) -> Result<(), AllocError>
    requires { HaveLines ids.old.items (contains nat_cmp lines.old) }
    ensures lines { OnOk result (HaveLines ids.new.items (contains nat_cmp lines.new)) }
    ensures put { OnOk result (PutsBehind ids.old.items others.now ids.new.items) }
{
    for other in others {
        if lines.insert(other.line)? {
            ids.push(*other)?;
        }
    }
    Ok(())
}
