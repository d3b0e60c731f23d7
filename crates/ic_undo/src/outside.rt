ghost use Rattle.std.specs.Prelude.{◌≡◌, ◌↔◌, IsTrue, IfOk};
ghost use Rattle.ic_path.specs.Orders.{IsIn};
ghost use Rattle.ic_roster.specs.Rosters.{Stander};
ghost use Rattle.ic_set.specs.Orders.{AreInOrder};
ghost use Rattle.ic_journal.specs.Reads.{StandsIn};
ghost use Rattle.ic_journal.specs.Views.{set_of};
ghost use Rattle.ic_undo.specs.GoingBack.{IsOutside};

use crate::marks::Mark;
use ic_journal::{Bench, LinkStore};
use ic_name::EventId;
use std::alloc::{AllocError, Global};

/// The standing events that aren't in the mark, in canonical order.
pub(crate) fn outside_events<L: LinkStore>(
    alloc: Global,
    bench: &Bench<L>,
    mark: &Mark,
) -> Result<Vec<EventId>, AllocError>
    requires { mark.now.start ≡ bench.now.start }
    ensures { IfOk result (λ ids. AreInOrder (set_of bench.now) (IsOutside mark.now) ids.items) }
{
    bench.lawful();
    let events = bench.standing()?;
    let mut ids = Vec::new(alloc);
    for event in &events {
        if is_in(bench, mark, *event)? {
            continue;
        }
        ids.push(*event)?;
    }
    Ok(ids)
}

/// Whether a standing event is in the mark.
fn is_in<L: LinkStore>(bench: &Bench<L>, mark: &Mark, id: EventId) -> Result<bool, AllocError>
    requires start { mark.now.start ≡ bench.now.start }
    requires stands { (x : Stander) × StandsIn bench.now id x }
    ensures { IfOk result (λ inside. (x : Stander) → StandsIn bench.now id x → IsTrue inside ↔ IsIn x.event mark.now.events) }
{
    bench.lawful();
    mark.lawful();
    let Some(event) = bench.event_of(id)? else {
        unreachable!()
    };
    Ok(mark.place_of(event.lead()).is_some())
}
