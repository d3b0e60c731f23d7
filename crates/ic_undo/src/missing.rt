ghost use Rattle.std.specs.Prelude.{◌≡◌, ◌↔◌, IsTrue, IfOk};
ghost use Rattle.ic_path.specs.Orders.{IsIn};
ghost use Rattle.ic_roster.specs.Rosters.{Stander};
ghost use Rattle.ic_undo.specs.GoingBack.{AreMissingAt};

use crate::marks::Mark;
use ic_journal::{Bench, LinkStore};
use ic_name::Event;
use std::alloc::{AllocError, Global};

/// The places of the mark's events that don't stand, in canonical order.
pub(crate) fn missing_events<L: LinkStore>(
    alloc: Global,
    bench: &Bench<L>,
    mark: &Mark,
) -> Result<Vec<u32>, AllocError>
    requires { mark.now.start ≡ bench.now.start }
    ensures { IfOk result (λ places. AreMissingAt bench.now mark.now places.items) }
{
    bench.lawful();
    mark.lawful();
    let mut missing = Vec::new(alloc);
    for place in 0..mark.event_count() {
        let event = mark.event(place)?;
        if stands(bench, &event) {
            continue;
        }
        missing.push(place)?;
    }
    Ok(missing)
}

/// Whether an event of this lead stands. It takes no memory.
pub(crate) fn stands<L: LinkStore>(bench: &Bench<L>, event: &Event) -> bool
    ensures { IsTrue result ↔ ((x : Stander) × IsIn x bench.now.events × (x.event.lead ≡ event.now.lead)) }
{
    bench.event_led_by(event.lead()).is_some()
}
