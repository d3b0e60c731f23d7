ghost use Rattle.std.specs.Prelude.{◌≡◌, List, map, IfOk};
ghost use Rattle.ic_name.specs.Events.{pair};
ghost use Rattle.ic_name.specs.declared.ids.EventId.{EventId as AnEventId};
ghost use Rattle.ic_path.specs.Orders.{IsIn};
ghost use Rattle.ic_roster.specs.Rosters.{Stander};

use ic_name::{EventId, EventName};
use ic_roster::Roster;
use std::alloc::{AllocError, Global};

/// The names of the standing events under these ids.
pub(crate) fn names_of(
    alloc: Global,
    roster: &Roster,
    ids: &[EventId],
) -> Result<Vec<EventName>, AllocError>
    requires { (d : AnEventId) → IsIn d ids.now → (x : Stander) × IsIn x roster.now.events × (x.id ≡ d) }
    ensures { IfOk result (λ names. (xs : List Stander) × ((x : Stander) → IsIn x xs → IsIn x roster.now.events) × (map (λ x. x.id) xs ≡ ids.now) × (map (λ x. pair x.event) xs ≡ names.items)) }
{
    let mut names = Vec::with_capacity(alloc, ids.len())?;
    for id in ids {
        let Some(entry) = roster.event(*id) else {
            unreachable!()
        };
        let event = roster.read(entry.interaction)?;
        let name = event.name()?;
        names.push(name)?;
    }
    Ok(names)
}
