ghost use Rattle.std.specs.Prelude.{◌≡◌, ◌<◌, ◌↔◌, ℕ, List, All, IfOk, length};
ghost use Rattle.std.specs.List.Sorted.{IsStrictlySortedBy};
ghost use Rattle.std.specs.Ordering.{nat_cmp};
ghost use Rattle.ic_name.specs.Events.{Event as AnEvent};
ghost use Rattle.ic_name.specs.declared.ids.EventId.{EventId as AnEventId};
ghost use Rattle.ic_path.specs.Orders.{IsIn, Pick};
ghost use Rattle.ic_roster.specs.Rosters.{Stander};
ghost use Rattle.ic_set.specs.Orders.{AreInOrder};
ghost use Rattle.ic_journal.specs.Views.{set_of};
ghost use Rattle.ic_undo.specs.GoingBack.{AreMissingAt, IsMissing, IsOutside};
ghost use Rattle.ic_undo.specs.Among.{AreMissingPlaces, AreOutsideIds, names_at};

use crate::marks::Mark;
use ic_journal::{Bench, LinkStore};
use ic_name::EventId;
use ic_names::NameId;
use std::alloc::{AllocError, Global};

/// The ids of standing events that aren't in a mark, and the places in it of its events that don't stand.
#[derive(Drop)]
pub(crate) struct Differences {
    pub outside: Vec<EventId>,
    pub missing: Vec<u32>,
}

/// The differences from the mark, when each of these events has its lead among the agents whose names are at these places. Both
/// are in canonical order, and each is there once.
pub(crate) fn differences_among<L: LinkStore>(
    alloc: Global,
    bench: &Bench<L>,
    mark: &Mark,
    leads: &[NameId],
) -> Result<Differences, AllocError>
    requires start { mark.now.start ≡ bench.now.start }
    requires inside { All (λ a. a.place < length bench.now.names) leads.now }
    requires outside { (x : Stander) → IsIn x bench.now.events → IsOutside mark.now x → IsIn x.event.lead (names_at bench.now.names leads.now) }
    requires missing { (e : AnEvent) → IsMissing bench.now mark.now e → IsIn e.lead (names_at bench.now.names leads.now) }
    ensures outside { IfOk result (λ differences. AreInOrder (set_of bench.now) (IsOutside mark.now) differences.outside.items) }
    ensures missing { IfOk result (λ differences. AreMissingAt bench.now mark.now differences.missing.items) }
{
    bench.lawful();
    mark.lawful();
    let found = find_among(alloc, bench, mark, leads)?;
    let Differences {
        mut outside,
        mut missing,
    } = found;
    drop_repeats(&mut outside);
    put_in_order(&mut missing);
    let outside = bench.ordered(&outside)?;
    Ok(Differences { outside, missing })
}

/// Finds the differences from the mark by the places of the names of these leads. Each is looked up in the bench and in the
/// mark once. One that several leads tell may come several times.
fn find_among<L: LinkStore>(
    alloc: Global,
    bench: &Bench<L>,
    mark: &Mark,
    leads: &[NameId],
) -> Result<Differences, AllocError>
    requires start { mark.now.start ≡ bench.now.start }
    requires inside { All (λ a. a.place < length bench.now.names) leads.now }
    ensures outside { IfOk result (λ found. AreOutsideIds bench.now mark.now (names_at bench.now.names leads.now) found.outside.items) }
    ensures missing { IfOk result (λ found. AreMissingPlaces bench.now mark.now (names_at bench.now.names leads.now) found.missing.items) }
{
    bench.lawful();
    mark.lawful();
    let mut outside = Vec::with_capacity(alloc, leads.len())?;
    let mut missing = Vec::with_capacity(alloc, leads.len())?;
    for lead in leads {
        let standing = bench.event_led_at(*lead);
        match mark.place_at(bench.known_names(), *lead)? {
            Some(place) => {
                if standing.is_none() {
                    missing.push(place)?;
                }
            }
            None => {
                if let Some(id) = standing {
                    outside.push(id)?;
                }
            }
        }
    }
    Ok(Differences { outside, missing })
}

/// Leaves each of the ids once. It takes no memory.
fn drop_repeats(ids: &mut Vec<EventId>)
    ensures same { (d : AnEventId) → IsIn d ids.new.items ↔ IsIn d ids.old.items }
    ensures once { (d : AnEventId) (rest : List AnEventId) → Pick d ids.new.items rest → IsIn d rest → ⊥ }
{
    ids.sort_unstable();
    ids.dedup();
}

/// Puts the places in order and leaves each once. It takes no memory.
fn put_in_order(places: &mut Vec<u32>)
    ensures same { (p : ℕ) → IsIn p places.new.items ↔ IsIn p places.old.items }
    ensures ordered { IsStrictlySortedBy nat_cmp places.new.items }
{
    places.sort_unstable();
    places.dedup();
}
