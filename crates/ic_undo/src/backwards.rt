ghost use Rattle.std.specs.Prelude.{◌≡◌, ◌≤◌, List, length, map, reverse, IfErr, IfOk, OnOk};
ghost use Rattle.ic_name.specs.Events.{pair};
ghost use Rattle.ic_path.specs.Orders.{IsIn};
ghost use Rattle.ic_roster.specs.Rosters.{Stander};
ghost use Rattle.ic_journal.specs.Reads.{StandsIn};
ghost use Rattle.ic_journal.specs.Undone.{AreIdsOfFree, AreUndoneFrom};
ghost use Rattle.ic_undo.specs.Backwards.{AreUndoneBack, ArentUndoneBack};

use ic_journal::{Bench, LinkStore, ReserveFault};
use ic_name::{EventId, EventName};
use std::alloc::{AllocError, Global};

/// So many events are undone at once: for fewer, a look at every slot that ever had an event may cost more than they do.
const MANY: usize = 256;

/// Why events aren't undone.
#[derive(Clone, Copy)]
pub(crate) enum BackwardsFault {
    HistoryFull,
    Memory,
}

/// Undoes these events, the last one first, and answers their names in that order. The names are made, and the room is
/// reserved, before the first of them is undone.
pub(crate) fn undo_back<L: LinkStore>(
    alloc: Global,
    bench: &mut Bench<L>,
    ids: &[EventId],
) -> Result<Vec<EventName>, BackwardsFault>
    requires { AreIdsOfFree bench.old ids.now }
    ensures undone { IfOk result (λ names. AreUndoneBack bench.old ids.now names.items bench.new) }
    ensures fault { IfErr result (λ fault. ArentUndoneBack bench.old ids.now fault bench.new) }
{
    bench.lawful();
    let Ok(names) = names_backwards(alloc, bench, ids) else {
        return Err(BackwardsFault::Memory);
    };
    undo_unnamed(bench, ids)?;
    Ok(names)
}

/// Undoes these events, the last one first. The room is reserved before the first of them is undone.
pub(crate) fn undo_unnamed<L: LinkStore>(
    bench: &mut Bench<L>,
    ids: &[EventId],
) -> Result<(), BackwardsFault>
    requires { AreIdsOfFree bench.old ids.now }
    ensures undone { OnOk result (AreUndoneFrom bench.old ids.now bench.new) }
    ensures fault { IfErr result (λ fault. ArentUndoneBack bench.old ids.now fault bench.new) }
{
    bench.lawful();
    match bench.reserve(ids.len()) {
        Ok(()) => {}
        Err(ReserveFault::HistoryFull) => return Err(BackwardsFault::HistoryFull),
        Err(ReserveFault::Memory) => return Err(BackwardsFault::Memory),
    }
    undo_each(bench, ids);
    Ok(())
}

/// Undoes these events, the last one first, with the room that is reserved: many of them at once, if no others stand. It
/// takes no memory.
pub(crate) fn undo_each<L: LinkStore>(bench: &mut Bench<L>, ids: &[EventId])
    requires free { AreIdsOfFree bench.old ids.now }
    requires room { length ids.now ≤ bench.old.room }
    ensures { AreUndoneFrom bench.old ids.now bench.new }
{
    if ids.len() >= MANY && ids.len() == bench.standing_count() {
        bench.clear(ids);
    } else {
        undo_in_turn(bench, ids);
    }
}

/// Undoes these events one after the other, the last one first, with the room that is reserved. It takes no memory.
fn undo_in_turn<L: LinkStore>(bench: &mut Bench<L>, ids: &[EventId])
    requires free { AreIdsOfFree bench.old ids.now }
    requires room { length ids.now ≤ bench.old.room }
    ensures { AreUndoneFrom bench.old ids.now bench.new }
{
    bench.lawful();
    for place in (0..ids.len()).rev() {
        bench.lawful();
        let Ok(()) = bench.undo(ids[place]) else {
            unreachable!()
        };
    }
}

/// The names of these events, which stand, that of the last one first.
fn names_backwards<L: LinkStore>(
    alloc: Global,
    bench: &Bench<L>,
    ids: &[EventId],
) -> Result<Vec<EventName>, AllocError>
    requires { AreIdsOfFree bench.now ids.now }
    ensures { IfOk result (λ names. (order : List Stander) → ((x : Stander) → IsIn x order → IsIn x bench.now.events) → map (λ x. x.id) order ≡ ids.now → map (λ x. pair x.event) (reverse order) ≡ names.items) }
{
    let mut names = Vec::with_capacity(alloc, ids.len())?;
    for place in (0..ids.len()).rev() {
        let name = name_under(bench, ids[place])?;
        names.push(name)?;
    }
    Ok(names)
}

/// The name of the standing event whose firing is the line of the id.
fn name_under<L: LinkStore>(bench: &Bench<L>, id: EventId) -> Result<EventName, AllocError>
    requires { (x : Stander) × StandsIn bench.now id x }
    ensures { IfOk result (λ name. (x : Stander) → StandsIn bench.now id x → name ≡ pair x.event) }
{
    bench.lawful();
    let Some(event) = bench.event_of(id)? else {
        unreachable!()
    };
    event.name()
}
