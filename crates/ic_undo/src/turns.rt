ghost use Rattle.std.specs.Prelude.{◌≡◌, ◌*◌, ◌<◌, ◌≤◌, [], length, vec_capacity, IfErr, IfOk, OnOk};
ghost use Rattle.std.specs.BTreeMap.{get};
ghost use Rattle.std.specs.BTreeSet.{contains};
ghost use Rattle.ic_name.specs.Events.{Event as AnEvent, pair_cmp};
ghost use Rattle.ic_set.specs.Pairs.{IsActivePair, IsPairOf};
ghost use Rattle.ic_journal.specs.Views.{set_of};
ghost use Rattle.ic_undo.specs.Coming.{Comes, NoneListed, FiresReady, Hinders, StopsComing};
ghost use Rattle.ic_undo.specs.Ready.{TellsMissing};
ghost use Rattle.ic_undo.specs.declared.turns.Hindrance.TheVariants.{Memory};

use crate::ready::{add_pairs, missing_names, ready_pairs, take_least};
use ic_journal::{ActivePair, Bench, LinkStore, PairFault};
use ic_name::{EventId, EventName};
use std::alloc::Global;
use std::collections::{BTreeMap, BTreeSet};

/// What hinders the next listed event.
#[derive(Clone, Copy)]
pub(crate) enum Hindrance {
    Deep,
    Full,
    Memory,
}

/// The events that were fired, in that order, and the listed names whose events don't stand then.
#[derive(Drop)]
pub(crate) struct Turns {
    pub ids: Vec<EventId>,
    pub missing: BTreeSet<EventName>,
}

/// The events that were fired, in that order, and what hindered the next one.
#[derive(Drop)]
pub(crate) struct Stop {
    pub ids: Vec<EventId>,
    pub why: Hindrance,
}

/// Fires the listed events in turn until none of them is active: each time the one with the least lead. Each listed
/// event has room for two lines, so the history doesn't get full.
pub(crate) fn fire_listed<L: LinkStore>(
    alloc: Global,
    bench: &mut Bench<L>,
    names: &[EventName],
) -> Result<Turns, Stop>
    requires { 2 * length names.now ≤ bench.old.room }
    ensures comes { IfOk result (λ turns. Comes bench.old names.now turns.ids.items bench.new) }
    ensures none { IfOk result (λ turns. NoneListed bench.new names.now) }
    ensures missing { IfOk result (λ turns. TellsMissing (set_of bench.new) names.now (contains pair_cmp turns.missing)) }
    ensures stops { IfErr result (λ stop. StopsComing bench.old names.now stop.ids.items stop.why bench.new) }
    ensures few { IfOk result (λ turns. length turns.ids.items ≤ length names.now) }
    ensures room { IfOk result (λ turns. length turns.ids.items ≤ bench.new.room) }
    ensures room_still { IfErr result (λ stop. length stop.ids.items ≤ bench.new.room) }
{
    bench.lawful();
    let Ok(mut missing) = missing_names(alloc, bench, names) else {
        return Err(out_of_memory(alloc));
    };
    let Ok(mut ready) = ready_pairs(alloc, bench, names) else {
        return Err(out_of_memory(alloc));
    };
    let Ok(mut ids) = Vec::with_capacity(alloc, missing.len()) else {
        return Err(out_of_memory(alloc));
    };
    while let Some(pair) = take_least(&mut missing, &mut ready) {
        let fired = fire_ready(bench, &missing, &mut ready, &mut ids, pair);
        bench.lawful();
        if let Err(why) = fired {
            return Err(Stop { ids, why });
        }
    }
    Ok(Turns { ids, missing })
}

/// No event was fired, because no memory was left.
fn out_of_memory(alloc: Global) -> Stop
    ensures none { result.ids.items ≡ [] }
    ensures why { result.why ≡ Memory }
{
    Stop {
        ids: Vec::new(alloc),
        why: Hindrance::Memory,
    }
}

/// Fires an active pair, notes the event's id, and makes those of the waiting pairs ready that became active.
fn fire_ready<L: LinkStore>(
    bench: &mut Bench<L>,
    waiting: &BTreeSet<EventName>,
    ready: &mut BTreeMap<EventName, ActivePair>,
    ids: &mut Vec<EventId>,
    pair: ActivePair,
) -> Result<(), Hindrance>
    requires active { IsActivePair (set_of bench.old) pair }
    requires room { 1 ≤ bench.old.room }
    requires place { length ids.old.items < vec_capacity ids.old }
    ensures fired { OnOk result ((e : AnEvent) → IsPairOf (set_of bench.old) e pair → FiresReady bench.old e (contains pair_cmp waiting.now) (get pair_cmp ready.old) (get pair_cmp ready.new) ids.old.items ids.new.items bench.new) }
    ensures hindered { IfErr result (λ why. (e : AnEvent) → IsPairOf (set_of bench.old) e pair → Hinders bench.old e why ids.old.items ids.new.items bench.new) }
    ensures places { vec_capacity ids.new ≡ vec_capacity ids.old }
{
    bench.lawful();
    match bench.fire_pair(pair) {
        Ok(fired) => {
            ids.push_reserved(fired.id);
            match add_pairs(bench, waiting, ready, &fired.awoken) {
                Ok(()) => Ok(()),
                Err(_) => Err(Hindrance::Memory),
            }
        }
        Err(PairFault::Deep) => Err(Hindrance::Deep),
        Err(PairFault::Full) => Err(Hindrance::Full),
        Err(PairFault::HistoryFull) => unreachable!(),
        Err(PairFault::Memory) => Err(Hindrance::Memory),
    }
}
