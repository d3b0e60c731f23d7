ghost use Rattle.std.specs.Prelude.{◌≡◌, ◌+◌, ◌≤◌, length, IfNone, IfOk, IfSome, IsTrue, OnOk, None, Some};
ghost use Rattle.std.specs.BTreeMap.{get};
ghost use Rattle.std.specs.BTreeSet.{btree_set_len, contains};
ghost use Rattle.ic_name.specs.Events.{Pair, pair_cmp};
ghost use Rattle.ic_path.specs.Orders.{IsIn};
ghost use Rattle.ic_set.specs.declared.pairs.ActivePair.{ActivePair as APair};
ghost use Rattle.ic_set.specs.Pairs.{IsActivePair};
ghost use Rattle.ic_journal.specs.Views.{set_of};
ghost use Rattle.ic_undo.specs.Ready.{TellsMissing, AreReady, TakesLeast, AddsPairs};

use ic_journal::{ActivePair, Bench, LinkStore};
use ic_name::EventName;
use std::alloc::{AllocError, Global};
use std::collections::{BTreeMap, BTreeSet};

/// The names among these whose events don't stand.
pub(crate) fn missing_names<L: LinkStore>(
    alloc: Global,
    bench: &Bench<L>,
    names: &[EventName],
) -> Result<BTreeSet<EventName>, AllocError>
    ensures tells { IfOk result (λ missing. TellsMissing (set_of bench.now) names.now (contains pair_cmp missing)) }
    ensures few { IfOk result (λ missing. btree_set_len missing ≤ length names.now) }
{
    let mut missing = BTreeSet::new(alloc);
    for name in names {
        if bench.event(name).is_some() {
            continue;
        }
        missing.insert(name.copy()?)?;
    }
    Ok(missing)
}

/// The active pairs of these names.
pub(crate) fn ready_pairs<L: LinkStore>(
    alloc: Global,
    bench: &Bench<L>,
    names: &[EventName],
) -> Result<BTreeMap<EventName, ActivePair>, AllocError>
    ensures { IfOk result (λ ready. AreReady (set_of bench.now) names.now (get pair_cmp ready)) }
{
    bench.lawful();
    let mut ready = BTreeMap::new(alloc);
    for name in names {
        let Some(pair) = bench.pair_named(name) else {
            continue;
        };
        ready.insert(name.copy()?, pair)?;
    }
    Ok(ready)
}

/// Puts in those of these active pairs whose names are waiting.
pub(crate) fn add_pairs<L: LinkStore>(
    bench: &Bench<L>,
    waiting: &BTreeSet<EventName>,
    ready: &mut BTreeMap<EventName, ActivePair>,
    pairs: &[Option<ActivePair>],
) -> Result<(), AllocError>
    requires { (p : APair) → IsIn (Some p) pairs.now → IsActivePair (set_of bench.now) p }
    ensures { OnOk result (AddsPairs (set_of bench.now) (contains pair_cmp waiting.now) pairs.now (get pair_cmp ready.old) (get pair_cmp ready.new)) }
{
    bench.lawful();
    for place in pairs {
        let Some(pair) = place else {
            continue;
        };
        let name = bench.name_of_pair(*pair)?;
        if !waiting.contains(&name) {
            continue;
        }
        ready.insert(name, *pair)?;
    }
    Ok(())
}

/// Takes the least ready pair out, and its name.
pub(crate) fn take_least(
    missing: &mut BTreeSet<EventName>,
    ready: &mut BTreeMap<EventName, ActivePair>,
) -> Option<ActivePair>
    requires { (q : Pair) (p : APair) → get pair_cmp ready.old q ≡ Some p → IsTrue (contains pair_cmp missing.old q) }
    ensures taken { IfSome result (λ p. TakesLeast (contains pair_cmp missing.old) (contains pair_cmp missing.new) (get pair_cmp ready.old) (get pair_cmp ready.new) p) }
    ensures fewer { IfSome result (λ _. btree_set_len missing.new + 1 ≡ btree_set_len missing.old) }
    ensures none { IfNone result ((q : Pair) → get pair_cmp ready.old q ≡ None) }
    ensures kept { IfNone result (missing.new ≡ missing.old) }
{
    let Some(next) = ready.pop_first() else {
        return None;
    };
    missing.remove(&next.0);
    Some(next.1)
}
