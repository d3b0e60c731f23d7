ghost use Rattle.std.specs.Prelude.{◌≡◌, ◌≢◌, ◌≤◌, length, IfSome, Some};
ghost use Rattle.ic_names.specs.Queues.{leads_of, IsQueue};
ghost use Rattle.ic_set.specs.Pairs.{IsActivePair, IsLeastPair};
ghost use Rattle.ic_set.specs.Queues.{HasLeads};
ghost use Rattle.ic_journal.specs.Fronts.{IsFront};

use crate::standing::queue::drop_stale;
use crate::standing::renewing::renew_where_worn;
use ic_link::LinkStore;
use ic_name::AgentId;
use ic_names::LeadQueue;
use ic_set::{ActivePair, BareSet};
use std::alloc::Global;

/// The pair that was at the front, if it isn't the one of this lead, which was fired.
#[inline(always)]
pub(crate) fn besides(front: Option<ActivePair>, lead: AgentId) -> Option<ActivePair>
    ensures { IfSome result (λ pair. (front ≡ Some pair) × (pair.lead ≢ lead)) }
{
    let pair = front?;
    if pair.lead == lead {
        return None;
    }
    Some(pair)
}

/// The front of the queue after a pair was fired, and the leads of the pairs that it made active were put in. If the pair that
/// was at the front and wasn't fired still is, it was passed over once more. Else names at the front that lead no active
/// pair go.
#[inline(always)]
pub(crate) fn front_after<L: LinkStore>(
    alloc: Global,
    queue: &mut LeadQueue,
    set: &BareSet<L>,
    front: Option<ActivePair>,
    passed_over: &mut usize,
) -> Option<ActivePair>
    requires queue { IsQueue set.now.names queue.old }
    requires each { HasLeads set.now (leads_of queue.old) }
    requires room { length set.now.names ≤ queue.old.room }
    requires active { IfSome front (IsActivePair set.now.set) }
    ensures queue { IsQueue set.now.names queue.new }
    ensures each { HasLeads set.now (leads_of queue.new) }
    ensures front { IsFront set.now.set result }
    ensures room { length set.now.names ≤ queue.new.room }
{
    let still = still_front(queue, set, front);
    if still.is_some() {
        *passed_over = passed_over.saturating_add(1);
        return still;
    }
    renew_where_worn(alloc, queue, set, passed_over);
    drop_stale(queue, set)
}

/// The active pair that was at the front, if it is still there: no lesser lead has come. It takes no memory.
#[inline(always)]
fn still_front<L: LinkStore>(
    queue: &LeadQueue,
    set: &BareSet<L>,
    front: Option<ActivePair>,
) -> Option<ActivePair>
    requires queue { IsQueue set.now.names queue.now }
    requires each { HasLeads set.now (leads_of queue.now) }
    requires active { IfSome front (IsActivePair set.now.set) }
    ensures { IfSome result (λ pair. IsLeastPair set.now.set pair) }
{
    set.lawful();
    let pair = front?;
    let Some(entry) = set.roster().agent(pair.lead) else {
        unreachable!()
    };
    match queue.least() {
        Some(least) if least == entry.name => Some(pair),
        _ => None,
    }
}
