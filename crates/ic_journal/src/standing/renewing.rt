ghost use Rattle.std.specs.Prelude.{◌≡◌, ◌+◌, ◌≤◌, [], length, IfOk};
ghost use Rattle.ic_path.specs.Orders.{IsIn};
ghost use Rattle.ic_names.specs.Queues.{leads_of, IsQueue};
ghost use Rattle.ic_set.specs.declared.pairs.ActivePair.{ActivePair as APair};
ghost use Rattle.ic_set.specs.Pairs.{IsActivePair};
ghost use Rattle.ic_set.specs.Queues.{HasLeads};
ghost use Rattle.ic_journal.specs.Fronts.{LeadNone};

use crate::standing::queue::put_all;
use ic_link::LinkStore;
use ic_name::AgentId;
use ic_names::LeadQueue;
use ic_set::BareSet;
use std::alloc::{AllocError, Global};

/// An event makes so many children at most.
pub(crate) const MAX_CHILDREN: usize = 4;

/// The agents whose names are in the queue, among whom is the lead of each active pair, in the order of the queue.
pub(crate) fn agents_in<L: LinkStore>(
    alloc: Global,
    queue: &LeadQueue,
    set: &BareSet<L>,
) -> Result<Vec<AgentId>, AllocError>
    requires queue { IsQueue set.now.names queue.now }
    requires each { HasLeads set.now (leads_of queue.now) }
    ensures { IfOk result (λ agents. (p : APair) → IsActivePair set.now.set p → IsIn p.lead agents.items) }
{
    let roster = set.roster();
    roster.lawful();
    let mut leads = Vec::with_capacity(alloc, queue.len())?;
    for at in 0..queue.len() {
        if let Some(agent) = roster.named(queue.lead(at).name) {
            leads.push_reserved(agent);
        }
    }
    Ok(leads)
}

/// A queue of the leads of the active pairs, all of whom are among these agents, with room for each name that is known.
pub(crate) fn queue_of<L: LinkStore>(
    alloc: Global,
    set: &BareSet<L>,
    agents: &[AgentId],
) -> Result<LeadQueue, AllocError>
    requires { (p : APair) → IsActivePair set.now.set p → IsIn p.lead agents.now }
    ensures queue { IfOk result (λ queue. IsQueue set.now.names queue) }
    ensures each { IfOk result (λ queue. HasLeads set.now (leads_of queue)) }
    ensures room { IfOk result (λ queue. length set.now.names ≤ queue.room) }
{
    let mut queue = empty_queue(alloc, set, agents.len() / 2)?;
    put_all(&mut queue, set, agents);
    Ok(queue)
}

/// A queue of those leads in this one that lead no standing event, with room for each name that is known. A lead that leads one
/// is of no active pair.
fn without_fired<L: LinkStore>(
    alloc: Global,
    queue: &LeadQueue,
    set: &BareSet<L>,
) -> Result<LeadQueue, AllocError>
    requires queue { IsQueue set.now.names queue.now }
    requires each { HasLeads set.now (leads_of queue.now) }
    ensures queue { IfOk result (λ fresh. IsQueue set.now.names fresh) }
    ensures each { IfOk result (λ fresh. HasLeads set.now (leads_of fresh)) }
    ensures unled { IfOk result (λ fresh. LeadNone set.now (leads_of fresh)) }
    ensures room { IfOk result (λ fresh. length set.now.names ≤ fresh.room) }
{
    let roster = set.roster();
    let mut fresh = empty_queue(alloc, set, queue.len())?;
    for at in 0..queue.len() {
        let name = queue.lead(at).name;
        if !roster.is_lead(name) {
            fresh.put(roster.names(), name);
        }
    }
    Ok(fresh)
}

/// A queue without leads, with room for twice the names that are known, and for those of the children of one event more: so the
/// children of further events don't make it grow at once. Its run has room for this number of leads.
fn empty_queue<L: LinkStore>(
    alloc: Global,
    set: &BareSet<L>,
    leads: usize,
) -> Result<LeadQueue, AllocError>
    ensures empty { IfOk result (λ queue. leads_of queue ≡ []) }
    ensures queue { IfOk result (λ queue. IsQueue set.now.names queue) }
    ensures room { IfOk result (λ queue. length set.now.names + MAX_CHILDREN ≤ queue.room) }
{
    set.lawful();
    let mut queue = LeadQueue::new(alloc);
    queue.reserve_run(leads)?;
    queue.reserve(2 * set.roster().names().len() + MAX_CHILDREN)?;
    Ok(queue)
}

/// Makes the queue anew without the leads of standing events, if these may be a third of its leads. So many firings passed the
/// front over then, and they aren't few beside the names, because the queue takes room for each name. If memory runs out, the
/// queue stays as it is.
pub(crate) fn renew_where_worn<L: LinkStore>(
    alloc: Global,
    queue: &mut LeadQueue,
    set: &BareSet<L>,
    passed_over: &mut usize,
)
    requires queue { IsQueue set.now.names queue.old }
    requires each { HasLeads set.now (leads_of queue.old) }
    requires room { length set.now.names ≤ queue.old.room }
    ensures queue { IsQueue set.now.names queue.new }
    ensures each { HasLeads set.now (leads_of queue.new) }
    ensures room { length set.now.names ≤ queue.new.room }
{
    if *passed_over <= queue.len() / 3 || *passed_over <= set.roster().names().len() / 64 {
        return;
    }
    *passed_over = 0;
    let Ok(fresh) = without_fired(alloc, queue, set) else {
        return;
    };
    *queue = fresh;
}
