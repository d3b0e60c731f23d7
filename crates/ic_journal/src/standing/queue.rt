ghost use Rattle.std.specs.Prelude.{◌≡◌, ◌≤◌, [], Some, IfSome, length};
ghost use Rattle.ic_name.specs.Names.{Name};
ghost use Rattle.ic_name.specs.Events.{Event as AnEvent};
ghost use Rattle.ic_name.specs.declared.ids.EventId.{EventId as AnEventId};
ghost use Rattle.ic_path.specs.Orders.{IsIn};
ghost use Rattle.ic_roster.specs.Rosters.{Stander};
ghost use Rattle.ic_names.specs.Queues.{leads_of, IsQueue};
ghost use Rattle.ic_set.specs.declared.pairs.ActivePair.{ActivePair as APair};
ghost use Rattle.ic_set.specs.Pairs.{IsPairOf, IsActivePair};
ghost use Rattle.ic_set.specs.Queues.{IsQueued, HasLeads};
ghost use Rattle.ic_set.specs.Removal.{Stands};
ghost use Rattle.ic_journal.specs.Fronts.{IsFront};

use ic_link::LinkStore;
use ic_name::{AgentId, EventId};
use ic_names::LeadQueue;
use ic_set::{ActivePair, BareSet};

/// Puts in each of these agents that leads an active pair. There is room for every name.
pub(crate) fn put_all<L: LinkStore>(queue: &mut LeadQueue, set: &BareSet<L>, agents: &[AgentId])
    requires queue { IsQueue set.now.names queue.old }
    requires room { length set.now.names ≤ queue.old.room }
    ensures queue { IsQueue set.now.names queue.new }
    ensures stay { (n : Name) → IsQueued set.now.names (leads_of queue.old) n → IsQueued set.now.names (leads_of queue.new) n }
    ensures led { (e : AnEvent) (p : APair) → IsPairOf set.now.set e p → IsIn p.lead agents.now → IsQueued set.now.names (leads_of queue.new) e.lead }
    ensures room { queue.old.room ≤ queue.new.room }
{
    set.lawful();
    for agent in agents {
        put_pair(queue, set, set.led(Some(*agent)));
    }
}

/// Puts in the lead of each of these pairs. There is room for every name.
#[inline(always)]
pub(crate) fn put_leads<L: LinkStore>(
    queue: &mut LeadQueue,
    set: &BareSet<L>,
    pairs: &[Option<ActivePair>],
)
    requires active { (p : APair) → IsIn (Some p) pairs.now → IsActivePair set.now.set p }
    requires queue { IsQueue set.now.names queue.old }
    requires room { length set.now.names ≤ queue.old.room }
    ensures queue { IsQueue set.now.names queue.new }
    ensures stay { (n : Name) → IsQueued set.now.names (leads_of queue.old) n → IsQueued set.now.names (leads_of queue.new) n }
    ensures led { (e : AnEvent) (p : APair) → IsPairOf set.now.set e p → IsIn (Some p) pairs.now → IsQueued set.now.names (leads_of queue.new) e.lead }
    ensures room { queue.old.room ≤ queue.new.room }
{
    for pair in pairs {
        put_pair(queue, set, *pair);
    }
}

/// Puts in the lead of each of these standing events that is an agent of the start, that of the last event first: if the events
/// are in order, each lead is less than all in the queue. There is room for every name.
pub(crate) fn put_start_leads<L: LinkStore>(
    queue: &mut LeadQueue,
    set: &BareSet<L>,
    events: &[EventId],
)
    requires standing { (d : AnEventId) → IsIn d events.now → Stands set.now.set d }
    requires queue { IsQueue set.now.names queue.old }
    requires room { length set.now.names ≤ queue.old.room }
    ensures queue { IsQueue set.now.names queue.new }
    ensures stay { (n : Name) → IsQueued set.now.names (leads_of queue.old) n → IsQueued set.now.names (leads_of queue.new) n }
    ensures led { (x : Stander) → IsIn x set.now.set.events → IsIn x.id events.now → x.event.lead.digits ≡ [] → IsQueued set.now.names (leads_of queue.new) x.event.lead }
    ensures room { queue.old.room ≤ queue.new.room }
{
    set.lawful();
    let names = set.roster().names();
    for place in (0..events.len()).rev() {
        let Some(event) = set.roster().event(events[place]) else {
            unreachable!()
        };
        let lead = event.interaction.lead;
        if names.depth(lead) == 0 {
            queue.put(names, lead);
        }
    }
}

/// Puts in the lead of the pair, if there is one. There is room for every name.
#[inline(always)]
fn put_pair<L: LinkStore>(queue: &mut LeadQueue, set: &BareSet<L>, pair: Option<ActivePair>)
    requires active { IfSome pair (λ p. IsActivePair set.now.set p) }
    requires queue { IsQueue set.now.names queue.old }
    requires room { length set.now.names ≤ queue.old.room }
    ensures queue { IsQueue set.now.names queue.new }
    ensures stay { (n : Name) → IsQueued set.now.names (leads_of queue.old) n → IsQueued set.now.names (leads_of queue.new) n }
    ensures led { (e : AnEvent) (p : APair) → IsPairOf set.now.set e p → Some p ≡ pair → IsQueued set.now.names (leads_of queue.new) e.lead }
    ensures room { queue.old.room ≤ queue.new.room }
{
    set.lawful();
    let Some(pair) = pair else {
        return;
    };
    let Some(entry) = set.roster().agent(pair.lead) else {
        unreachable!()
    };
    queue.put(set.roster().names(), entry.name);
}

/// Names at the front whose agents lead no active pair go. The pair that the front leads then is answered. It takes no
/// memory.
#[inline(always)]
pub(crate) fn drop_stale<L: LinkStore>(
    queue: &mut LeadQueue,
    set: &BareSet<L>,
) -> Option<ActivePair>
    requires queue { IsQueue set.now.names queue.old }
    requires each { HasLeads set.now (leads_of queue.old) }
    ensures queue { IsQueue set.now.names queue.new }
    ensures each { HasLeads set.now (leads_of queue.new) }
    ensures front { IsFront set.now.set result }
    ensures room { queue.old.room ≤ queue.new.room }
{
    set.lawful();
    while let Some(name) = queue.least() {
        if let Some(pair) = set.led_by_name(name) {
            return Some(pair);
        }
        queue.take_least(set.roster().names());
    }
    None
}
