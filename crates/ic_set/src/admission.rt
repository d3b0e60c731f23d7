ghost use Rattle.std.specs.Prelude.{◌≡◌, ◌≢◌, ◌<◌, ◌≤◌, ◌++◌, false, length, IfOk, OnOk, OnErr};
ghost use Rattle.ic_name.specs.Events.{Event as AnEvent};
ghost use Rattle.ic_name.specs.declared.ids.EventId.{EventId as AnEventId};
ghost use Rattle.ic_name.specs.declared.ids.Link.{Link as ALink};
ghost use Rattle.ic_name.specs.declared.limits.TheConstants.{MAX_LINES};
ghost use Rattle.ic_name.specs.Spots.{made_by};
ghost use Rattle.ic_path.specs.Orders.{IsIn, Alike};
ghost use Rattle.ic_link.specs.Links.{IsLawful};
ghost use Rattle.ic_link.specs.Made.{AreJoins, HaveDigits};
ghost use Rattle.ic_theory.specs.Born.{born_agents};
ghost use Rattle.ic_theory.specs.Machine.{IsDeep};
ghost use Rattle.ic_theory.specs.Rules.{born_kinds};
ghost use Rattle.ic_roster.specs.Rosters.{Stander, event_in, IsNamed};
ghost use Rattle.ic_set.specs.Admission.{AreCausesOf, IsRankOver, CanPutIn, PutsIn, LeavesAll};
ghost use Rattle.ic_set.specs.Changes.{Admits, IsSame};
ghost use Rattle.ic_set.specs.Entering.{CanEnter, Enters, GrowsBy};
ghost use Rattle.ic_set.specs.Joining.{made_links};
ghost use Rattle.ic_set.specs.Pairs.{IsPairOf, IsActivePair, Awakes};
ghost use Rattle.ic_set.specs.Removal.{Stands, LosesEach};

use crate::bare::BareSet;
use crate::entering::{enter_children, remove_all};
use crate::firing::Firing;
use crate::pairs::ActivePair;
use ic_cause::{direct_causes, rank_with};
use ic_link::{LinkStore, MAX_JOINS, Principals, RuleLinks};
use ic_name::{AgentId, EventId, Kind};
use ic_roster::{Interaction, NewEvent, Roster};
use ic_start::outcome;
use smallvec::SmallVec;
use std::alloc::{AllocError, Global};

impl<L: LinkStore> BareSet<L> {
    /// One event more, that of an active pair, under an id with this line, which no standing event has: with it its
    /// children come, and the links of its rule are put in. The event is given by the places of its agents' names, as
    /// `interaction_of` answers it. The pairs that became active by it are written into `awoken`. At an error nothing else
    /// changes but that names may be known that weren't.
    pub fn admit(
        &mut self,
        pair: ActivePair,
        event: Interaction,
        line: u32,
        awoken: &mut [Option<ActivePair>; 4],
    ) -> Result<EventId, AllocError>
        requires active { IsActivePair self.old.set pair }
        requires named { IsNamed self.old.names event }
        requires event { (e : AnEvent) → IsPairOf self.old.set e pair → event_in self.old.names event ≡ e }
        requires shallow { (e : AnEvent) → IsPairOf self.old.set e pair → ¬ (IsDeep e) }
        requires new_line { (x : Stander) → IsIn x self.old.set.events → x.id.line ≢ line }
        requires few_lines { line < MAX_LINES }
        requires few_events { length self.old.set.events < MAX_LINES }
        ensures admitted { IfOk result (λ id. (e : AnEvent) → IsPairOf self.old.set e pair → Admits self.old.set e line id self.new.set) }
        ensures awoken { OnOk result (Awakes self.old.set self.new.set awoken.new) }
        ensures grown { GrowsBy 4 self.old.names self.new.names }
        ensures unchanged { OnErr result (IsSame self.old.set self.new.set) }
    {
        let causes = self.causes_of_pair(pair)?;
        let rank = self.rank_over(&causes);
        let rules = outcome(event.lead_kind, event.other_kind, self.start.profile());
        self.store.lawful();
        let born = enter_born(
            self.alloc,
            &mut self.roster,
            event,
            rules.children,
            line + 1,
        )?;
        self.roster.lawful();
        let firing = Firing {
            interaction: event,
            line,
            rank,
            pair,
            born: born.as_slice(),
            ends: rules.links,
            causes: &causes,
        };
        let mut joins = [None; MAX_JOINS];
        let id = put_event(&mut self.roster, &mut self.store, &firing, &mut joins)?;
        self.roster.lawful();
        self.active_joins(&joins, awoken);
        Ok(id)
    }

    /// The event of an active pair by the places of its agents' names. It takes no memory.
    pub fn interaction_of(&self, pair: ActivePair) -> Interaction
        requires { IsActivePair self.now.set pair }
        ensures named { IsNamed self.now.names result }
        ensures event { (e : AnEvent) → IsPairOf self.now.set e pair → event_in self.now.names result ≡ e }
    {
        self.lawful();
        let Some(lead) = self.roster.agent(pair.lead) else {
            unreachable!()
        };
        let Some(other) = self.roster.agent(pair.other) else {
            unreachable!()
        };
        Interaction {
            lead: lead.name,
            lead_kind: lead.kind,
            other: other.name,
            other_kind: other.kind,
        }
    }

    /// The standing events that the event of an active pair has as direct causes. They take memory only if events made more
    /// than four links of the pair's wire.
    pub fn causes_of_pair(&self, pair: ActivePair) -> Result<SmallVec<EventId, 4>, AllocError>
        requires { IsActivePair self.now.set pair }
        ensures { IfOk result (λ causes. (e : AnEvent) → IsPairOf self.now.set e pair → AreCausesOf self.now.set e causes.items) }
    {
        self.store.lawful();
        direct_causes(&self.store, pair.lead, pair.other)
    }

    /// The rank of an event that has the standing events under these ids as direct causes. It takes no memory.
    fn rank_over(&self, causes: &[EventId]) -> u32
        requires low { (x : Stander) → IsIn x self.now.set.events → x.rank ≤ MAX_LINES }
        requires standing { (d : AnEventId) → IsIn d causes.now → Stands self.now.set d }
        ensures { IsRankOver self.now.set.events causes.now result }
    {
        let mut rank = 0;
        for cause in causes {
            let Some(entry) = self.roster.event(*cause) else {
                unreachable!()
            };
            rank = rank_with(rank, entry.rank);
        }
        rank
    }
}

/// Enters the children of an event, by digit, all with this serial number, and gives their ids. At an error nothing else changes
/// but that names may be known that weren't.
#[inline(always)]
fn enter_born(
    alloc: Global,
    roster: &mut Roster,
    event: Interaction,
    kinds: &[Kind],
    serial: u32,
) -> Result<SmallVec<AgentId, 4>, AllocError>
    requires named { IsNamed roster.old.names event }
    requires kinds { kinds.now ≡ born_kinds event.lead_kind event.other_kind }
    requires shallow { ¬ (IsDeep (event_in roster.old.names event)) }
    requires can { CanEnter roster.old.agents (born_agents (event_in roster.old.names event)) }
    ensures entered { IfOk result (λ ids. Enters roster.old.agents (born_agents (event_in roster.old.names event)) serial ids.items roster.new.agents) }
    ensures grown { GrowsBy 4 roster.old.names roster.new.names }
    ensures events { roster.new.events ≡ roster.old.events }
    ensures unchanged { OnErr result (Alike roster.old.agents roster.new.agents) }
{
    roster.lawful();
    enter_children(alloc, roster, event.lead, kinds, serial)
}

/// Puts in an event with its links and its direct causes, and writes into `joins` what its links join. At an error its
/// children go, and nothing else changes.
fn put_event<L: LinkStore>(
    roster: &mut Roster,
    store: &mut L,
    firing: &Firing<'_>,
    joins: &mut [Option<Principals>; MAX_JOINS],
) -> Result<EventId, AllocError>
    requires named { IsNamed roster.old.names firing.now.interaction }
    requires can { CanPutIn (event_in roster.old.names firing.now.interaction) firing.now.line firing.now.rank firing.now.pair firing.now.born.now firing.now.ends.now firing.now.causes.now roster.old.events (L.links store.old) }
    ensures put { IfOk result (λ id. (id.line ≡ firing.now.line) × PutsIn (record { id = id; event = event_in roster.old.names firing.now.interaction; rank = firing.now.rank; born = firing.now.born.now; causes = firing.now.causes.now }) (made_links id firing.now.pair firing.now.born.now 0 firing.now.ends.now) roster.old.events roster.new.events (L.links store.old) (L.links store.new)) }
    ensures joins { IfOk result (λ id. AreJoins (L.links store.old) (made_links id firing.now.pair firing.now.born.now 0 firing.now.ends.now) joins.new) }
    ensures unchanged { OnErr result (LeavesAll roster.old.events roster.new.events (L.links store.old) (L.links store.new)) }
    ensures agents { OnOk result (roster.new.agents ≡ roster.old.agents) }
    ensures children { OnErr result (LosesEach firing.now.born.now roster.old.agents roster.new.agents) }
    ensures names { roster.new.names ≡ roster.old.names }
{
    roster.lawful();
    let event = NewEvent {
        interaction: firing.interaction,
        rank: firing.rank,
        born: firing.born,
        causes: firing.causes,
    };
    let Ok(id) = roster.insert_event(firing.line, &event) else {
        remove_all(roster, firing.born);
        return Err(AllocError);
    };
    roster.lawful();
    let Ok(()) = put_links(store, id, firing, joins) else {
        roster.remove_event(id);
        roster.lawful();
        return Err(AllocError);
    };
    Ok(id)
}

/// Puts in the links of an event that has none yet, and writes into `joins` which principal ports the first of them join. At
/// an error nothing else changes.
fn put_links<L: LinkStore>(
    store: &mut L,
    event: EventId,
    firing: &Firing<'_>,
    joins: &mut [Option<Principals>; MAX_JOINS],
) -> Result<(), AllocError>
    requires digits { HaveDigits firing.now.born.now firing.now.ends.now }
    requires few { length firing.now.ends.now ≤ 8 }
    requires no_links { (l : ALink) → IsIn l (L.links store.old) → made_by event l ≡ false }
    requires lawful { IsLawful (made_links event firing.now.pair firing.now.born.now 0 firing.now.ends.now ++ L.links store.old) }
    ensures put { OnOk result (Alike (made_links event firing.now.pair firing.now.born.now 0 firing.now.ends.now ++ L.links store.old) (L.links store.new)) }
    ensures joins { OnOk result (AreJoins (L.links store.old) (made_links event firing.now.pair firing.now.born.now 0 firing.now.ends.now) joins.new) }
    ensures unchanged { OnErr result (Alike (L.links store.old) (L.links store.new)) }
{
    if firing.ends.is_empty() {
        *joins = [None; MAX_JOINS];
        return Ok(());
    }
    let made = RuleLinks {
        event,
        lead: firing.pair.lead,
        other: firing.pair.other,
        born: firing.born,
        ends: firing.ends,
    };
    store.put_made(&made, joins)
}
