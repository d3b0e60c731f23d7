ghost use Rattle.std.specs.Prelude.{◌≡◌, Some, IfSome, IfNone};
ghost use Rattle.ic_name.specs.declared.ids.EventId.{EventId as AnEventId};
ghost use Rattle.ic_names.specs.Tables.{StandsAt};
ghost use Rattle.ic_path.specs.Orders.{IsIn};
ghost use Rattle.ic_roster.specs.Rosters.{Stander};
ghost use Rattle.ic_set.specs.Changes.{TakesOut};
ghost use Rattle.ic_set.specs.Cleared.{AreAll, Clears};
ghost use Rattle.ic_set.specs.Removal.{Stands, IsFree, IsLeast, TellsOrder, IsLeastOf};

use crate::bare::BareSet;
use crate::orders::{canonical_order, placed_event};
use ic_link::LinkStore;
use ic_name::EventId;
use ic_names::NameId;
use ic_roster::{EventIds, Roster};

impl<L: LinkStore> BareSet<L> {
    /// The least direct dependent of a standing event, in canonical order; `None` if nothing depends on it. It takes no
    /// memory.
    pub fn least_dependent(&self, id: EventId) -> Option<EventId>
        requires { Stands self.now.set id }
        ensures found { IfSome result (λ dependent. IsLeast self.now.set id dependent) }
        ensures absent { IfNone result (IsFree self.now.set id) }
    {
        least_of(&self.roster, self.roster.event_dependents(id))
    }

    /// A standing event goes on which nothing depends: with it its children go, and its links. The place of its lead's name
    /// is handed out. It takes no memory.
    pub fn take_out(&mut self, id: EventId) -> NameId
        requires standing { Stands self.old.set id }
        requires free { IsFree self.old.set id }
        ensures out { TakesOut self.old.set id self.new.set }
        ensures names { self.new.names ≡ self.old.names }
        ensures lead { (x : Stander) → IsIn x self.old.set.events → x.id ≡ id → StandsAt self.new.names x.event.lead result.place }
    {
        let Some(lead) = self.roster.remove_event(id) else {
            unreachable!()
        };
        self.roster.lawful();
        self.store.take_of(id);
        lead
    }

    /// All events go, whose ids these are: with them their children go, and their links. It takes no memory, and no look at
    /// what rests on what.
    pub fn clear(&mut self, ids: &[EventId])
        requires all { AreAll self.old.set ids.now }
        ensures cleared { Clears self.old.set self.new.set }
        ensures names { self.new.names ≡ self.old.names }
    {
        self.store.take_all(ids);
        self.roster.clear_events();
        self.roster.lawful();
    }
}

/// The least of these standing events in canonical order, if there are any.
fn least_of(roster: &Roster, ids: EventIds<'_>) -> Option<EventId>
    requires { (d : AnEventId) → IsIn d ids → (x : Stander) × IsIn x roster.now.events × (x.id ≡ d) }
    ensures found { IfSome result (λ least. IsLeastOf roster.now.events ids.entry least) }
    ensures absent { IfNone result ((d : AnEventId) → IsIn d ids.entry → ⊥) }
{
    roster.lawful();
    let mut left = ids;
    let mut least = None;
    while let Some(id) = left.next() {
        match least {
            Some(found) if !comes_before(roster, id, found) => {}
            _ => least = Some(id),
        }
    }
    least
}

/// Whether the first of two standing events comes before the second in canonical order.
fn comes_before(roster: &Roster, first: EventId, second: EventId) -> bool
    ensures { TellsOrder roster.now.events first second result }
{
    roster.lawful();
    let Some(x) = roster.event(first) else {
        return false;
    };
    let Some(y) = roster.event(second) else {
        return false;
    };
    let names = roster.names();
    let a = placed_event(names, first, x.interaction.lead, x.rank);
    let b = placed_event(names, second, y.interaction.lead, y.rank);
    canonical_order(names, &a, &b).is_lt()
}
