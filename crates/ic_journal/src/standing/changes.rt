ghost use Rattle.std.specs.Prelude.{◌≡◌, ◌≢◌, ◌<◌, length, IfOk, OnOk, OnErr};
ghost use Rattle.ic_name.specs.Events.{Event as AnEvent};
ghost use Rattle.ic_name.specs.declared.limits.TheConstants.{MAX_LINES};
ghost use Rattle.ic_path.specs.Orders.{IsIn};
ghost use Rattle.ic_theory.specs.Machine.{IsDeep};
ghost use Rattle.ic_roster.specs.Rosters.{Stander, event_in, IsNamed};
ghost use Rattle.ic_set.specs.Changes.{Admits, IsSame, TakesOut};
ghost use Rattle.ic_set.specs.Cleared.{AreAll, Clears};
ghost use Rattle.ic_set.specs.Entering.{GrowsBy};
ghost use Rattle.ic_set.specs.Pairs.{IsPairOf, IsActivePair, Awakes};
ghost use Rattle.ic_set.specs.Removal.{Stands, IsFree};

use crate::standing::StandingSet;
use crate::standing::front::{besides, front_after};
use crate::standing::queue::{drop_stale, put_leads, put_start_leads};
use crate::standing::renewing::MAX_CHILDREN;
use ic_link::LinkStore;
use ic_name::EventId;
use ic_roster::Interaction;
use ic_set::ActivePair;
use std::alloc::AllocError;

impl<L: LinkStore> StandingSet<L> {
    /// One event more, that of an active pair, under an id with this line, which no standing event has: with it its
    /// children come, and the links of its rule are put in. The pairs that became active by it are written into `awoken`. At
    /// an error nothing else changes but that names may be known that weren't.
    pub fn admit(
        &mut self,
        pair: ActivePair,
        event: Interaction,
        line: u32,
        awoken: &mut [Option<ActivePair>; 4],
    ) -> Result<EventId, AllocError>
        requires active { IsActivePair self.old.set pair }
        requires named { IsNamed self.old.names event }
        requires event { (e : AnEvent) → IsPairOf self.old.set e pair → event_in self.old.names event ≡ e }
        requires shallow { (e : AnEvent) → IsPairOf self.old.set e pair → ¬ (IsDeep e) }
        requires new_line { (x : Stander) → IsIn x self.old.set.events → x.id.line ≢ line }
        requires few_lines { line < MAX_LINES }
        requires few_events { length self.old.set.events < MAX_LINES }
        ensures admitted { IfOk result (λ id. (e : AnEvent) → IsPairOf self.old.set e pair → Admits self.old.set e line id self.new.set) }
        ensures awoken { OnOk result (Awakes self.old.set self.new.set awoken.new) }
        ensures grown { GrowsBy 4 self.old.names self.new.names }
        ensures unchanged { OnErr result (IsSame self.old.set self.new.set) }
    {
        self.bare.lawful();
        let names = self.bare.roster().names().len();
        self.queue.reserve(names + MAX_CHILDREN)?;
        let id = self.bare.admit(pair, event, line, awoken)?;
        self.bare.lawful();
        put_leads(&mut self.queue, &self.bare, &*awoken);
        let before = besides(self.front, pair.lead);
        self.front = front_after(
            self.alloc,
            &mut self.queue,
            &self.bare,
            before,
            &mut self.passed_over,
        );
        Ok(id)
    }

    /// A standing event goes on which nothing depends: with it its children go, and its links. It takes no memory.
    pub fn take_out(&mut self, id: EventId)
        requires standing { Stands self.old.set id }
        requires free { IsFree self.old.set id }
        ensures out { TakesOut self.old.set id self.new.set }
        ensures names { self.new.names ≡ self.old.names }
    {
        self.bare.lawful();
        let lead = self.bare.take_out(id);
        self.bare.lawful();
        self.queue.put(self.bare.roster().names(), lead);
        self.front = drop_stale(&mut self.queue, &self.bare);
    }

    /// All events go, whose ids these are: with them their children go, and their links, those of the last one first. It
    /// takes no memory.
    pub fn clear(&mut self, ids: &[EventId])
        requires all { AreAll self.old.set ids.now }
        ensures cleared { Clears self.old.set self.new.set }
        ensures names { self.new.names ≡ self.old.names }
    {
        self.bare.lawful();
        put_start_leads(&mut self.queue, &self.bare, ids);
        self.bare.clear(ids);
        self.bare.lawful();
        self.front = drop_stale(&mut self.queue, &self.bare);
    }
}
