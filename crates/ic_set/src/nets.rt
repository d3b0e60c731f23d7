ghost use Rattle.std.specs.Prelude.{◌≡◌, ◌++◌, All, List, [], map, IfOk, OnOk};
ghost use Rattle.ic_name.specs.Events.{Event as AnEvent};
ghost use Rattle.ic_path.specs.Orders.{Alike};
ghost use Rattle.ic_theory.specs.Firings.{AreAfterCauses, then_fired};
ghost use Rattle.ic_theory.specs.Listed.{shown, IsListing};
ghost use Rattle.ic_theory.specs.Nets.{IsSameNet, net_of};
ghost use Rattle.ic_theory.specs.Steps.{AreDefined, steps};
ghost use Rattle.ic_cause.specs.Journals.{Ranked, IsJournal, journal_line, journal_text};
ghost use Rattle.ic_roster.specs.Rosters.{Stander, Stands, IsNamed};
ghost use Rattle.ic_set.specs.Views.{standing};
ghost use Rattle.ic_set.specs.Orders.{AreCanonical};
ghost use Rattle.ic_set.specs.Placed.{noted, ranked_in, AreUnder};

use crate::bare::BareSet;
use crate::orders::Placed;
use ic_cause::{journal_head, push_rank};
use ic_link::LinkStore;
use ic_name::Event;
use ic_names::NameTable;
use ic_net::{Net, NetMaker, NetSheet};
use ic_roster::{EventEntry, Roster};
use std::alloc::{AllocError, Global};

/// So many agents are more than a net counts.
const TOO_MANY_AGENTS: usize = 1 << 32;

/// So many rings are more than a net counts.
const TOO_MANY_RINGS: u64 = 1 << 63;

impl<L: LinkStore> BareSet<L> {
    /// The net of the set, with its agents in the order of their names, to be read once. At an error memory ran out, or the
    /// net would have more agents or rings than can be counted.
    pub fn sheet(&self) -> Result<NetSheet<'_>, AllocError>
        ensures net { IfOk result (λ sheet. IsSameNet (shown sheet) (net_of self.now.set.start (standing self.now.set))) }
        ensures listing { IfOk result IsListing }
    {
        self.lawful();
        self.start.lawful();
        let mut maker = NetMaker::new(self.alloc, self.roster.names(), self.start.profile());
        self.put_agents(&mut maker)?;
        self.put_frees(&mut maker)?;
        let rings = self.store.rings();
        if maker.agents() >= TOO_MANY_AGENTS || rings >= TOO_MANY_RINGS {
            return Err(AllocError);
        }
        Ok(maker.finish(rings))
    }

    /// The net of the set: the one in which the steps of its events end, in each causal order of them (Lafont 1997).
    /// At an error memory ran out, or the net would have more agents or rings than can be counted.
    pub fn net(&self) -> Result<Net, AllocError>
        ensures left { IfOk result (λ net. IsSameNet (shown net) (net_of self.now.set.start (standing self.now.set))) }
        ensures defined { IfOk result (λ _. (order : List AnEvent) → Alike (standing self.now.set) (then_fired [] order) → AreAfterCauses self.now.set.start (then_fired [] order) (then_fired [] order) → AreDefined (net_of self.now.set.start []) order) }
        ensures every_order { IfOk result (λ net. (order : List AnEvent) → Alike (standing self.now.set) (then_fired [] order) → AreAfterCauses self.now.set.start (then_fired [] order) (then_fired [] order) → IsSameNet (shown net) (steps (net_of self.now.set.start []) order)) }
    {
        self.lawful();
        let net = Net::of_sheet(self.alloc, &self.sheet()?)?;
        Ok(net)
    }

    /// The text of the journal: how many events stand, and a line for each with its rank, in canonical order.
    pub fn journal(&self) -> Result<Vec<u8>, AllocError>
        ensures { IfOk result (λ text. (xs : List Ranked) × IsJournal self.now.set.start (standing self.now.set) xs × (text.items ≡ journal_text xs)) }
    {
        self.lawful();
        journal_of(self.alloc, &self.roster, &self.all_placed()?)
    }

    /// The standing events, in canonical order.
    pub fn events(&self) -> Result<Vec<Event>, AllocError>
        ensures { IfOk result (λ events. AreCanonical self.now.set events.items) }
    {
        events_of(self.alloc, &self.roster, &self.all_placed()?)
    }
}

/// The journal of these standing events, each of which is looked up.
fn journal_of(alloc: Global, roster: &Roster, placed: &[Placed]) -> Result<Vec<u8>, AllocError>
    requires { All (λ p. Stands roster.now.events p.id) placed.now }
    ensures { IfOk result (λ text. (xs : List Stander) × AreUnder roster.now.events placed.now xs × (text.items ≡ journal_text (map noted xs))) }
{
    let mut text = journal_head(alloc, placed.len())?;
    for standing in placed {
        let Some(entry) = roster.event(standing.id) else {
            unreachable!()
        };
        push_line(&mut text, roster.names(), &entry)?;
    }
    Ok(text)
}

/// Puts the line of an event at the end. At an error memory ran out, and a front of the line may stand there.
fn push_line(text: &mut Vec<u8>, names: &NameTable, entry: &EventEntry) -> Result<(), AllocError>
    requires { IsNamed names.now entry.now.interaction }
    ensures { OnOk result (text.new.items ≡ text.old.items ++ journal_line (ranked_in names.now entry.now)) }
{
    names.write_to(entry.interaction.lead, text)?;
    text.push(b' ')?;
    names.write_to(entry.interaction.other, text)?;
    push_rank(text, entry.rank)
}

/// These standing events, by their names, each of which is looked up.
fn events_of(alloc: Global, roster: &Roster, placed: &[Placed]) -> Result<Vec<Event>, AllocError>
    requires { All (λ p. Stands roster.now.events p.id) placed.now }
    ensures { IfOk result (λ events. (xs : List Stander) × AreUnder roster.now.events placed.now xs × (events.items ≡ map (λ x. x.event) xs)) }
{
    let mut events = Vec::with_capacity(alloc, placed.len())?;
    for standing in placed {
        let Some(entry) = roster.event(standing.id) else {
            unreachable!()
        };
        let event = roster.read(entry.interaction)?;
        events.push(event)?;
    }
    Ok(events)
}
