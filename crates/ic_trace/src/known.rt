ghost use Rattle.std.specs.Prelude.{◌≡◌, ◌<◌, ◌≤◌, ◌++◌, ◌∷◌, ℕ, [], length, map, None, OnOk, IfOk};
ghost use Rattle.ic_name.specs.Events.{Pair};
ghost use Rattle.ic_name.specs.declared.limits.TheConstants.{MAX_LINES};
ghost use Rattle.ic_path.specs.Orders.{IsIn};
ghost use Rattle.ic_trace.specs.declared.known.Known.{Known as AKnown};
ghost use Rattle.ic_trace.specs.Known.{AreNumbered, IsNumberOf, AreNumbersOf, IsRankAbove};

use ic_cause::rank_with;
use ic_name::{AgentName, Event, EventName};
use std::alloc::{AllocError, Global};
use std::collections::BTreeMap;

/// An event of a list of letters, with the numbers of its direct causes and its rank.
#[derive(Drop)]
pub(crate) struct Known {
    pub event: Event,
    pub causes: Vec<usize>,
    pub rank: u32,
}

/// The events of a list of letters, numbered from 0 on as they are first fired, and their numbers by their leads.
#[derive(Drop)]
pub(crate) struct EventTable {
    pub known: Vec<Known>,
    pub numbers: BTreeMap<AgentName, usize>,
}

impl EventTable {
    /// No events.
    pub fn new(alloc: Global) -> EventTable
        ensures none { result.known.items ≡ [] }
        ensures numbered { AreNumbered result }
    {
        EventTable {
            known: Vec::new(alloc),
            numbers: BTreeMap::new(alloc),
        }
    }

    /// The number of the event that this agent leads; `None` if it leads none of them.
    pub fn number(&self, lead: &AgentName) -> Option<usize>
        requires { AreNumbered self.now }
        ensures { IsNumberOf self.now.known.items lead.now result }
    {
        self.numbers.get(lead).copied()
    }

    /// The numbers of the events of these names.
    pub fn numbers_of(&self, alloc: Global, names: &[EventName]) -> Result<Vec<usize>, AllocError>
        requires numbered { AreNumbered self.now }
        requires known { (p : Pair) → IsIn p names.now → ¬ (IsNumberOf self.now.known.items p.lead None) }
        ensures { IfOk result (λ numbers. AreNumbersOf self.now.known.items names.now numbers.items) }
    {
        let mut numbers = Vec::with_capacity(alloc, names.len())?;
        for name in names {
            let Some(number) = self.number(name.lead()) else {
                unreachable!()
            };
            numbers.push(number)?;
        }
        Ok(numbers)
    }

    /// Numbers an event whose agents are in none of these, and gives its number.
    pub fn add(&mut self, known: Known) -> Result<usize, AllocError>
        requires numbered { AreNumbered self.old }
        requires fresh { IsNumberOf self.old.known.items known.event.lead None }
        ensures number { IfOk result (λ number. number ≡ length self.old.known.items) }
        ensures added { OnOk result (self.new.known.items ≡ self.old.known.items ++ known ∷ []) }
        ensures renumbered { OnOk result (AreNumbered self.new) }
    {
        let number = self.known.len();
        let lead = known.event.lead().copy()?;
        let _ = self.numbers.insert(lead, number)?;
        self.known.push(known)?;
        Ok(number)
    }
}

/// One more than the greatest rank of these events, and 0 if there are none.
pub(crate) fn rank_above(known: &[Known], causes: &[usize]) -> u32
    requires inside { (j : ℕ) → IsIn j causes.now → j < length known.now }
    requires low { (k : AKnown) → IsIn k known.now → k.rank < length known.now }
    requires few { length known.now ≤ MAX_LINES }
    ensures { IsRankAbove known.now causes.now result }
{
    let mut rank = 0;
    for cause in causes {
        rank = rank_with(rank, known[*cause].rank);
    }
    rank
}
