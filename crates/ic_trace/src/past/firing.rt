ghost use Rattle.std.specs.Prelude.{◌≡◌, ◌≢◌, ◌<◌, ℕ, ◌++◌, ◌∷◌, [], false, length, slice_index_or, OnOk, OnErr};
ghost use Rattle.ic_name.specs.Events.{Event as AnEvent};
ghost use Rattle.ic_name.specs.declared.ids.EventId.{EventId as AnEventId};
ghost use Rattle.ic_name.specs.declared.limits.TheConstants.{MAX_LINES};
ghost use Rattle.ic_path.specs.Orders.{IsIn};
ghost use Rattle.ic_theory.specs.Machine.{IsDeep};
ghost use Rattle.ic_roster.specs.Rosters.{Stander};
ghost use Rattle.ic_set.specs.Admission.{AreCausesOf};
ghost use Rattle.ic_set.specs.Changes.{Admits, IsSame};
ghost use Rattle.ic_set.specs.Pairs.{IsActivePair, IsPairOf};
ghost use Rattle.ic_trace.specs.declared.past.deep.DeepEvent.{DeepEvent as ADeepEvent};
ghost use Rattle.ic_trace.specs.Taken.{AreTaken};

use crate::past::deep::DeepEvent;
use ic_link::LinkRows;
use ic_name::Event;
use ic_roster::Roster;
use ic_set::{ActivePair, BareSet};
use std::alloc::AllocError;

/// The event of an active pair comes to the set, under a line that no standing event has. At an error nothing changes.
pub(crate) fn fire_in_set(
    set: &mut BareSet<LinkRows>,
    taken: &mut Vec<bool>,
    pair: ActivePair,
) -> Result<(), AllocError>
    requires taken { AreTaken set.old.set.events taken.old.items }
    requires active { IsActivePair set.old.set pair }
    requires shallow { (e : AnEvent) → IsPairOf set.old.set e pair → ¬ (IsDeep e) }
    requires few { length set.old.set.events < MAX_LINES }
    ensures taken { AreTaken set.new.set.events taken.new.items }
    ensures admitted { OnOk result ((e : AnEvent) → IsPairOf set.old.set e pair → (line : ℕ) × (id : AnEventId) × Admits set.old.set e line id set.new.set) }
    ensures unchanged { OnErr result (IsSame set.old.set set.new.set) }
{
    let line = free_line(set.roster(), taken);
    make_room(taken, line)?;
    let event = set.interaction_of(pair);
    let mut awoken = [None; 4];
    let _ = set.admit(pair, event, line, &mut awoken)?;
    taken[line as usize] = true;
    Ok(())
}

/// An active event comes beside the set, with its direct causes. At an error nothing changes.
pub(crate) fn fire_beside(
    set: &BareSet<LinkRows>,
    deep: &mut Vec<DeepEvent>,
    event: &Event,
    pair: ActivePair,
) -> Result<(), AllocError>
    requires { IsPairOf set.now.set event.now pair }
    ensures kept { OnOk result ((d : ADeepEvent) × (d.event ≡ event.now) × AreCausesOf set.now.set event.now d.causes.items × (deep.new.items ≡ deep.old.items ++ d ∷ [])) }
    ensures unchanged { OnErr result (deep.new.items ≡ deep.old.items) }
{
    let causes = set.causes_of_pair(pair)?.into_vec()?;
    let event = event.copy()?;
    let Ok(()) = deep.push(DeepEvent { event, causes }) else {
        return Err(AllocError);
    };
    Ok(())
}

/// Room for the flag of a line. Each flag is what it was, and false if it was none.
fn make_room(taken: &mut Vec<bool>, line: u32) -> Result<(), AllocError>
    ensures room { OnOk result (line < length taken.new.items) }
    ensures same { (n : ℕ) → slice_index_or taken.new.items n false ≡ slice_index_or taken.old.items n false }
{
    let room = line as usize + 1;
    if taken.len() < room {
        taken.resize(room, false)?;
    }
    Ok(())
}

/// A line that no standing event has.
fn free_line(roster: &Roster, taken: &[bool]) -> u32
    requires taken { AreTaken roster.now.events taken.now }
    requires few { length roster.now.events < MAX_LINES }
    ensures unused { (x : Stander) → IsIn x roster.now.events → x.id.line ≢ result }
    ensures few { result < MAX_LINES }
{
    let count = roster.event_count();
    for tried in 0..count {
        let line = count - tried;
        if !taken.get(line).copied().unwrap_or(false) {
            return line as u32;
        }
    }
    0
}
