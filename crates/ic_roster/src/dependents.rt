ghost use Rattle.std.specs.Prelude.{◌≡◌, ◌≢◌, ℕ, [], ◌∷◌, true, map, IsSome, OnOk, All};
ghost use Rattle.ic_path.specs.Orders.{IsOnce};
ghost use Rattle.ic_roster.specs.Records.{has};
ghost use Rattle.ic_roster.specs.RecordChanges.{HasRoom, SameRecords, Changes, Puts, Takes};
ghost use Rattle.ic_roster.specs.Slots.{slot_at};

use crate::event_record::EventRecord;
use ic_name::EventId;
use slab::Slab;
use std::alloc::AllocError;

/// Makes room for a dependent more of each of these events, which stand. At an error some have room, and nothing else
/// differs.
pub(crate) fn reserve_places(
    records: &mut Slab<EventRecord>,
    causes: &[EventId],
) -> Result<(), AllocError>
    requires { All (λ k. IsSome (slot_at records.old.slots k)) (map (λ d. d.slot) causes.now) }
    ensures same { SameRecords records.old.slots records.new.slots }
    ensures room { OnOk result ((k : ℕ) → has k (map (λ d. d.slot) causes.now) ≡ true → HasRoom records.new.slots k) }
{
    for cause in causes {
        reserve_place(records, cause.slot)?;
    }
    Ok(())
}

/// Puts an event to the dependents of each of its direct causes, where there is room. It takes no memory.
pub(crate) fn put_at_each(records: &mut Slab<EventRecord>, causes: &[EventId], event: u32)
    requires once { IsOnce (map (λ d. d.slot) causes.now) }
    requires room { (k : ℕ) → has k (map (λ d. d.slot) causes.now) ≡ true → HasRoom records.old.slots k }
    ensures { Changes (Puts event) (map (λ d. d.slot) causes.now) records.old.slots records.new.slots }
{
    for cause in causes {
        put_at(records, cause.slot, event);
    }
}

/// Takes an event out of the dependents of each of its direct causes. It takes no memory.
pub(crate) fn take_at_each(records: &mut Slab<EventRecord>, causes: &[u32], event: u32)
    requires { IsOnce causes.now }
    ensures { Changes (Takes event) causes.now records.old.slots records.new.slots }
{
    for cause in causes {
        take_at(records, *cause, event);
    }
}

/// Makes room for a dependent more of an event. At an error there is less room, and nothing else differs.
fn reserve_place(records: &mut Slab<EventRecord>, cause: u32) -> Result<(), AllocError>
    requires { IsSome (slot_at records.old.slots cause) }
    ensures same { SameRecords records.old.slots records.new.slots }
    ensures kept { (k : ℕ) → HasRoom records.old.slots k → HasRoom records.new.slots k }
    ensures room { OnOk result (HasRoom records.new.slots cause) }
{
    if let Some(record) = records.get_mut(cause as usize) {
        record.reserve_dependent()?;
    }
    Ok(())
}

/// Puts an event to the dependents of another, where there is room. It takes no memory.
fn put_at(records: &mut Slab<EventRecord>, cause: u32, event: u32)
    requires { HasRoom records.old.slots cause }
    ensures changed { Changes (Puts event) (cause ∷ []) records.old.slots records.new.slots }
    ensures others { (k : ℕ) → k ≢ cause → slot_at records.new.slots k ≡ slot_at records.old.slots k }
{
    if let Some(record) = records.get_mut(cause as usize) {
        record.push_dependent(event);
    }
}

/// Takes an event out of the dependents of another. It takes no memory.
fn take_at(records: &mut Slab<EventRecord>, cause: u32, event: u32)
    ensures { Changes (Takes event) (cause ∷ []) records.old.slots records.new.slots }
{
    if let Some(record) = records.get_mut(cause as usize) {
        record.remove_dependent(event);
    }
}
