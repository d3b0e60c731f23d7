ghost use Rattle.std.specs.Prelude.{◌≡◌, ◌≢◌, ◌==◌, ℕ, ◌+◌, ◌*◌, ◌<◌, ◌≤◌, length, Some, None, IsSome, IsTrue, IsFalse, IfOk, IfSome, IfNone, OnErr, slice_set, if◌then◌else◌};
ghost use Rattle.ic_table.specs.RowSlots.{Fills, HasSpots, HasLinkOf, HasNoneOf, HasLinkAt, HasNoneAt, SameIn};
ghost use Rattle.ic_table.specs.EventRows.{row_at, event_row, event_rows, links_at, most_events, AreShort, IsFree, IsLastOf, PutsAt};

use crate::link_records::LinkRecord;
use crate::link_records::event_links::EventLinks;
use crate::two_slots::TwoSlots;
use ic_name::{EventId, LinkId, MakerId};
use ic_slots::growth::is_near;
use std::alloc::{AllocError, Global};
use std::marker::Model;

/// The number of event slots that have a record here.
const MOST_EVENTS: u32 = 1 << 28;

/// How many event slots get records when this one needs one: all up to it, and so many more that growth is seldom.
fn slots_up_to(slot: u32) -> usize
    requires { slot < most_events }
    ensures more { slot < result }
    ensures few { result ≤ most_events }
{
    (slot as usize / 64 + 1) * 64
}

/// Makes records up to that of the event slot, which has none. If it is far beyond the others, the answer is `false`.
#[cold]
#[inline(never)]
fn lengthen(records: &mut Vec<EventLinks>, slot: u32) -> Result<bool, AllocError>
    requires few { length records.old.items ≤ most_events }
    requires beyond { length records.old.items ≤ slot }
    ensures few { length records.new.items ≤ most_events }
    ensures same { (n : ℕ) → links_at records.new.items n ≡ links_at records.old.items n }
    ensures near { IfOk result (λ near. IsTrue near → slot < length records.new.items) }
{
    if slot >= MOST_EVENTS || !is_near(slot, records.len()) {
        return Ok(false);
    }
    records.resize(slots_up_to(slot), EventLinks::vacant())?;
    Ok(true)
}

/// Makes a record for the event slot if it has none. `false` if the record has links, or if the slot is far beyond the others.
fn make_free(records: &mut Vec<EventLinks>, slot: u32) -> Result<bool, AllocError>
    requires { length records.old.items ≤ most_events }
    ensures few { length records.new.items ≤ most_events }
    ensures same { (n : ℕ) → links_at records.new.items n ≡ links_at records.old.items n }
    ensures free { IfOk result (λ free. IsTrue free → IsFree records.new.items slot) }
{
    let number = slot as usize;
    if number >= records.len() && !lengthen(records, slot)? {
        return Ok(false);
    }
    Ok(records[number].len == 0)
}

/// Puts a link into the record of its event. `false` if it finds no place there.
fn enter(
    records: &mut Vec<EventLinks>,
    event: EventId,
    place: u32,
    spots: TwoSlots,
) -> Result<bool, AllocError>
    requires few { length records.old.items ≤ most_events }
    requires short { AreShort records.old.items }
    ensures few { length records.new.items ≤ most_events }
    ensures short { AreShort records.new.items }
    ensures others { (n : ℕ) → n ≢ event.slot → links_at records.new.items n ≡ links_at records.old.items n }
    ensures err { OnErr result (links_at records.new.items event.slot ≡ links_at records.old.items event.slot) }
    ensures full { IfOk result (λ room. IsFalse room → links_at records.new.items event.slot ≡ links_at records.old.items event.slot) }
    ensures small { IfOk result (λ room. IsTrue room → event.slot < most_events) }
    ensures put { IfOk result (λ room. IsTrue room → PutsAt place event.line spots (links_at records.old.items event.slot) (links_at records.new.items event.slot)) }
{
    let number = event.slot as usize;
    if number >= records.len() && !lengthen(records, event.slot)? {
        return Ok(false);
    }
    Ok(records[number].put(event.line, place, spots))
}

/// The links of events, each in the record at the slot of its event, and how many they are.
#[derive(Drop)]
pub struct EventRecords {
    records: Vec<EventLinks>,
    count: usize,
}

impl Model for EventRecords {
    ghost use Rattle.std.specs.Prelude.{List};
    ghost use Rattle.ic_table.specs.declared.link_records.event_links.EventLinks.{EventLinks as SomeLinks};
    ghost use Rattle.ic_table.specs.EventRows.{AreCounted};

    ghost Value = { List SomeLinks };

    ghost view = { λ r. r.records.items };

    ghost invariant = { λ r. AreCounted r.records.items r.count };
}

impl EventRecords {
    /// No links. They take no memory yet.
    pub fn new(alloc: Global) -> EventRecords
        ensures rows { (slot : ℕ) → event_row result slot ≡ None }
        ensures none { length (event_rows result) ≡ 0 }
        ensures few { length result ≤ most_events }
    {
        EventRecords {
            records: Vec::new(alloc),
            count: 0,
        }
    }

    /// The number of links.
    pub fn len(&self) -> usize
        ensures all { result ≡ length (event_rows self.now) }
        ensures few { result ≤ 8 * most_events }
    {
        self.count
    }

    /// The link in the slot.
    pub fn get(&self, slot: u32) -> LinkRecord
        requires { IsSome (event_row self.now slot) }
        ensures { event_row self.now slot ≡ Some result }
    {
        let links = &self.records[(slot / 8) as usize];
        let place = slot % 8;
        let spots = links.ends[place as usize];
        let event = EventId {
            slot: slot / 8,
            line: links.line,
        };
        LinkRecord {
            id: LinkId {
                maker: MakerId::Event(event),
                place,
            },
            a: spots.a,
            b: spots.b,
        }
    }

    /// The slots of the two spots of the link in the slot.
    pub fn spots(&self, slot: u32) -> TwoSlots
        requires { IsSome (event_row self.now slot) }
        ensures { HasSpots (event_row self.now) slot result }
    {
        let links = &self.records[(slot / 8) as usize];
        links.ends[(slot % 8) as usize]
    }

    /// Puts a link into the record of its event, and gives its slot. `None` if it finds no place there. At an error nothing
    /// changes.
    pub fn put(
        &mut self,
        event: EventId,
        place: u32,
        spots: TwoSlots,
    ) -> Result<Option<u32>, AllocError>
        ensures put { IfOk result (λ room. IfSome room (λ slot. Fills slot (row_at event place spots) (event_row self.old) (event_row self.new))) }
        ensures small { IfOk result (λ room. IfSome room (λ slot. slot < 8 * most_events)) }
        ensures full { IfOk result (λ room. IfNone room (SameIn (event_row self.old) (event_row self.new))) }
        ensures err { OnErr result (SameIn (event_row self.old) (event_row self.new)) }
        ensures few { length self.new ≤ most_events }
    {
        if !enter(&mut self.records, event, place, spots)? {
            return Ok(None);
        }
        self.count += 1;
        Ok(Some(8 * event.slot + place))
    }

    /// Makes a record for the event if its slot has none. `false` if the record has links, or if the slot is far beyond the
    /// others. The links stay the same.
    #[inline(always)]
    pub fn reserve(&mut self, event: EventId) -> Result<bool, AllocError>
        ensures same { SameIn (event_row self.old) (event_row self.new) }
        ensures free { IfOk result (λ free. IsTrue free → IsFree self.new event.slot) }
        ensures few { length self.new ≤ most_events }
    {
        make_free(&mut self.records, event.slot)
    }

    /// Writes all links of an event into its record, by place: so many, with their spots in these slots.
    #[inline(always)]
    pub fn fill(&mut self, event: EventId, len: u32, ends: &[TwoSlots; 8])
        requires free { IsFree self.old event.slot }
        requires few { len ≤ 8 }
        ensures { self.new ≡ slice_set self.old event.slot (record { line = event.line; len = len; ends = ends.now }) }
    {
        self.records[event.slot as usize] = EventLinks {
            line: event.line,
            len,
            ends: *ends,
        };
        self.count += len as usize;
    }

    /// The slot of the last link of the event, if its record has one.
    pub fn last_of(&self, event: EventId) -> Option<u32>
        ensures row { IfSome result (HasLinkOf (event_row self.now) event) }
        ensures last { IfSome result (λ slot. IsLastOf (event_row self.now) slot) }
        ensures small { IfSome result (λ slot. slot < 8 * most_events) }
        ensures none { IfNone result (HasNoneOf (event_row self.now) event) }
    {
        let links = self.records.get(event.slot as usize)?;
        if links.len == 0 || links.line != event.line {
            return None;
        }
        Some(8 * event.slot + links.len - 1)
    }

    /// The slot of the event's link at this place, if its record has one there.
    pub fn slot_of(&self, event: EventId, place: u32) -> Option<u32>
        ensures row { IfSome result (HasLinkAt (event_row self.now) event place) }
        ensures small { IfSome result (λ slot. slot < 8 * most_events) }
        ensures none { IfNone result (HasNoneAt (event_row self.now) event place) }
    {
        let links = self.records.get(event.slot as usize)?;
        if place >= links.len || links.line != event.line {
            return None;
        }
        Some(8 * event.slot + place)
    }

    /// Takes away all links. The records stay for later links.
    pub fn clear(&mut self)
        ensures rows { (slot : ℕ) → event_row self.new slot ≡ None }
        ensures few { length self.new ≤ most_events }
    {
        for number in 0..self.records.len() {
            self.records[number].len = 0;
        }
        self.count = 0;
    }

    /// Takes away the link in the slot, which is the last one of its event's record.
    pub fn remove(&mut self, slot: u32)
        requires has { IsSome (event_row self.old slot) }
        requires last { IsLastOf (event_row self.old) slot }
        ensures gone { (k : ℕ) → event_row self.new k ≡ (if k == slot then None else event_row self.old k) }
        ensures few { length self.new ≤ most_events }
    {
        self.records[(slot / 8) as usize].len = slot % 8;
        self.count -= 1;
    }
}
