ghost use Rattle.std.specs.Prelude.{◌≡◌, ◌==◌, ℕ, ◌<◌, ◌≤◌, length, Some, None, IsSome, IfOk, IfSome, IfNone, OnErr, if◌then◌else◌};
ghost use Rattle.ic_name.specs.Spots.{is_maker};
ghost use Rattle.ic_table.specs.RowSlots.{Fills, HasSpots, HasLinkOf, HasNoneOf, HasLinkAt, HasNoneAt, SameIn};
ghost use Rattle.ic_table.specs.KeyedRows.{keyed_row, keyed_rows, most_keys, HaveFewKeys};

use crate::link_records::LinkRecord;
use crate::two_slots::TwoSlots;
use ic_name::{EventId, LinkId, MakerId};
use slab::Slab;
use std::alloc::{AllocError, Global};
use std::marker::Model;

/// The number of keys.
const MOST_KEYS: usize = (1 << 30) - 1;

/// Whether the event made the links of this id.
fn is_made_by(event: EventId, id: LinkId) -> bool
    ensures { result ≡ is_maker event id.maker }
{
    match id.maker {
        MakerId::Start => false,
        MakerId::Event(maker) => event == maker,
    }
}

/// Links under keys that tell nothing of them.
#[derive(Drop)]
pub struct KeyedRecords {
    rows: Slab<LinkRecord>,
}

impl Model for KeyedRecords {
    ghost use Rattle.ic_table.specs.KeyedRows.{InKeys, HaveFewKeys};

    ghost Value = { InKeys };

    ghost view = { λ r. r.rows.slots };

    ghost invariant = { λ r. HaveFewKeys r.rows.slots };
}

impl KeyedRecords {
    /// No links. They take no memory yet.
    pub fn new(alloc: Global) -> KeyedRecords
        ensures rows { (key : ℕ) → keyed_row result key ≡ None }
        ensures none { length (keyed_rows result) ≡ 0 }
        ensures few { HaveFewKeys result }
    {
        KeyedRecords {
            rows: Slab::new(alloc),
        }
    }

    /// The number of links.
    pub fn len(&self) -> usize
        ensures all { result ≡ length (keyed_rows self.now) }
        ensures few { result ≤ most_keys }
    {
        self.rows.len()
    }

    /// The link under the key.
    pub fn get(&self, key: u32) -> LinkRecord
        requires { IsSome (keyed_row self.now key) }
        ensures { keyed_row self.now key ≡ Some result }
    {
        let Some(row) = self.rows.get(key as usize) else {
            unreachable!();
        };
        *row
    }

    /// The slots of the two spots of the link under the key.
    pub fn spots(&self, key: u32) -> TwoSlots
        requires { IsSome (keyed_row self.now key) }
        ensures { HasSpots (keyed_row self.now) key result }
    {
        let Some(row) = self.rows.get(key as usize) else {
            unreachable!();
        };
        TwoSlots { a: row.a, b: row.b }
    }

    /// The key of a link of the event, if there is one. It looks at every key.
    pub fn find_of(&self, event: EventId) -> Option<u32>
        ensures row { IfSome result (HasLinkOf (keyed_row self.now) event) }
        ensures small { IfSome result (λ key. key < most_keys) }
        ensures none { IfNone result (HasNoneOf (keyed_row self.now) event) }
    {
        if self.rows.is_empty() {
            return None;
        }
        for key in 0..MOST_KEYS.min(self.rows.capacity()) {
            if let Some(row) = self.rows.get(key) {
                if is_made_by(event, row.id) {
                    return Some(key as u32);
                }
            }
        }
        None
    }

    /// The key of the event's link at this place, if there is one. It looks at every key.
    pub fn find(&self, event: EventId, place: u32) -> Option<u32>
        ensures row { IfSome result (HasLinkAt (keyed_row self.now) event place) }
        ensures small { IfSome result (λ key. key < most_keys) }
        ensures none { IfNone result (HasNoneAt (keyed_row self.now) event place) }
    {
        if self.rows.is_empty() {
            return None;
        }
        let id = LinkId {
            maker: MakerId::Event(event),
            place,
        };
        for key in 0..MOST_KEYS.min(self.rows.capacity()) {
            if let Some(row) = self.rows.get(key) {
                if row.id == id {
                    return Some(key as u32);
                }
            }
        }
        None
    }

    /// Puts a link under a key that is free. If every key is taken, it is an error as if memory had run out.
    pub fn put(&mut self, row: LinkRecord) -> Result<u32, AllocError>
        ensures put { IfOk result (λ key. Fills key row (keyed_row self.old) (keyed_row self.new)) }
        ensures small { IfOk result (λ key. key < most_keys) }
        ensures err { OnErr result (SameIn (keyed_row self.old) (keyed_row self.new)) }
        ensures few { HaveFewKeys self.new }
    {
        self.rows.reserve(1)?;
        let key = self.rows.vacant_key();
        if key >= MOST_KEYS {
            return Err(AllocError);
        }
        self.rows.insert_reserved(row);
        Ok(key as u32)
    }

    /// Takes away the link under the key.
    pub fn remove(&mut self, key: u32)
        requires { IsSome (keyed_row self.old key) }
        ensures gone { (k : ℕ) → keyed_row self.new k ≡ (if k == key then None else keyed_row self.old k) }
        ensures few { HaveFewKeys self.new }
    {
        self.rows.remove(key as usize);
    }
}
