ghost use Rattle.std.specs.Prelude.{◌≡◌, None, [], ◌∷◌};

use crate::block::Block;
use crate::key::NameKey;
use ic_slots::OptionalSlot;
use std::mem::size_of;

/// Where a name comes from: a start agent by its number, or a parent by its place, and the digit of the child.
#[derive(Clone, Copy, PartialEq, Eq)]
pub enum Origin {
    Start(u16),
    Child { digit: u8, parent: u32 },
}

/// What is kept of a name, in 40 bytes: its key, its digits after its anchor, where its children stand, by digit, where its
/// anchor stands, and where its parent stands; of a start agent's name, which has no parent, where it stands itself. Where the
/// name comes from is read from these: a name of depth 0 is that of the start agent whose number is in its key, and any other
/// is the child of its parent with the last digit of its block.
#[derive(Clone, Copy)]
pub struct Entry {
    pub key: NameKey,
    pub block: Block,
    pub children: [OptionalSlot; 4],
    pub anchor: u32,
    pub parent: u32,
}

const _: () = prove!(size_of::<Entry>() == 40);

impl Entry {
    /// The entry of a name none of whose children is there.
    pub fn new(key: NameKey, block: Block, anchor: u32, parent: u32) -> Entry
        ensures { result ≡ record { key = key; block = block; children = None ∷ None ∷ None ∷ None ∷ []; anchor = anchor; parent = parent } }
    {
        Entry {
            key,
            block,
            children: [OptionalSlot::none(); 4],
            anchor,
            parent,
        }
    }
}
