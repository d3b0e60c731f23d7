ghost use Rattle.std.specs.Prelude.{◌≡◌, ◌<◌, ◌≤◌, [], Some, None, length, OnOk, OnErr};
ghost use Rattle.ic_slots.specs.Slots.{slot_of, Gives, Keeps};

use crate::slot::OptionalSlot;
use std::alloc::{AllocError, Global};
use std::marker::Model;

/// A slot for each of some numbers, found in one look. It takes four bytes for each number up to the greatest that it
/// was made to hold, and as much again at most: so numbers that come in order seldom make it grow.
#[derive(Drop)]
pub struct SlotIndex {
    slots: Vec<OptionalSlot>,
}

impl Model for SlotIndex {
    ghost use Rattle.std.specs.Prelude.{ℕ, List, Option};

    ghost Value = { List (Option ℕ) };

    ghost view = { λ i. i.slots.items };
}

impl SlotIndex {
    /// No number has a slot. It takes no memory yet.
    pub fn new(alloc: Global) -> SlotIndex
        ensures { result ≡ [] }
    {
        SlotIndex {
            slots: Vec::new(alloc),
        }
    }

    /// The slot of the number, if it has one, in constant time. It takes no memory.
    pub fn get(&self, number: u32) -> Option<u32>
        ensures { result ≡ slot_of self.now number }
    {
        self.slots.get(number as usize)?.get()
    }

    /// How many numbers there is room for, from 0 on.
    pub fn room(&self) -> usize
        ensures { result ≡ length self.now }
    {
        self.slots.len()
    }

    /// Makes room for the slot of this number. It is an error where memory runs out. Each number keeps its slot, and at
    /// an error nothing changes.
    pub fn reserve(&mut self, number: u32) -> Result<(), AllocError>
        ensures kept { Keeps self.old self.new }
        ensures longer { length self.old ≤ length self.new }
        ensures reserved { OnOk result (number < length self.new) }
        ensures unchanged { OnErr result (self.new ≡ self.old) }
    {
        let numbers = number as usize + 1;
        if numbers <= self.slots.len() {
            return Ok(());
        }
        let room = numbers.max(2 * self.slots.len());
        self.slots.resize(room, OptionalSlot::none())
    }

    /// Gives a slot to a number that there is room for, in constant time. It takes no memory.
    pub fn put(&mut self, number: u32, slot: u32)
        requires room { number < length self.old }
        requires small { slot < u32.MAX }
        ensures put { Gives number (Some slot) self.old self.new }
        ensures same_length { length self.new ≡ length self.old }
    {
        self.slots[number as usize] = OptionalSlot::some(slot);
    }

    /// Takes the slot of the number away, if it has one, in constant time. It takes no memory.
    pub fn take(&mut self, number: u32)
        ensures taken { Gives number None self.old self.new }
        ensures same_length { length self.new ≡ length self.old }
    {
        if let Some(slot) = self.slots.get_mut(number as usize) {
            *slot = OptionalSlot::none();
        }
    }
}
