ghost use Rattle.std.specs.Prelude.{◌≡◌, ◌+◌, ◌*◌, ◌<◌, ◌≤◌, ◌↔◌, ◌^◌, ◌++◌, ◌∷◌, [], ℕ, length, All, Some, None, IsTrue, IfOk, OnOk, OnErr};
ghost use Rattle.std.specs.Ordering.{nat_cmp};
ghost use Rattle.std.specs.Cmp.Lexicographic.{slice_cmp};
ghost use Rattle.ic_name.specs.Names.{depth as depth_of, start_name, child_name};
ghost use Rattle.ic_name.specs.NameTexts.{digits_text};
ghost use Rattle.ic_names.specs.Keys.{key_of};
ghost use Rattle.ic_names.specs.DigitTexts.{HasDots};
ghost use Rattle.ic_names.specs.Blocks.{anchor_of, block_of};
ghost use Rattle.ic_names.specs.Tables.{name_at, StandsAt, IsAbsent, IsPlaceOf, IsTable, Enters, GrowsUpTo};
ghost use Rattle.ic_names.specs.Rows.{name_from, IsBefore};

use crate::block::{BLOCK, Block};
use crate::entry::{Entry, Origin};
use crate::key::NameKey;
use ic_name::AgentName;
use ic_name::limits::{MAX_DEPTH, MAX_START_AGENTS};
use ic_slots::OptionalSlot;
use smallvec::SmallVec;
use std::alloc::{AllocError, Global};
use std::cmp::Ordering;
use std::marker::Model;

/// The names of a table with the room that there is for more.
#[derive(Drop)]
pub struct Rows {
    entries: Vec<Entry>,
    starts: Vec<OptionalSlot>,
}

impl Model for Rows {
    ghost use Rattle.std.specs.Prelude.{length, vec_len, vec_capacity, ◌-◌};
    ghost use Rattle.ic_names.specs.Rows.{RowsView, AreRows, names_of};

    ghost Value = { RowsView };

    ghost view = { λ r. record { names = names_of r.entries.items; room = vec_capacity r.entries - vec_len r.entries; starts = length r.starts.items } };

    ghost invariant = { λ r. AreRows (names_of r.entries.items) r.entries.items r.starts.items };
}

impl Rows {
    /// No names. It takes no memory yet.
    pub fn new(alloc: Global) -> Rows
        ensures { result.names ≡ [] }
    {
        Rows {
            entries: Vec::new(alloc),
            starts: Vec::new(alloc),
        }
    }

    /// The invariant of every table.
    pub fn lawful(&self)
        ensures { IsTable self.now.names }
    {
        let _ = &self.entries;
    }

    /// The number of names.
    pub fn name_count(&self) -> usize
        ensures { result ≡ length self.now.names }
    {
        self.entries.len()
    }

    /// The allocator.
    pub fn alloc(&self) -> Global {
        *self.entries.allocator()
    }

    /// Where the name of the start agent of this number stands.
    pub fn start(&self, number: u16) -> Option<u32>
        ensures { IsPlaceOf self.now.names (start_name number) result }
    {
        self.starts.get(usize::from(number))?.get()
    }

    /// Where the child with this digit stands.
    pub fn child(&self, place: u32, digit: u8) -> Option<u32>
        requires inside { place < length self.now.names }
        requires small { digit < 4 }
        ensures { IsPlaceOf self.now.names (child_name (name_at self.now.names place) digit) result }
    {
        self.entries[place as usize].children[usize::from(digit)].get()
    }

    /// Where the name of this start number and these digits stands, in time in proportion to the number of digits.
    pub fn place_of(&self, start: u16, digits: &[u8]) -> Option<u32>
        requires { All (λ d. d < 4) digits.now }
        ensures { IsPlaceOf self.now.names (record { start = start; digits = digits.now }) result }
    {
        self.lawful();
        let mut place = self.start(start)?;
        for digit in digits {
            place = self.child(place, *digit)?;
        }
        Some(place)
    }

    /// Where the name at a place of other rows stands here, in time in proportion to its depth. It has at most 32 digits.
    pub fn place_from(&self, others: &Rows, place: u32) -> Option<u32>
        requires inside { place < length others.now.names }
        requires short { depth_of (name_at others.now.names place) ≤ 32 }
        ensures { IsPlaceOf self.now.names (name_at others.now.names place) result }
    {
        others.lawful();
        let key = others.key(place);
        let depth = key.depth() as usize;
        let mut digits = [0; BLOCK as usize];
        if depth > 0 {
            others.block(place).put_digits(&mut digits, depth);
        }
        self.place_of(key.start_number(), &digits[..depth])
    }

    /// The key of the name at a place.
    pub fn key(&self, place: u32) -> NameKey
        requires { place < length self.now.names }
        ensures { result.0 ≡ key_of (name_at self.now.names place) }
    {
        self.entries[place as usize].key
    }

    /// Where the name at a place comes from.
    pub fn origin(&self, place: u32) -> Origin
        requires { place < length self.now.names }
        ensures named { name_at self.now.names place ≡ name_from self.now.names result }
        ensures before { IsBefore place result }
    {
        let entry = &self.entries[place as usize];
        if entry.key.depth() == 0 {
            return Origin::Start(entry.key.start_number());
        }
        Origin::Child {
            digit: entry.block.last_digit(),
            parent: entry.parent,
        }
    }

    /// Where the anchor of the name at a place stands.
    fn anchor(&self, place: u32) -> u32
        requires { place < length self.now.names }
        ensures { StandsAt self.now.names (anchor_of (name_at self.now.names place)) result }
    {
        self.entries[place as usize].anchor
    }

    /// The digits after the anchor of the name at a place.
    fn block(&self, place: u32) -> Block
        requires { place < length self.now.names }
        ensures { result.0 ≡ block_of (name_at self.now.names place) }
    {
        self.entries[place as usize].block
    }

    /// Where the anchor of each child of the name at a place stands.
    fn child_anchor(&self, parent: u32) -> u32
        requires { parent < length self.now.names }
        ensures { (digit : ℕ) → StandsAt self.now.names (anchor_of (child_name (name_at self.now.names parent) digit)) result }
    {
        self.lawful();
        if self.key(parent).depth() % BLOCK == 0 {
            return parent;
        }
        self.anchor(parent)
    }

    /// The digits after the anchor of the child with this digit.
    fn child_block(&self, parent: u32, digit: u8) -> Block
        requires inside { parent < length self.now.names }
        requires small { digit < 4 }
        ensures { result.0 ≡ block_of (child_name (name_at self.now.names parent) digit) }
    {
        self.lawful();
        self.block(parent).child(self.key(parent).depth(), digit)
    }

    /// The order of the digits of two names of one depth and one start number, in time that grows as a 32nd of the number of
    /// digits after the first one that differs. It takes no memory.
    pub fn digit_order(&self, a: u32, b: u32) -> Ordering
        requires left { a < length self.now.names }
        requires right { b < length self.now.names }
        requires depth { depth_of (name_at self.now.names a) ≡ depth_of (name_at self.now.names b) }
        requires start { (name_at self.now.names a).start ≡ (name_at self.now.names b).start }
        ensures { result ≡ slice_cmp nat_cmp (name_at self.now.names a).digits (name_at self.now.names b).digits }
    {
        self.lawful();
        let mut left = a;
        let mut right = b;
        while self.anchor(left) != self.anchor(right) {
            left = self.anchor(left);
            right = self.anchor(right);
        }
        self.block(left).number().cmp(&self.block(right).number())
    }

    /// Whether the name at a place is this one, in constant time where their depths differ, and else in time that grows as the
    /// depth: each digit of the given name is read, and for 32 of them there is one look into the table. It takes no memory.
    pub fn is_named(&self, place: u32, name: &AgentName) -> bool
        requires { place < length self.now.names }
        ensures { IsTrue result ↔ (name_at self.now.names place ≡ name.now) }
    {
        name.lawful();
        self.lawful();
        let digits = name.digits();
        let key = self.key(place);
        if key.depth() as usize != digits.len() {
            return false;
        }
        let mut at = place;
        let mut behind = digits.len();
        while behind > 0 {
            let first = (behind - 1) / BLOCK as usize * BLOCK as usize;
            if self.block(at).number() != Block::of_digits(&digits[first..behind]).number() {
                return false;
            }
            at = self.anchor(at);
            behind = first;
        }
        key.start_number() == name.start_number()
    }

    /// Makes room for so many further names. It is an error where memory runs out, or where there would be more names
    /// than places in four bytes. The names stay as they are.
    pub fn reserve_names(&mut self, names: usize) -> Result<(), AllocError>
        ensures same { self.new.names ≡ self.old.names }
        ensures starts { self.new.starts ≡ self.old.starts }
        ensures reserved { OnOk result (names ≤ self.new.room) }
        ensures few { OnOk result (length self.old.names + names < 2 ^ 32) }
    {
        if names > u32::MAX as usize - self.entries.len() {
            return Err(AllocError);
        }
        self.entries.reserve(names)
    }

    /// Makes room for the place of the start agent of this number. The names stay as they are.
    pub fn reserve_start(&mut self, number: u16) -> Result<(), AllocError>
        ensures same { self.new.names ≡ self.old.names }
        ensures room { self.new.room ≡ self.old.room }
        ensures reserved { OnOk result (number < self.new.starts) }
    {
        let starts = usize::from(number) + 1;
        if starts <= self.starts.len() {
            return Ok(());
        }
        let room = starts.max(2 * self.starts.len());
        self.starts.resize(room, OptionalSlot::none())
    }

    /// Adds the name of a start agent at the end, in the room there is. It takes no memory.
    pub fn put_start(&mut self, number: u16) -> u32
        requires proper { number < MAX_START_AGENTS }
        requires absent { IsAbsent self.old.names (start_name number) }
        requires room { 0 < self.old.room }
        requires few { length self.old.names + 1 < 2 ^ 32 }
        requires reserved { number < self.old.starts }
        ensures names { self.new.names ≡ self.old.names ++ start_name number ∷ [] }
        ensures place { result ≡ length self.old.names }
        ensures room { self.old.room ≤ self.new.room + 1 }
    {
        let place = self.entries.len() as u32;
        let key = NameKey::start(number);
        let entry = Entry::new(key, Block::start(), place, place);
        let Ok(_) = self.entries.push(entry) else {
            unreachable!()
        };
        self.starts[usize::from(number)] = OptionalSlot::some(place);
        place
    }

    /// Adds the name of a child at the end, in the room there is. It takes no memory.
    pub fn put_child(&mut self, parent: u32, digit: u8) -> u32
        requires inside { parent < length self.old.names }
        requires small { digit < 4 }
        requires shallow { depth_of (name_at self.old.names parent) < MAX_DEPTH }
        requires absent { IsAbsent self.old.names (child_name (name_at self.old.names parent) digit) }
        requires room { 0 < self.old.room }
        requires few { length self.old.names + 1 < 2 ^ 32 }
        ensures names { self.new.names ≡ self.old.names ++ child_name (name_at self.old.names parent) digit ∷ [] }
        ensures place { result ≡ length self.old.names }
        ensures room { self.old.room ≤ self.new.room + 1 }
    {
        let place = self.entries.len() as u32;
        let key = self.entries[parent as usize].key.child(digit);
        let block = self.child_block(parent, digit);
        let anchor = self.child_anchor(parent);
        let entry = Entry::new(key, block, anchor, parent);
        let Ok(_) = self.entries.push(entry) else {
            unreachable!()
        };
        let entry = &mut self.entries[parent as usize];
        entry.children[usize::from(digit)] = OptionalSlot::some(place);
        place
    }

    /// The name of a start agent, entered where it wasn't there, in the room there is. It takes no memory.
    pub fn enter_start(&mut self, number: u16) -> u32
        requires proper { number < MAX_START_AGENTS }
        requires room { 0 < self.old.room }
        requires few { length self.old.names + 1 < 2 ^ 32 }
        requires reserved { number < self.old.starts }
        ensures entered { StandsAt self.new.names (start_name number) result }
        ensures grown { Enters self.old.names (start_name number) self.new.names }
        ensures room { self.old.room ≤ self.new.room + 1 }
    {
        if let Some(place) = self.start(number) {
            return place;
        }
        self.put_start(number)
    }

    /// The name of a child, entered where it wasn't there, in the room there is. It takes no memory.
    pub fn enter_child(&mut self, parent: u32, digit: u8) -> u32
        requires inside { parent < length self.old.names }
        requires small { digit < 4 }
        requires shallow { depth_of (name_at self.old.names parent) < MAX_DEPTH }
        requires room { 0 < self.old.room }
        requires few { length self.old.names + 1 < 2 ^ 32 }
        ensures entered { StandsAt self.new.names (child_name (name_at self.old.names parent) digit) result }
        ensures grown { Enters self.old.names (child_name (name_at self.old.names parent) digit) self.new.names }
        ensures room { self.old.room ≤ self.new.room + 1 }
    {
        if let Some(place) = self.child(parent, digit) {
            return place;
        }
        self.put_child(parent, digit)
    }

    /// The name, entered with its ancestors where they weren't there, in the room there is. It takes no memory.
    pub fn enter(&mut self, name: &AgentName) -> u32
        requires room { depth_of name.now < self.old.room }
        requires few { length self.old.names + depth_of name.now + 1 < 2 ^ 32 }
        requires reserved { name.now.start < self.old.starts }
        ensures entered { StandsAt self.new.names name.now result }
        ensures grown { GrowsUpTo self.old.names name.now self.new.names }
    {
        name.lawful();
        let mut place = self.enter_start(name.start_number());
        let digits = name.digits();
        for digit in digits {
            place = self.enter_child(place, *digit);
        }
        place
    }

    /// The name at a place, in time that grows as its depth. It allocates once at most, and only for a name of more than
    /// 20 digits.
    pub fn name(&self, place: u32) -> Result<AgentName, AllocError>
        requires { place < length self.now.names }
        ensures { IfOk result (λ name. name ≡ name_at self.now.names place) }
    {
        self.lawful();
        let key = self.key(place);
        let mut behind = key.depth() as usize;
        let mut digits = SmallVec::from_elem(self.alloc(), 0, behind)?;
        let mut at = place;
        while behind > 0 {
            behind = self.block(at).put_digits(&mut digits, behind);
            at = self.anchor(at);
        }
        Ok(AgentName::of_digits(key.start_number(), digits))
    }

    /// Writes the digits of the name at a place into a text of dots, each after its dot, the last one first.
    pub fn write_digits(&self, place: u32, text: &mut [u8])
        requires inside { place < length self.now.names }
        requires length { length text.old ≡ 2 * depth_of (name_at self.now.names place) }
        requires dots { HasDots text.old }
        ensures { text.new ≡ digits_text (name_at self.now.names place).digits }
    {
        self.lawful();
        let mut behind = self.key(place).depth() as usize;
        let mut at = place;
        while behind > 0 {
            behind = self.block(at).write_digits(text, behind);
            at = self.anchor(at);
        }
    }
}
