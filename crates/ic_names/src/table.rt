ghost use Rattle.std.specs.Prelude.{◌≡◌, ◌<◌, ◌≤◌, ◌↔◌, ◌++◌, ◌∷◌, [], ℕ, length, slice_get, Some, None, IsTrue, IfSome, IfNone, IfOk, IsErrOf, OnOk, OnErr};
ghost use Rattle.ic_name.specs.Names.{depth as depth_of, name_cmp, child_name};
ghost use Rattle.ic_name.specs.NameTexts.{name_text};
ghost use Rattle.ic_names.specs.Keys.{key_of};
ghost use Rattle.ic_names.specs.Tables.{name_at, StandsAt, IsAbsent, IsTable, Enters, GrowsUpTo};

use crate::block::BLOCK;
use crate::key::NameKey;
use crate::known::KnownNames;
use crate::rows::Rows;
use ic_name::limits::MAX_DEPTH;
use ic_name::{AgentName, ChildFault};
use itoa::Buffer;
use std::alloc::{AllocError, Global};
use std::cmp::Ordering;
use std::marker::Model;

/// The place of a name in its table. The names of a table are numbered from 0 on, in the order in which they were
/// entered.
#[derive(Clone, Copy, Debug, PartialEq, Eq)]
pub struct NameId {
    pub place: u32,
}

/// Names of agents, each under its place: a list that only grows, in which each name stands once.
///
/// A name is kept as a link to its parent and takes 40 bytes, however many digits it has. So it can be found, compared
/// and extended without a copy of its digits.
#[derive(Drop)]
pub struct NameTable {
    rows: Rows,
}

impl Model for NameTable {
    ghost use Rattle.std.specs.Prelude.{List};
    ghost use Rattle.ic_name.specs.Names.{Name};

    ghost Value = { List Name };

    ghost view = { λ t. t.rows.names };
}

impl NameTable {
    /// No names. It takes no memory yet.
    pub fn new(alloc: Global) -> NameTable
        ensures { result ≡ [] }
    {
        NameTable {
            rows: Rows::new(alloc),
        }
    }

    /// The invariant of every table.
    pub fn lawful(&self)
        ensures { IsTable self.now }
    {
        self.rows.lawful();
    }

    /// The number of names.
    pub fn len(&self) -> usize
        ensures { result ≡ length self.now }
    {
        self.rows.name_count()
    }

    /// Makes room for this many more names. The table grows without it, too. At an error nothing changes.
    pub fn reserve(&mut self, names: usize) -> Result<(), AllocError>
        ensures { self.new ≡ self.old }
    {
        self.rows.reserve_names(names)
    }

    /// The number of digits of the name at a place, in constant time. It takes no memory.
    pub fn depth(&self, id: NameId) -> usize
        requires { id.place < length self.now }
        ensures { result ≡ depth_of (name_at self.now id.place) }
    {
        self.rows.lawful();
        self.rows.key(id.place).depth() as usize
    }

    /// The key of the name at a place, in constant time; of a place beyond the table that of the least name, which is the
    /// name of start agent 0. It takes no memory.
    pub fn key(&self, id: NameId) -> NameKey
        ensures { result.0 ≡ key_of (name_at self.now id.place) }
    {
        if id.place as usize >= self.rows.name_count() {
            return NameKey::start(0);
        }
        self.rows.key(id.place)
    }

    /// The place of the child with this digit, in constant time; `None` if it isn't in the table. It takes no memory.
    pub fn child(&self, parent: NameId, digit: u8) -> Option<NameId>
        requires inside { parent.place < length self.now }
        requires small { digit < 4 }
        ensures found { IfSome result (λ id. StandsAt self.now (child_name (name_at self.now parent.place) digit) id.place) }
        ensures absent { IfNone result (IsAbsent self.now (child_name (name_at self.now parent.place) digit)) }
    {
        let place = self.rows.child(parent.place, digit)?;
        Some(NameId { place })
    }

    /// The place of the name. If it isn't in the table, it is entered, and its ancestors too. This takes time in proportion to
    /// its depth, but for the growth of the table. It is an error if memory runs out, or if the table has fewer than
    /// `depth + 1` places left of the 2^32 - 1 that there are. All memory is taken before anything changes, so at an error
    /// nothing changes.
    pub fn enter(&mut self, name: &AgentName) -> Result<NameId, AllocError>
        ensures entered { IfOk result (λ id. StandsAt self.new name.now id.place) }
        ensures grown { IfOk result (λ id. GrowsUpTo self.old name.now self.new) }
        ensures unchanged { OnErr result (self.new ≡ self.old) }
    {
        self.rows.reserve_names(name.depth() + 1)?;
        self.rows.reserve_start(name.start_number())?;
        let place = self.rows.enter(name);
        Ok(NameId { place })
    }

    /// The place of the child with this digit. If it isn't in the table, it is entered. This takes constant time, but for the
    /// growth of the table. It is `Deep` exactly if the parent has `MAX_DEPTH` digits. It is `Memory` if memory runs out or
    /// there would be 2^32 names. At an error nothing changes.
    pub fn enter_child(&mut self, parent: NameId, digit: u8) -> Result<NameId, ChildFault>
        requires inside { parent.place < length self.old }
        requires small { digit < 4 }
        ensures entered { IfOk result (λ id. StandsAt self.new (child_name (name_at self.old parent.place) digit) id.place) }
        ensures grown { IfOk result (λ id. Enters self.old (child_name (name_at self.old parent.place) digit) self.new) }
        ensures deep { IsErrOf result ChildFault.Deep ↔ (depth_of (name_at self.old parent.place) ≡ MAX_DEPTH) }
        ensures unchanged { OnErr result (self.new ≡ self.old) }
    {
        self.rows.lawful();
        if let Some(place) = self.rows.child(parent.place, digit) {
            return Ok(NameId { place });
        }
        if self.rows.key(parent.place).depth() as usize == MAX_DEPTH {
            return Err(ChildFault::Deep);
        }
        self.rows.reserve_names(1).map_err(|_| ChildFault::Memory)?;
        let place = self.rows.put_child(parent.place, digit);
        Ok(NameId { place })
    }

    /// The place of the name, in time in proportion to its depth; `None` if it isn't in the table. It takes no memory.
    pub fn find(&self, name: &AgentName) -> Option<NameId>
        ensures found { IfSome result (λ id. StandsAt self.now name.now id.place) }
        ensures absent { IfNone result (IsAbsent self.now name.now) }
    {
        name.lawful();
        let place = self.rows.place_of(name.start_number(), name.digits())?;
        Some(NameId { place })
    }

    /// The place of the name that stands at a place of another table, in time in proportion to its depth; `None` if it isn't in
    /// this one. It takes memory only for a name of more than 32 digits, and at an error there was none.
    pub fn find_from(&self, others: &NameTable, id: NameId) -> Result<Option<NameId>, AllocError>
        requires { id.place < length others.now }
        ensures found { IfOk result (λ here. IfSome here (λ h. StandsAt self.now (name_at others.now id.place) h.place)) }
        ensures absent { IfOk result (λ here. IfNone here (IsAbsent self.now (name_at others.now id.place))) }
    {
        if others.depth(id) as u64 > BLOCK {
            let Some(name) = others.name(id)? else {
                unreachable!()
            };
            return Ok(self.find(&name));
        }
        let place = self.rows.place_from(&others.rows, id.place);
        Ok(place.map(|place| NameId { place }))
    }

    /// Whether the place is one of the table and its name is this one. It takes constant time if their depths differ. Else it
    /// reads each digit of the given name, and looks into the table once for 32 of them. It takes no memory.
    pub fn is(&self, id: NameId, name: &AgentName) -> bool
        ensures { IsTrue result ↔ StandsAt self.now name.now id.place }
    {
        (id.place as usize) < self.rows.name_count() && self.rows.is_named(id.place, name)
    }

    /// The name at a place, in time in proportion to its depth; `None` exactly if the table has no such place.
    pub fn name(&self, id: NameId) -> Result<Option<AgentName>, AllocError>
        ensures { IfOk result (λ name. name ≡ slice_get self.now id.place) }
    {
        if id.place as usize >= self.rows.name_count() {
            return Ok(None);
        }
        let name = self.rows.name(id.place)?;
        Ok(Some(name))
    }

    /// Writes the text of the name at a place at the end of `out`: the start number in decimal, then a dot and a digit for
    /// each generation. The time is in proportion to the depth of the name. Room is made once for the whole text, and
    /// nothing else is allocated. At an error memory ran out, and `out` is as before.
    pub fn write_to(&self, id: NameId, out: &mut Vec<u8>) -> Result<(), AllocError>
        requires { id.place < length self.now }
        ensures ok { OnOk result (out.new.items ≡ out.old.items ++ name_text (name_at self.now id.place)) }
        ensures err { OnErr result (out.new.items ≡ out.old.items) }
    {
        self.rows.lawful();
        let key = self.rows.key(id.place);
        let mut buffer = Buffer::new();
        let start = buffer.format(key.start_number()).as_bytes();
        let digits = 2 * key.depth() as usize;
        out.reserve(start.len() + digits)?;
        let Ok(()) = out.extend_from_slice(start) else {
            unreachable!()
        };
        let begin = out.len();
        let Ok(()) = out.resize(begin + digits, b'.') else {
            unreachable!()
        };
        self.rows.write_digits(id.place, &mut out[begin..]);
        Ok(())
    }

    /// The order of the names at two places. A place beyond the table counts as the least name. It takes no memory,
    /// and constant time for names that differ in depth, in start number or in one of the first 17 digits; for others time
    /// that grows as a 32nd of the number of digits after the first one that differs.
    pub fn cmp(&self, a: NameId, b: NameId) -> Ordering
        ensures { result ≡ name_cmp (name_at self.now a.place) (name_at self.now b.place) }
    {
        self.rows.lawful();
        let left = self.key(a).number();
        let right = self.key(b).number();
        if left < right {
            return Ordering::Less;
        }
        if right < left {
            return Ordering::Greater;
        }
        if left == 0 {
            return Ordering::Equal;
        }
        self.rows.digit_order(a.place, b.place)
    }

    /// The names that the table has now. At an error memory ran out.
    pub fn known(&self, alloc: Global) -> Result<KnownNames, AllocError>
        ensures { IfOk result (λ known. known ≡ self.now) }
    {
        KnownNames::of(&self.rows, alloc)
    }

    /// How many places from the first one on have the same names as then, in time that grows as their number. It takes no
    /// memory.
    pub fn same_as(&self, known: &KnownNames) -> usize
        ensures here { result ≤ length self.now }
        ensures then { result ≤ length known.now }
        ensures same { (k : ℕ) → k < result → name_at self.now k ≡ name_at known.now k }
    {
        known.same(&self.rows)
    }

    /// Whether the name at a place is that at another place then, where so many places from the first one on have the same
    /// names: in constant time where the place then is one of these, and else in time that grows as the depth. It takes no
    /// memory.
    pub fn is_known(&self, id: NameId, known: &KnownNames, then: NameId, same: usize) -> bool
        requires here { id.place < length self.now }
        requires then { then.place < length known.now }
        requires same { (k : ℕ) → k < same → name_at self.now k ≡ name_at known.now k }
        ensures { IsTrue result ↔ (name_at self.now id.place ≡ name_at known.now then.place) }
    {
        known.is(then.place, &self.rows, id.place, same)
    }
}
