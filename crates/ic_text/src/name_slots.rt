ghost use Rattle.std.specs.Prelude.{◌≡◌, ℕ, ◌/◌, ◌<◌, List, length, min, None, IfOk, IfSome, OnOk, OnErr};
ghost use Rattle.ic_text.specs.declared.grammar.limits.TheConstants.{MAX_TEXT};
ghost use Rattle.ic_slots.specs.Slots.{slot_of};
ghost use Rattle.ic_text.specs.NameSlots.{hash_of, slot_for, found, other_of, IsKept};
ghost use Rattle.ic_text.specs.Table.{names_of};

use crate::grammar::limits::MAX_TEXT;
use crate::seen::Seen;
use ic_slots::SlotIndex;
use std::alloc::{AllocError, Global};
use std::collections::BTreeMap;

/// Empty slots for the names of a text of so many bytes: more than one for each two of them.
pub fn slots_for(alloc: Global, bytes: usize) -> Result<SlotIndex, AllocError>
    ensures empty { IfOk result (λ s. (k : ℕ) → slot_of s k ≡ None) }
    ensures many { IfOk result (λ s. min bytes MAX_TEXT / 2 < length s) }
{
    let mut slots = SlotIndex::new(alloc);
    slots.reserve((bytes.min(MAX_TEXT) / 2) as u32)?;
    Ok(slots)
}

/// The slot that a name comes to, among so many.
#[tactic(auto, unfolding(crate::specs::NameSlots::slot_for))]
pub fn slot_for(name: &[u8], slots: usize) -> u32
    requires { 0 < slots }
    ensures slot { result ≡ slot_for name.now slots }
    ensures within { result < slots }
{
    (hash_of(name) as usize % slots) as u32
}

/// A number for a name, by its bytes.
fn hash_of(name: &[u8]) -> u32
    ensures { result ≡ hash_of name.now }
{
    name.iter().fold(0u32, |hash, byte| {
        hash.wrapping_mul(131).wrapping_add(*byte as u32)
    })
}

/// The number of a name, by what its slot holds: that, if it is the number of this name, and else what the others say. No
/// name has come to a slot that holds nothing.
pub fn look_up(
    seen: &[Seen<'_>],
    others: &BTreeMap<&[u8], usize>,
    held: Option<u32>,
    name: &[u8],
) -> Option<usize>
    requires { IfSome held (λ i. i < length seen.now) }
    ensures { result ≡ found name.now (names_of seen.now) held (other_of others.now name.now) }
{
    let number = held? as usize;
    if seen[number].text == name {
        return Some(number);
    }
    others.get(name).copied()
}

/// Keeps the number of a new name in its slot, if that holds none, and else among the others. It is an error only if
/// memory runs out for these; then nothing changes.
pub fn keep<'a>(
    slots: &mut SlotIndex,
    others: &mut BTreeMap<&'a [u8], usize>,
    slot: u32,
    name: &'a [u8],
    number: usize,
) -> Result<(), AllocError>
    requires slot { slot < length slots.old }
    requires few { number < u32.MAX }
    ensures kept { OnOk result (IsKept (slot_of slots.old slot) slot name.now number slots.old slots.new (other_of others.old) (other_of others.new)) }
    ensures slots_stay { OnErr result (slots.new ≡ slots.old) }
    ensures others_stay { OnErr result ((x : List ℕ) → other_of others.new x ≡ other_of others.old x) }
{
    if slots.get(slot).is_none() {
        slots.put(slot, number as u32);
        return Ok(());
    }
    match others.insert(name, number) {
        Ok(_) => Ok(()),
        Err(_) => Err(AllocError),
    }
}
