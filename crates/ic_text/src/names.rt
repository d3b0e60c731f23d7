ghost use Rattle.std.specs.Prelude.{◌≡◌, ◌<◌, ◌≤◌, [], length, IfOk, map, count_by, find, option_map, ◌==◌, ◌&&◌};
ghost use Rattle.ic_text.specs.Texts.{is_reserved};
ghost use Rattle.ic_text.specs.Names.{enter, number, times, is_free, is_reserved_free};
ghost use Rattle.ic_text.specs.Table.{first_of};

use crate::name_slots::{keep, look_up, slot_for, slots_for};
use crate::seen::{Occurrence, Seen};
use ic_slots::SlotIndex;
use ic_start::Texts;
use std::alloc::{AllocError, Global};
use std::collections::BTreeMap;
use std::marker::Model;

/// The names of a text, numbered by first occurrence. A slot has the number of the first name that came to it, and the
/// others have the names that came to a slot of another.
#[derive(Drop)]
pub struct Names<'a> {
    seen: Vec<Seen<'a>>,
    slots: SlotIndex,
    others: BTreeMap<&'a [u8], usize>,
}

impl<'a> Model for Names<'a> {
    ghost use Rattle.std.specs.Prelude.{List};
    ghost use Rattle.ic_text.specs.Names.{Entry};
    ghost use Rattle.ic_text.specs.NameSlots.{Finds, other_of};
    ghost use Rattle.ic_text.specs.Table.{names_of};

    ghost Value = { List Entry };

    ghost view = { λ n. names_of n.seen.items };

    ghost invariant = { λ n. Finds (names_of n.seen.items) n.slots (other_of n.others) };
}

impl<'a> Names<'a> {
    /// No name has occurred, of a text of so many bytes. There is room for a name for each 16 of them.
    pub fn new(alloc: Global, bytes: usize) -> Result<Names<'a>, AllocError>
        ensures { IfOk result (λ n. n ≡ []) }
    {
        Ok(Names {
            seen: Vec::with_capacity(alloc, bytes / 16)?,
            slots: slots_for(alloc, bytes)?,
            others: BTreeMap::new(alloc),
        })
    }

    /// One more occurrence of a name, which begins at the byte `first`.
    pub fn enter(&mut self, text: &'a [u8], first: usize) -> Result<Occurrence, AllocError>
        requires twice { times text.now self.old ≤ 2 }
        requires few { length self.old < u32.MAX }
        ensures number { IfOk result (λ o. o.number ≡ number text.now self.old) }
        ensures within { IfOk result (λ o. o.number ≤ length self.old) }
        ensures before { IfOk result (λ o. o.before ≡ times text.now self.old) }
        ensures entered { IfOk result (λ _. self.new ≡ enter text.now first self.old) }
    {
        let slot = slot_for(text, self.slots.room());
        match look_up(&self.seen, &self.others, self.slots.get(slot), text) {
            Some(number) => {
                let name = &mut self.seen[number];
                let before = name.times;
                name.times = before + 1;
                Ok(Occurrence { number, before })
            }
            None => {
                let number = self.seen.len();
                self.seen.push(Seen {
                    text,
                    first,
                    times: 1,
                })?;
                match keep(&mut self.slots, &mut self.others, slot, text, number) {
                    Ok(()) => Ok(Occurrence { number, before: 0 }),
                    Err(_) => {
                        let _ = self.seen.pop();
                        Err(AllocError)
                    }
                }
            }
        }
    }

    /// How many names occur once.
    #[tactic(auto, using(crate::proofs::Table::count_free))]
    pub fn free(&self) -> usize
        ensures { result ≡ count_by is_free self.now }
    {
        self.seen.iter().filter(|n| n.times == 1).count()
    }

    /// The offset of the first name that occurs once and begins with `_`.
    #[tactic(auto, using(crate::proofs::Table::first_reserved_is))]
    pub fn reserved(&self) -> Option<usize>
        ensures { result ≡ option_map first_of (find is_reserved_free self.now) }
    {
        first_reserved(&self.seen)
    }

    /// The texts of the names by number, in no more memory than they need.
    #[tactic(auto, using(crate::proofs::Table::texts_are))]
    pub fn texts(&self, alloc: Global) -> Result<Texts, AllocError>
        ensures { IfOk result (λ texts. texts ≡ map (λ n. n.text) self.now) }
    {
        texts_of(alloc, &self.seen)
    }
}

/// The place of the first name that occurs once and begins with `_`.
fn first_reserved(seen: &[Seen<'_>]) -> Option<usize>
    ensures { result ≡ option_map (λ n. n.first) (find (λ n. (n.times == 1) && is_reserved n.text.now) seen.now) }
{
    seen.iter()
        .find(|n| n.times == 1 && is_reserved(n.text))
        .map(|n| n.first)
}

/// Copies of the names' bytes.
fn texts_of(alloc: Global, seen: &[Seen<'_>]) -> Result<Texts, AllocError>
    ensures { IfOk result (λ texts. texts ≡ map (λ n. n.text.now) seen.now) }
{
    let mut texts = Texts::new(alloc);
    for n in seen {
        texts.push(n.text)?;
    }
    texts.shrink_to_fit();
    Ok(texts)
}

/// Whether a name begins with `_`.
fn is_reserved(text: &[u8]) -> bool
    ensures { result ≡ is_reserved text.now }
{
    match text {
        [] => false,
        [b, ..] => *b == b'_',
    }
}
