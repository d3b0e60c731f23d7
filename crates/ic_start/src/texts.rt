ghost use Rattle.std.specs.Prelude.{◌≡◌, ◌<◌, ◌++◌, ◌∷◌, ◌↔◌, [], length, slice_get, option_map, IsTrue, OnOk, OnErr};
ghost use Rattle.ic_start.specs.Texts.{begin};

use std::alloc::{AllocError, Global};
use std::marker::Model;

/// Texts by number, one after the other in one piece of memory.
#[derive(Drop)]
pub struct Texts {
    bytes: Vec<u8>,
    /// Where each text ends; the next one begins there.
    ends: Vec<usize>,
}

impl Model for Texts {
    ghost use Rattle.std.specs.Prelude.{ℕ, List, length};
    ghost use Rattle.ic_start.specs.Texts.{cut, AreEnds};

    ghost Value = { List (List ℕ) };

    ghost view = { λ t. cut t.bytes.items 0 t.ends.items };

    ghost invariant = { λ t. AreEnds 0 t.ends.items (length t.bytes.items) };
}

impl Texts {
    /// No texts. It takes no memory yet.
    pub fn new(alloc: Global) -> Texts
        ensures { result ≡ [] }
    {
        Texts {
            bytes: Vec::new(alloc),
            ends: Vec::new(alloc),
        }
    }

    /// One text more. At an error memory ran out, and nothing changes.
    pub fn push(&mut self, text: &[u8]) -> Result<(), AllocError>
        ensures text { OnOk result (self.new ≡ self.old ++ text.now ∷ []) }
        ensures error { OnErr result (self.new ≡ self.old) }
    {
        self.ends.reserve(1)?;
        self.bytes.extend_from_slice(text)?;
        self.ends.push_reserved(self.bytes.len());
        Ok(())
    }

    /// Gives back the memory that no text needs.
    pub fn shrink_to_fit(&mut self)
        ensures { self.new ≡ self.old }
    {
        self.bytes.shrink_to_fit();
        self.ends.shrink_to_fit();
    }

    /// The number of texts.
    pub fn len(&self) -> usize
        ensures { result ≡ length self.now }
    {
        self.ends.len()
    }

    /// The text with this number, where there is one.
    pub fn get(&self, number: usize) -> Option<&[u8]>
        ensures { option_map (λ t. t.now) result ≡ slice_get self.now number }
    {
        let end = *self.ends.get(number)?;
        let begin = begin_of(&self.ends, number);
        Some(&self.bytes[begin..end])
    }

    /// Whether these texts are those. It takes no memory.
    pub fn same(&self, other: &Texts) -> bool
        ensures { IsTrue result ↔ (self.now ≡ other.now) }
    {
        self.ends == other.ends && self.bytes == other.bytes
    }
}

/// Where the text with this number begins, by the ends of texts.
fn begin_of(ends: &[usize], number: usize) -> usize
    requires { number < length ends.now }
    ensures { result ≡ begin 0 ends.now number }
{
    match number.checked_sub(1) {
        Some(before) => ends[before],
        None => 0,
    }
}
