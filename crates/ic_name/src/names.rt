ghost use Rattle.std.specs.Prelude.{◌≡◌, ◌<◌, ◌≤◌, ◌↔◌, ◌++◌, IsTrue, IsSome, IfSome, IfOk, IsErrOf, IsOkUnless, Err, ℕ, OnOk, OnErr};
ghost use Rattle.std.proofs.Common.{rules};
ghost use Rattle.std.specs.Cmp.{partial_order_from_own_ties};
ghost use Rattle.std.specs.Cmp.Rules.{comparing};
ghost use Rattle.std.specs.Ordering.{as_partial_cmp, eq_by_cmp};
ghost use Rattle.ic_name.specs.NameTexts.{name_text, IsBadAt, IsDeepText, IsShallowText, Reads};
ghost use Rattle.ic_name.specs.Names.{Name, IsName, depth as depth_of, name_cmp, start_name, child_name};

use crate::faults::{ChildFault, NameFault};
use crate::limits::{MAX_DEPTH, MAX_START_AGENTS};
use crate::shapes::Shape;
use itoa::Buffer;
use smallvec::SmallVec;
use std::alloc::{AllocError, Global};
use std::cmp::Ordering;
use std::marker::Model;

/// The name of an agent: the number of a start agent, and a digit from 0 to 3 for each generation since.
///
/// A name says where an agent comes from and nothing of when it was made, so it doesn't depend on the schedule.
#[derive(Drop)]
pub struct AgentName {
    start: u16,
    digits: SmallVec<u8, 16>,
}

impl Model for AgentName {
    ghost use Rattle.ic_name.specs.Names.{Name, IsName};

    ghost Value = { Name };

    ghost view = { λ a. record { start = a.start; digits = a.digits.items } };

    ghost invariant = { λ a. IsName (record { start = a.start; digits = a.digits.items }) };
}

impl AgentName {
    /// The name of the start agent of this number. `None` for 65,535, which no start agent has.
    pub fn start(alloc: Global, number: u16) -> Option<AgentName>
        ensures some { IsSome result ↔ (number < MAX_START_AGENTS) }
        ensures name { IfSome result (λ name. name ≡ start_name number) }
    {
        if usize::from(number) == MAX_START_AGENTS {
            return None;
        }
        Some(AgentName {
            start: number,
            digits: SmallVec::new(alloc),
        })
    }

    /// The name of this start number and these digits.
    pub fn of_digits(start: u16, digits: SmallVec<u8, 16>) -> AgentName
        requires { IsName (record { start = start; digits = digits.items }) }
        ensures { result ≡ record { start = start; digits = digits.items } }
    {
        AgentName { start, digits }
    }

    /// The invariant of every name.
    pub fn lawful(&self)
        ensures { IsName self.now }
    {
        let _ = &self.start;
    }

    /// Whether the two names are one. It takes no memory.
    #[tactic(auto, using(crate::proofs::NameOrder::name_tied, crate::proofs::NameOrder::name_same_is_equal))]
    pub fn is(&self, other: &AgentName) -> bool
        ensures { IsTrue result ↔ (self.now ≡ other.now) }
    {
        match self.cmp(other) {
            Ordering::Equal => true,
            Ordering::Less | Ordering::Greater => false,
        }
    }

    /// The number of the start agent from which the agent descends.
    pub fn start_number(&self) -> u16
        ensures { result ≡ self.now.start }
    {
        self.start
    }

    /// The digits, that of the earliest generation first. It takes no memory.
    pub fn digits(&self) -> &[u8]
        ensures { result.now ≡ self.now.digits }
    {
        self.digits.as_slice()
    }

    /// The number of digits.
    pub fn depth(&self) -> usize
        ensures value { result ≡ depth_of self.now }
        ensures shallow { result ≤ MAX_DEPTH }
    {
        self.digits.len()
    }

    /// The same name once more.
    pub fn copy(&self) -> Result<AgentName, AllocError>
        ensures { IfOk result (λ name. name ≡ self.now) }
    {
        let digits = SmallVec::from_slice(*self.digits.allocator(), self.digits.as_slice())?;
        Ok(AgentName {
            start: self.start,
            digits,
        })
    }

    /// The name of the child with this digit. It is `Deep` where the name has `MAX_DEPTH` digits, and only there.
    pub fn child(&self, digit: u8) -> Result<AgentName, ChildFault>
        requires { digit < 4 }
        ensures ok { IfOk result (λ name. name ≡ child_name self.now digit) }
        ensures deep { IsErrOf result ChildFault.Deep ↔ (depth_of self.now ≡ MAX_DEPTH) }
    {
        if self.digits.len() == MAX_DEPTH {
            return Err(ChildFault::Deep);
        }
        let name = self.copy().map_err(|_| ChildFault::Memory)?;
        name.into_child(digit).map_err(|_| ChildFault::Memory)
    }

    /// The name of the child with this digit, made of the name itself. The name has fewer than `MAX_DEPTH` digits.
    pub fn into_child(mut self, digit: u8) -> Result<AgentName, AllocError>
        requires small { digit < 4 }
        requires room { depth_of self < MAX_DEPTH }
        ensures { IfOk result (λ name. name ≡ child_name self digit) }
    {
        self.digits.push(digit)?;
        Ok(self)
    }

    /// The name that the bytes write: a start number without leading zeros, then a dot and a digit from 0 to 3 for each
    /// generation.
    ///
    /// It is `BadName` where the bytes are no such text, with the offset of the first byte with which they begin none,
    /// or their length where they break off. It is `Deep` for such a text with more than `MAX_DEPTH` digits. Only
    /// the text of a name can be `Memory`.
    pub fn read(alloc: Global, bytes: &[u8]) -> Result<AgentName, NameFault>
        ensures ok { IfOk result (λ name. bytes.now ≡ name_text name) }
        ensures bad { (k : ℕ) → (result ≡ Err (NameFault.BadName k)) ↔ IsBadAt bytes.now k }
        ensures deep { IsErrOf result NameFault.Deep ↔ IsDeepText bytes.now }
        ensures named { IsOkUnless result NameFault.Memory ↔ IsShallowText bytes.now }
        ensures reads { Reads bytes.now result }
    {
        let shape = match Shape::of(bytes) {
            Ok(shape) => shape,
            Err(offset) => return Err(NameFault::BadName(offset)),
        };
        if shape.generations > MAX_DEPTH {
            return Err(NameFault::Deep);
        }
        match shape.digits(alloc, bytes) {
            Ok(digits) => Ok(AgentName {
                start: shape.start,
                digits,
            }),
            Err(_) => Err(NameFault::Memory),
        }
    }

    /// Writes the text of the name at the end of `out`: the start number in decimal, then a dot and a digit for
    /// each generation. If memory runs out, `out` is as before.
    pub fn write_to(&self, out: &mut Vec<u8>) -> Result<(), AllocError>
        ensures ok { OnOk result (out.new.items ≡ out.old.items ++ name_text self.now) }
        ensures err { OnErr result (out.new.items ≡ out.old.items) }
    {
        let mut buffer = Buffer::new();
        let start = buffer.format(self.start).as_bytes();
        let digits = self.digits.as_slice();
        out.reserve(start.len() + 2 * digits.len())?;
        let Ok(()) = out.extend_from_slice(start) else {
            unreachable!()
        };
        for digit in digits {
            out.push_reserved(b'.');
            out.push_reserved(b'0' + *digit);
        }
        Ok(())
    }
}

impl PartialEq for AgentName {
    ghost eq = { eq_by_cmp name_cmp };

    ghost laws = { Prim.search (comparing, rules) };

    fn eq(&self, other: &AgentName) -> bool {
        self.cmp(other).is_eq()
    }
}

impl Eq for AgentName {
    ghost laws = { Prim.search (comparing, rules) };
}

/// Fewer digits first, then the lesser start number, then digits from the left. It takes no memory.
impl Ord for AgentName {
    ghost cmp = { name_cmp };

    ghost total = { Prim.search (comparing, rules) };

    ghost matches_partial_cmp = { Prim.search (comparing, rules) };

    ghost matches_eq = { Prim.search (comparing, rules) };

    fn cmp(&self, other: &AgentName) -> Ordering {
        self.digits
            .len()
            .cmp(&other.digits.len())
            .then(self.start.cmp(&other.start))
            .then_with(|| self.digits.as_slice().cmp(other.digits.as_slice()))
    }
}

impl PartialOrd for AgentName {
    ghost partial_cmp = { as_partial_cmp name_cmp };

    ghost laws = { partial_order_from_own_ties (Prim.search (comparing, rules)) (Prim.search (comparing, rules)) };

    fn partial_cmp(&self, other: &AgentName) -> Option<Ordering> {
        Some(self.cmp(other))
    }
}
