ghost use Rattle.std.specs.Prelude.{◌≡◌, ◌≢◌, ◌^◌, ◌<◌, ◌≤◌, ◌∷◌, [], ◌++◌, length, option_to_list, ◌↔◌, IsFalse, IfSome, IfNone, OnOk};
ghost use Rattle.std.specs.declared.cmp.Ordering.TheVariants.{Less};
ghost use Rattle.ic_name.specs.Names.{name_cmp};
ghost use Rattle.ic_path.specs.Orders.{Alike};
ghost use Rattle.ic_names.specs.Tables.{name_at};
ghost use Rattle.ic_names.specs.Queues.{places, lead_at, name_of, IsNamed, IsRun};

use crate::NameTable;
use crate::queue::Lead;
use crate::queue::order::comes_before;
use std::alloc::{AllocError, Global};
use std::collections::VecDeque;
use std::marker::Model;

/// Leads in order, the least first.
#[derive(Drop)]
pub struct LeadRun {
    leads: VecDeque<Lead>,
}

impl Model for LeadRun {
    ghost use Rattle.std.specs.VecDeque.{deque_capacity};
    ghost use Rattle.ic_names.specs.Queues.{LeadsView};

    ghost Value = { LeadsView };

    ghost view = { λ r. record { leads = r.leads.items; room = deque_capacity r.leads } };
}

impl LeadRun {
    /// No leads. It takes no memory yet.
    pub fn new(alloc: Global) -> LeadRun
        ensures { result.leads ≡ [] }
    {
        LeadRun {
            leads: VecDeque::new(alloc),
        }
    }

    /// The number of leads.
    pub fn len(&self) -> usize
        ensures count { result ≡ length self.now.leads }
        ensures small { result < 2 ^ 63 }
    {
        self.leads.len()
    }

    /// The lead at this index.
    pub fn lead(&self, at: usize) -> Lead
        requires { at < length self.now.leads }
        ensures { result ≡ lead_at self.now.leads at }
    {
        self.leads[at]
    }

    /// Makes room for so many leads. It is an error only if no memory is left. The leads stay, and the room never shrinks.
    #[inline(always)]
    pub fn grow_to(&mut self, leads: usize) -> Result<(), AllocError>
        ensures same { self.new.leads ≡ self.old.leads }
        ensures kept { self.old.room ≤ self.new.room }
        ensures reserved { OnOk result (leads ≤ self.new.room) }
    {
        self.leads.reserve(leads.saturating_sub(self.leads.len()))
    }

    /// The lead comes in at the start or at the end, if it belongs at one of them. The answer is the lead that the run has no
    /// place for. That is this one, if it belongs between two leads or at the end of a full run. If it comes in at the start of
    /// a full run, that is the last. It takes constant time, and no memory.
    pub fn put(&mut self, names: &NameTable, lead: Lead) -> Option<Lead>
        requires run { IsRun names.now self.old.leads }
        requires named { IsNamed names.now lead }
        requires room { 0 < self.old.room }
        ensures run { IsRun names.now self.new.leads }
        ensures put { IfNone result (Alike (places self.new.leads) (lead.name.place ∷ places self.old.leads)) }
        ensures left { IfSome result (λ left. Alike (left.name.place ∷ places self.new.leads) (lead.name.place ∷ places self.old.leads)) }
        ensures named { IfSome result (λ left. IsNamed names.now left) }
        ensures behind { IfSome result (λ left. name_cmp (name_at names.now left.name.place) (name_of names.now self.new.leads 0) ≢ Less) }
        ensures first { 0 < length self.old.leads → name_cmp (name_of names.now self.old.leads 0) (name_of names.now self.new.leads 0) ≢ Less }
        ensures some { 0 < length self.new.leads }
        ensures room { self.new.room ≡ self.old.room }
    {
        let len = self.leads.len();
        if len == 0 || comes_before(names, lead, self.lead(0)) {
            let last = self.pop_if_full();
            self.push_first(lead);
            return last;
        }
        if self.is_full() || !comes_before(names, self.lead(len - 1), lead) {
            return Some(lead);
        }
        self.leads.push_back_reserved(lead);
        None
    }

    /// A lead comes in at the start. It takes no memory.
    pub fn push_first(&mut self, lead: Lead)
        requires { length self.old.leads < self.old.room }
        ensures pushed { self.new.leads ≡ lead ∷ self.old.leads }
        ensures room { self.new.room ≡ self.old.room }
    {
        self.leads.push_front_reserved(lead);
    }

    /// The first lead goes, and there is room for another; `None` if there is none.
    pub fn pop_first(&mut self) -> Option<Lead>
        ensures popped { IfSome result (λ lead. self.old.leads ≡ lead ∷ self.new.leads) }
        ensures freed { IfSome result (λ _. length self.new.leads < self.new.room) }
        ensures none { IfNone result (self.old.leads ≡ []) }
        ensures unchanged { IfNone result (self.new ≡ self.old) }
        ensures room { self.new.room ≡ self.old.room }
    {
        self.leads.pop_front()
    }

    /// Whether there is no room for another lead.
    fn is_full(&self) -> bool
        ensures { IsFalse result ↔ (length self.now.leads < self.now.room) }
    {
        self.leads.len() >= self.leads.capacity()
    }

    /// The last lead goes, if there is no room for another.
    fn pop_if_full(&mut self) -> Option<Lead>
        requires { 0 < self.old.room }
        ensures popped { self.old.leads ≡ self.new.leads ++ option_to_list result }
        ensures freed { length self.new.leads < self.new.room }
        ensures room { self.new.room ≡ self.old.room }
    {
        if !self.is_full() {
            return None;
        }
        self.leads.pop_back()
    }
}
