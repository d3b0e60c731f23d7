//! A queue of names by their places in a table, from which the least name is taken first.
ghost use Rattle.std.specs.Prelude.{◌≡◌, ℕ, ◌<◌, ◌≤◌, ◌∷◌, ◌++◌, [], ◌⊎◌, ◌↔◌, List, length, vec_capacity, IsTrue, IfSome, IfNone, IfOk, OnOk, OnErr};
ghost use Rattle.ic_name.specs.Names.{Name};
ghost use Rattle.ic_path.specs.Orders.{Alike, IsIn};
ghost use Rattle.ic_names.specs.Queues.{places, lead_at, leads_of, IsRun, IsHeap, IsQueue, IsLeast, StandOnce};

pub mod laws;
mod order;
mod run;
mod sifting;

use crate::queue::order::comes_before;
use crate::queue::run::LeadRun;
use crate::queue::sifting::{put, take_top};
use crate::{NameId, NameKey, NameTable};
use std::alloc::{AllocError, Global};
use std::marker::Model;

/// `reserve` makes room in the run for so many leads at most.
const RUN_ROOM: usize = 1_024;

/// A queue of names by their places in a table, the least name first, and each once. Names that come in order, each less or
/// each greater than all others, lie in a run. All others lie in a heap, and so do those for which the run has no room. Names
/// are compared by their keys, and the table is asked only if two keys are equal.
///
/// The names are those of one table, which each call that compares is given. Which of them still lead a pair is the
/// caller's business.
///
/// The least name is the run's first. The flags say which names are in the queue. The heap has room for as many names as
/// there are flags. As soon as there is a flag, the run has room for a name.
#[derive(Drop)]
pub struct LeadQueue {
    run: LeadRun,
    heap: Vec<Lead>,
    queued: Vec<bool>,
}

/// A name by its place, with its key.
#[derive(Clone, Copy)]
pub struct Lead {
    pub key: NameKey,
    pub name: NameId,
}

impl Model for LeadQueue {
    ghost use Rattle.std.specs.Prelude.{length, vec_capacity};
    ghost use Rattle.ic_names.specs.Queues.{QueueView, GoTogether};

    ghost Value = { QueueView };

    ghost view = { λ q. record { run = q.run.leads; heap = q.heap.items; room = length q.queued.items } };

    ghost invariant = { λ q. GoTogether q.run q.heap.items (vec_capacity q.heap) q.queued.items };
}

impl LeadQueue {
    /// No names. It takes no memory yet.
    pub fn new(alloc: Global) -> LeadQueue
        ensures empty { leads_of result ≡ [] }
        ensures queue { (ns : List Name) → IsQueue ns result }
    {
        LeadQueue {
            run: LeadRun::new(alloc),
            heap: Vec::new(alloc),
            queued: Vec::new(alloc),
        }
    }

    /// The invariant of every queue.
    pub fn lawful(&self)
        ensures { StandOnce (leads_of self.now) }
    {
        let _ = &self.queued;
    }

    /// The number of names in the queue.
    pub fn len(&self) -> usize
        ensures { result ≡ length (leads_of self.now) }
    {
        self.run.len() + self.heap.len()
    }

    /// The name at this index, with its key. The least is the first. The others are in no order.
    pub fn lead(&self, at: usize) -> Lead
        requires { at < length (leads_of self.now) }
        ensures { result ≡ lead_at (leads_of self.now) at }
    {
        let behind = self.run.len();
        if at < behind {
            return self.run.lead(at);
        }
        self.heap[at - behind]
    }

    /// The names in the queue with their keys.
    pub fn to_vec(&self, alloc: Global) -> Result<Vec<Lead>, AllocError>
        ensures { IfOk result (λ leads. leads.items ≡ leads_of self.now) }
    {
        let mut leads = Vec::with_capacity(alloc, self.len())?;
        for at in 0..self.len() {
            leads.push_reserved(self.lead(at));
        }
        Ok(leads)
    }

    /// Makes room for the names of a table that has so many. It is an error only if no memory is left. The queue stays as
    /// it is, and the room never shrinks.
    #[inline(always)]
    pub fn reserve(&mut self, names: usize) -> Result<(), AllocError>
        ensures same { leads_of self.new ≡ leads_of self.old }
        ensures queue { (ns : List Name) → IsQueue ns self.old → IsQueue ns self.new }
        ensures kept { self.old.room ≤ self.new.room }
        ensures reserved { OnOk result (names ≤ self.new.room) }
    {
        if names <= self.queued.len() {
            return Ok(());
        }
        self.make_room(names)
    }

    /// Makes room for so many names, more than there is room for. Afterwards there are as many flags as the heap has room for,
    /// so most later calls of `reserve` need no memory.
    #[cold]
    #[inline(never)]
    fn make_room(&mut self, names: usize) -> Result<(), AllocError>
        requires { self.old.room < names }
        ensures run { self.new.run ≡ self.old.run }
        ensures heap { self.new.heap ≡ self.old.heap }
        ensures kept { self.old.room ≤ self.new.room }
        ensures reserved { OnOk result (names ≤ self.new.room) }
    {
        self.heap.reserve(names.saturating_sub(self.heap.len()))?;
        let room = self.heap.capacity();
        self.run.grow_to(room.clamp(1, RUN_ROOM))?;
        self.queued.resize(room, false)
    }

    /// Makes room in the run for so many names. `reserve` makes room there for 1,024 at most: a queue that will hold more
    /// names in order is faster if the run has room for them all. It is an error only if no memory is left. The queue stays as
    /// it is.
    pub fn reserve_run(&mut self, leads: usize) -> Result<(), AllocError>
        ensures same { leads_of self.new ≡ leads_of self.old }
        ensures queue { (ns : List Name) → IsQueue ns self.old → IsQueue ns self.new }
        ensures room { self.new.room ≡ self.old.room }
    {
        self.run.grow_to(leads)
    }

    /// The name at this place comes in, if it isn't in the queue yet, in the room there is. It takes no memory. The time is
    /// constant if the run has room and the name is less than all in it, or greater. Else it grows as the logarithm of the
    /// number of names.
    #[inline(always)]
    pub fn put(&mut self, names: &NameTable, name: NameId)
        requires inside { name.place < length names.now }
        requires queue { IsQueue names.now self.old }
        requires room { length names.now ≤ self.old.room }
        ensures queue { IsQueue names.now self.new }
        ensures entered { (n : ℕ) → IsIn n (places (leads_of self.new)) ↔ ((n ≡ name.place) ⊎ IsIn n (places (leads_of self.old))) }
        ensures room { self.old.room ≤ self.new.room }
    {
        if self.has(name) {
            return;
        }
        let key = names.key(name);
        self.queued[name.place as usize] = true;
        let Some(left) = self.run.put(names, Lead { key, name }) else {
            return;
        };
        put(&mut self.heap, names, left);
    }

    /// The place of the least name, in constant time; `None` if the queue is empty. It takes no memory.
    #[inline(always)]
    pub fn least(&self) -> Option<NameId>
        ensures least { IfSome result (λ name. (ns : List Name) → IsQueue ns self.now → IsLeast ns (leads_of self.now) name.place) }
        ensures none { IfNone result (leads_of self.now ≡ []) }
    {
        if self.run.len() == 0 {
            return None;
        }
        Some(self.run.lead(0).name)
    }

    /// The least name goes; `None` if the queue is empty, and then nothing changes. It takes no memory. The time is constant,
    /// unless a name of the heap becomes the least: then it grows as the logarithm of the number of names.
    #[inline(always)]
    pub fn take_least(&mut self, names: &NameTable) -> Option<NameId>
        requires queue { IsQueue names.now self.old }
        ensures queue { IsQueue names.now self.new }
        ensures least { IfSome result (λ name. IsLeast names.now (leads_of self.old) name.place) }
        ensures others { IfSome result (λ name. Alike (places (leads_of self.old)) (name.place ∷ places (leads_of self.new))) }
        ensures room { self.old.room ≤ self.new.room }
        ensures none { IfNone result (leads_of self.old ≡ []) }
        ensures unchanged { IfNone result (self.new ≡ self.old) }
    {
        let least = self.run.pop_first()?;
        bring_top(&mut self.run, &mut self.heap, names);
        self.queued[least.name.place as usize] = false;
        Some(least.name)
    }

    /// Whether the name is in the queue, in constant time.
    fn has(&self, name: NameId) -> bool
        ensures { IsTrue result ↔ IsIn name.place (places (leads_of self.now)) }
    {
        self.queued
            .get(name.place as usize)
            .copied()
            .unwrap_or(false)
    }
}

/// The heap's top goes to the start of the run, if the run is empty or the top is less than its first. It takes no memory.
fn bring_top(run: &mut LeadRun, heap: &mut Vec<Lead>, names: &NameTable)
    requires run { IsRun names.now run.old.leads }
    requires heap { IsHeap names.now heap.old.items }
    requires room { length run.old.leads < run.old.room }
    ensures queue { IsQueue names.now (record { run = run.new.leads; heap = heap.new.items; room = run.new.room }) }
    ensures some { run.new.leads ≡ [] → heap.new.items ≡ [] }
    ensures alike { Alike (places (run.old.leads ++ heap.old.items)) (places (run.new.leads ++ heap.new.items)) }
    ensures room { (run.new.room ≡ run.old.room) × (vec_capacity heap.new ≡ vec_capacity heap.old) }
{
    if heap.len() == 0 {
        return;
    }
    if run.len() > 0 && !comes_before(names, heap[0], run.lead(0)) {
        return;
    }
    run.push_first(take_top(heap, names));
}
