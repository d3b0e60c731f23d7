use ic_name::AgentName;
use ic_names::queue::laws;
use ic_names::{LeadQueue, NameId, NameTable};
use std::alloc::Global;
use std::marker::Model;

/// A queue of names with the table in which they stand.
#[derive(Drop)]
struct Waiting {
    names: NameTable,
    queue: LeadQueue,
}

impl Model for Waiting {
    ghost use Rattle.std.specs.Prelude.{List};
    ghost use Rattle.ic_name.specs.Names.{Name};
    ghost use Rattle.ic_names.specs.Queues.{IsQueue};

    ghost Value = { List Name };

    ghost view = { λ w. w.names };

    ghost invariant = { λ w. IsQueue w.names w.queue };
}

impl Waiting {
    /// No names.
    fn new(alloc: Global) -> Waiting {
        Waiting {
            names: NameTable::new(alloc),
            queue: LeadQueue::new(alloc),
        }
    }

    /// Enters the name in the table. It is `None` where memory is wanting.
    fn enter(&mut self, name: &AgentName) -> Option<NameId> {
        laws::queues_are_kept();
        match self.names.enter(name) {
            Ok(id) => Some(id),
            Err(_) => None,
        }
    }

    /// The name comes into the queue, in which there is room for every name of the table. It is `false` where it stands
    /// nowhere in the table, or memory is wanting.
    fn queue(&mut self, name: &AgentName) -> bool {
        let Some(id) = self.names.find(name) else {
            return false;
        };
        let Ok(_) = self.queue.reserve(self.names.len()) else {
            return false;
        };
        self.queue.put(&self.names, id);
        true
    }

    /// Makes room in the run for so many names. It is `false` if no memory is left.
    fn reserve_run(&mut self, leads: usize) -> bool {
        self.queue.reserve_run(leads).is_ok()
    }

    /// Whether the name is the least, and goes.
    fn takes(&mut self, name: &AgentName) -> bool {
        match self.names.find(name) {
            Some(id) => {
                self.queue.least() == Some(id) && self.queue.take_least(&self.names) == Some(id)
            }
            None => false,
        }
    }

    /// Whether there are so many leads, and the first of them has the name.
    fn starts_with(&self, alloc: Global, name: &AgentName, count: usize) -> bool {
        let Ok(leads) = self.queue.to_vec(alloc) else {
            return false;
        };
        match (leads.first(), self.names.find(name)) {
            (Some(lead), Some(id)) => lead.name == id && leads.len() == count,
            _ => false,
        }
    }

    /// Whether nothing can be taken.
    fn is_empty(&mut self) -> bool {
        self.queue.lawful();
        self.queue.least().is_none()
            && self.queue.take_least(&self.names).is_none()
            && self.queue.len() == 0
    }
}

/// Names by their texts, in their order. Some have more than 17 digits, of which the first 17 are the same.
const IN_ORDER: [&[u8]; 19] = [
    b"0",
    b"3",
    b"7",
    b"300",
    b"65534",
    b"0.1",
    b"3.0",
    b"3.2",
    b"0.1.0",
    b"7.1.2.3.0.1.2.3.0.1.2.3.0.1.2.3.0.1",
    b"7.1.2.3.0.1.2.3.0.1.2.3.0.1.2.3.0.2",
    b"7.1.2.3.0.1.2.3.0.1.2.3.0.1.2.3.0.1.0",
    b"7.1.2.3.0.1.2.3.0.1.2.3.0.1.2.3.0.1.3",
    b"8.1.2.3.0.1.2.3.0.1.2.3.0.1.2.3.0.1.2",
    b"7.1.2.3.0.1.2.3.0.1.2.3.0.1.2.3.0.1.0.3",
    b"7.1.2.3.0.1.2.3.0.1.2.3.0.1.2.3.0.1.1.0",
    b"7.1.2.3.0.1.2.3.0.1.2.3.0.1.2.3.0.1.1.2",
    b"7.1.2.3.0.1.2.3.0.1.2.3.0.1.2.3.0.2.0.0",
    b"8.1.2.3.0.1.2.3.0.1.2.3.0.1.2.3.0.1.1.1",
];

/// By how many rows two names are apart that are put in one behind the other, each time: twice in disorder, so that the
/// places of the names are in disorder too, in order, and from the last on.
const STEPS: [u8; 4] = [7, 11, 1, 18];

/// Puts in the name that a text writes. It is `false` where it can't.
fn put(alloc: Global, waiting: &mut Waiting, text: &[u8]) -> bool {
    match AgentName::read(alloc, text) {
        Ok(name) => waiting.enter(&name).is_some() && waiting.queue(&name),
        Err(_) => false,
    }
}

/// Puts in the name of the table that stands so many steps on, from its start again once it ends.
fn put_step(alloc: Global, waiting: &mut Waiting, step: u8, count: u8) -> bool {
    let row = usize::from(step) * usize::from(count) % 19;
    put(alloc, waiting, IN_ORDER[row])
}

/// Whether the name that a text writes is the least, and goes.
fn takes(alloc: Global, waiting: &mut Waiting, text: &[u8]) -> bool {
    match AgentName::read(alloc, text) {
        Ok(name) => waiting.takes(&name),
        Err(_) => false,
    }
}

/// Whether there are so many leads, and the first of them has the name that a text writes.
fn starts_with(alloc: Global, waiting: &Waiting, text: &[u8], count: usize) -> bool {
    match AgentName::read(alloc, text) {
        Ok(name) => waiting.starts_with(alloc, &name, count),
        Err(_) => false,
    }
}

#[test]
fn names_are_taken_in_order(rt: HostRuntime) {
    let mut waiting = Waiting::new(rt.alloc());
    assert!(rt; waiting.is_empty());
    for step in &STEPS {
        for count in 0..19 {
            assert!(rt; put_step(rt.alloc(), &mut waiting, *step, count));
        }
        for text in &IN_ORDER {
            assert!(rt; takes(rt.alloc(), &mut waiting, text), "at step {step}");
        }
        assert!(rt; waiting.is_empty());
    }
}

/// What is done to a queue, or asked of it.
#[derive(Clone, Copy)]
enum Step {
    Put(&'static [u8]),
    Takes(&'static [u8]),
    StartsWith(&'static [u8], usize),
    Has(usize),
    IsEmpty,
}

/// Names that come and go. Of the first five each belongs at an end of the run but the last two. These belong between others, so
/// they go into the heap. Then two names are put in that stand there already, and one comes again that went.
const COMINGS: [Step; 34] = [
    Step::Put(b"3.0"),
    Step::Put(b"0"),
    Step::Put(b"8.1"),
    Step::Put(b"7"),
    Step::Put(b"300"),
    Step::StartsWith(b"0", 5),
    Step::Takes(b"0"),
    Step::Put(b"3"),
    Step::Put(b"65534"),
    Step::StartsWith(b"3", 6),
    Step::Takes(b"3"),
    Step::Takes(b"7"),
    Step::Takes(b"300"),
    Step::Takes(b"65534"),
    Step::Takes(b"3.0"),
    Step::Takes(b"8.1"),
    Step::IsEmpty,
    Step::Put(b"5"),
    Step::Put(b"4.1"),
    Step::Put(b"5"),
    Step::Put(b"4"),
    Step::Put(b"4.1"),
    Step::Has(3),
    Step::Takes(b"4"),
    Step::Takes(b"5"),
    Step::Takes(b"4.1"),
    Step::IsEmpty,
    Step::Put(b"8"),
    Step::Put(b"6"),
    Step::Takes(b"6"),
    Step::Put(b"6"),
    Step::Takes(b"6"),
    Step::Takes(b"8"),
    Step::IsEmpty,
];

/// Whether a step can be done, or what it asks is so.
fn is_done(alloc: Global, waiting: &mut Waiting, step: Step) -> bool {
    match step {
        Step::Put(text) => put(alloc, waiting, text),
        Step::Takes(text) => takes(alloc, waiting, text),
        Step::StartsWith(text, count) => starts_with(alloc, waiting, text, count),
        Step::Has(count) => waiting.queue.len() == count,
        Step::IsEmpty => waiting.is_empty(),
    }
}

#[test]
fn a_name_stands_once_and_comes_again_and_those_of_the_heap_go_in_their_turn(rt: HostRuntime) {
    let mut waiting = Waiting::new(rt.alloc());
    for (place, step) in COMINGS.iter().enumerate() {
        assert!(rt; is_done(rt.alloc(), &mut waiting, *step), "at step {place}");
    }
}

/// Puts in the name of the start agent of this number. It is `false` where it can't.
fn put_start(alloc: Global, waiting: &mut Waiting, number: u16) -> bool {
    match AgentName::start(alloc, number) {
        Some(name) => waiting.enter(&name).is_some() && waiting.queue(&name),
        None => false,
    }
}

/// Whether the name of the start agent of this number is the least, and goes.
fn takes_start(alloc: Global, waiting: &mut Waiting, number: u16) -> bool {
    match AgentName::start(alloc, number) {
        Some(name) => waiting.takes(&name),
        None => false,
    }
}

/// Puts in the names of 2,500 start agents, beginning with this number, each of which is so many above the one before, from 0
/// again past 2,499. Whether all go in order.
fn come_and_go(alloc: Global, waiting: &mut Waiting, first: u16, step: u16) -> bool {
    for count in 0..2_500_u16 {
        let number = (usize::from(first) + usize::from(step) * usize::from(count)) % 2_500;
        if !put_start(alloc, waiting, number as u16) {
            return false;
        }
    }
    for number in 0..2_500 {
        if !takes_start(alloc, waiting, number) {
            return false;
        }
    }
    waiting.is_empty()
}

/// The first of the numbers and the step to the next: in disorder, rising, falling, and rising from the middle.
const ORDERS: [(u16, u16); 4] = [(0, 7), (0, 1), (2_499, 2_499), (1_250, 1)];

#[test]
fn names_come_and_go_where_the_run_is_full(rt: HostRuntime) {
    let mut waiting = Waiting::new(rt.alloc());
    for (first, step) in &ORDERS {
        assert!(rt;
            come_and_go(rt.alloc(), &mut waiting, *first, *step),
            "from {first} by {step}"
        );
    }
}

#[test]
fn names_come_and_go_where_the_run_has_room(rt: HostRuntime) {
    let mut waiting = Waiting::new(rt.alloc());
    assert!(rt; waiting.reserve_run(2_500));
    assert!(rt; come_and_go(rt.alloc(), &mut waiting, 0, 1));
}
