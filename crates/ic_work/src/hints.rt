use crate::limits::BUSY_BEFORE_OTHERS;
use crossbeam_deque::{Steal, Stealer, Worker as Deque};
use ic_journal::ActivePair;
use ic_name::AgentId;
use std::collections::VecDeque;
use std::sync::Wait;

/// What a worker may follow.
#[derive(Clone, Copy)]
pub(crate) enum Hint {
    /// An agent that may be of an active pair.
    Agent(AgentId),
    /// Leads that the sweep began with, from one place to before another. The first one is followed first.
    Leads { from: usize, to: usize },
}

/// The hints that a worker looks through: its own, and those of all. Its own have this place among all.
#[derive(Drop)]
pub(crate) struct Sources<'a> {
    pub own: &'a mut Deque<Hint>,
    pub all: &'a [Stealer<Hint>],
    pub place: usize,
}

impl Sources<'_> {
    /// A hint of the worker's own, or one that is stolen from another; it looks twice before it finds none. So many in a row were
    /// busy, and each went to the end of its own hints. If these are all that it has, or `BUSY_BEFORE_OTHERS`, those of other
    /// workers come first.
    pub fn find<R: Wait>(&mut self, rt: &R, busy: u32) -> Option<Hint> {
        let others_first = busy > 0 && self.own.len().min(BUSY_BEFORE_OTHERS) <= busy as usize;
        for _ in 0..2u32 {
            let hint = self.look(rt, others_first);
            if hint.is_some() {
                return hint;
            }
        }
        None
    }

    /// A hint, if one is found at this moment.
    fn look<R: Wait>(&mut self, rt: &R, others_first: bool) -> Option<Hint> {
        if others_first {
            return self.steal(rt).or_else(|| self.own.pop());
        }
        let hint = self.own.pop();
        if hint.is_some() {
            return hint;
        }
        self.steal(rt)
    }

    /// A hint that is stolen from another worker, with others that come among its own. The next worker is looked at first, so that
    /// not all steal from one.
    fn steal<R: Wait>(&mut self, rt: &R) -> Option<Hint> {
        let behind = self.all.iter().skip(self.place).skip(1);
        for other in behind.chain(self.all.iter().take(self.place)) {
            for _ in rt.forever() {
                match other.steal_batch_and_pop(self.own) {
                    Steal::Success(hint) => return Some(hint),
                    Steal::Empty => break,
                    Steal::Retry => {}
                }
            }
        }
        None
    }
}

/// The agent of a hint, if it tells one: of a block the first one, and the others go back among the worker's own hints.
pub(crate) fn agent_of(own: &mut Deque<Hint>, leads: &[AgentId], hint: Hint) -> Option<AgentId> {
    match hint {
        Hint::Agent(agent) => Some(agent),
        Hint::Leads { from, to } => {
            let next = from.checked_add(1)?;
            if next < to {
                let _ = own.push(Hint::Leads { from: next, to });
            }
            leads.get(from).copied()
        }
    }
}

/// Takes so many agents of the worker's own hints for a run, if there are as many. If memory runs out, some are dropped.
pub(crate) fn gather(
    own: &mut Deque<Hint>,
    leads: &[AgentId],
    most: usize,
    near: &mut VecDeque<AgentId>,
) {
    for _taken in 0..most {
        if near.len() >= most {
            return;
        }
        let Some(hint) = own.pop() else {
            return;
        };
        match hint {
            Hint::Agent(agent) => {
                let _ = near.push_back(agent);
            }
            Hint::Leads { from, to } => {
                for place in from..to {
                    if let Some(lead) = leads.get(place) {
                        let _ = near.push_back(*lead);
                    }
                }
            }
        }
    }
}

/// Puts what a run left out among the worker's own hints again. If memory runs out, some are dropped.
pub(crate) fn put_back(own: &mut Deque<Hint>, near: &mut VecDeque<AgentId>) {
    for _left in 0..near.len() {
        if let Some(agent) = near.pop_front() {
            let _ = own.push(Hint::Agent(agent));
        }
    }
}

/// Puts the leads of these pairs among the agents of a run, each once: before the others, or after them. It tells whether there
/// were any. If memory runs out, they are dropped.
pub(crate) fn put_out(
    near: &mut VecDeque<AgentId>,
    pairs: [Option<ActivePair>; 4],
    first: bool,
) -> bool {
    let mut any = false;
    for place in 0..pairs.len() {
        if let Some(pair) = pairs[place] {
            any = true;
            if !pairs[..place].contains(&Some(pair)) {
                let _ = if first {
                    near.push_front(pair.lead)
                } else {
                    near.push_back(pair.lead)
                };
            }
        }
    }
    any
}
