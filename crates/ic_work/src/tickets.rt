ghost use Rattle.std.specs.Prelude.{◌≡◌, ◌+◌, ◌<◌, ◌≤◌, IfSome, IfNone};
ghost use Rattle.ic_work.specs.declared.limits.TheConstants.{MOST};

use crate::limits::MOST;
use ic_claim::Ticket;

/// Tickets that a worker has drawn and hasn't used, at most as many as a run may use.
#[derive(Drop)]
pub(crate) struct Unused {
    tickets: [Ticket; MOST],
    pub count: usize,
    ghost few: { count ≤ MOST },
}

impl Unused {
    /// No ticket.
    pub fn none() -> Unused
        ensures { result.count ≡ 0 }
    {
        Unused {
            tickets: [Ticket { number: 0 }; MOST],
            count: 0,
        }
    }

    /// One ticket more.
    pub fn push(&mut self, ticket: Ticket)
        requires { self.old.count < MOST }
        ensures { self.new.count ≡ self.old.count + 1 }
    {
        self.tickets[self.count] = ticket;
        self.count += 1;
    }

    /// The ticket that was drawn last.
    pub fn pop(&mut self) -> Option<Ticket>
        ensures some { IfSome result (λ _. self.new.count + 1 ≡ self.old.count) }
        ensures none { IfNone result ((self.new.count ≡ 0) × (self.old.count ≡ 0)) }
    {
        if self.count == 0 {
            return None;
        }
        self.count -= 1;
        Some(self.tickets[self.count])
    }
}
