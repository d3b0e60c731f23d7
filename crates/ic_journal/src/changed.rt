ghost use Rattle.std.specs.Prelude.{IfOk};
ghost use Rattle.ic_history.specs.Changed.{AreChangedLeads};

use crate::bench::Bench;
use ic_link::LinkStore;
use ic_names::NameId;
use std::alloc::AllocError;

impl<L: LinkStore> Bench<L> {
    /// The places of the names of the agents that lead an event that a line from this one on fired or undid, in the order of
    /// these lines: one that several of them changed stands there as often. At an error memory ran out.
    pub fn changed_leads_since(&self, line: usize) -> Result<Vec<NameId>, AllocError>
        ensures { IfOk result (λ leads. AreChangedLeads self.now.names self.now.lines line leads.items) }
    {
        self.history.leads_changed_since(self.alloc, line)
    }
}
