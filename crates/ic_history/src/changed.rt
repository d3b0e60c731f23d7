ghost use Rattle.std.specs.Prelude.{◌≡◌, ◌≢◌, ◌<◌, ◌↔◌, List, length, map, slice_get, Some, IfSome, IfNone, IfOk};
ghost use Rattle.ic_name.specs.Names.{Name};
ghost use Rattle.ic_roster.specs.declared.interaction.Interaction.{Interaction as AnInteraction};
ghost use Rattle.ic_history.specs.Changed.{AreChangedLeads, IsLeadChangedIn, name_told};
ghost use Rattle.ic_history.specs.Noted.{Fired, line_in, AreLinesNamed};

use crate::history::History;
use crate::kept::KeptLine;
use ic_names::NameId;
use std::alloc::{AllocError, Global};

impl History {
    /// The places of the names of the agents that lead an event that a line from this one on fired or undid, in the order of
    /// these lines: one that several of them changed stands there as often. At an error memory ran out.
    pub fn leads_changed_since(&self, alloc: Global, line: usize) -> Result<Vec<NameId>, AllocError>
        ensures { IfOk result (λ leads. (ns : List Name) → AreLinesNamed ns self.now.lines → AreChangedLeads ns (map (line_in ns) self.now.lines) line leads.items) }
    {
        let mut leads = Vec::with_capacity(alloc, self.line_count().saturating_sub(line))?;
        for number in line..self.line_count() {
            if let Some(lead) = self.lead_changed_in(number) {
                leads.push(lead)?;
            }
        }
        Ok(leads)
    }

    /// The place of the name of the agent that leads the event that the line with this number fired or undid; `None` where
    /// there is none. It takes no memory.
    fn lead_changed_in(&self, number: usize) -> Option<NameId>
        ensures inside { (ns : List Name) → AreLinesNamed ns self.now.lines → IfSome result (λ lead. lead.place < length ns) }
        ensures lead { (ns : List Name) → AreLinesNamed ns self.now.lines → (n : Name) → (name_told ns result ≡ Some n) ↔ IsLeadChangedIn (map (line_in ns) self.now.lines) number n }
    {
        match self.lines.get(number)? {
            KeptLine::Undone(fired) => self.lead_fired_in(*fired as usize),
            _ => self.lead_fired_in(number),
        }
    }

    /// The place of the name of the agent that leads the event that the line with this number fired; `None` where there is
    /// none. It takes no memory.
    pub fn lead_fired_in(&self, number: usize) -> Option<NameId>
        ensures found { IfSome result (λ lead. (i : AnInteraction) × (slice_get self.now.lines number ≡ Some (Fired i)) × (i.lead ≡ lead)) }
        ensures none { IfNone result ((i : AnInteraction) → slice_get self.now.lines number ≢ Some (Fired i)) }
    {
        match self.lines.get(number)? {
            KeptLine::Fired(_, places) => Some(places.lead),
            _ => None,
        }
    }
}
