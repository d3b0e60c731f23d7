ghost use Rattle.std.specs.Prelude.{◌≡◌, ◌↔◌, map, slice_get, IsTrue, Some, IfSome, IfNone, IfOk};
ghost use Rattle.ic_roster.specs.declared.interaction.Interaction.{Interaction as AnInteraction};
ghost use Rattle.ic_history.specs.Noted.{NotedLine as ANotedLine, line_in, AreLinesNamed};
ghost use Rattle.ic_history.specs.Notes.{noted_of, IsOfAPair};

use crate::history::History;
use crate::notes::PairNote;
use ic_name::{Call, Line, Reply};
use ic_names::NameTable;
use ic_roster::Roster;
use std::alloc::{AllocError, Global};

impl History {
    /// Whether there is a line with this number, and it is this call with this reply, by a table with the names.
    pub fn line_is(&self, names: &NameTable, number: usize, call: &Call, reply: Reply) -> bool
        requires { AreLinesNamed names.now self.now.lines }
        ensures { IsTrue result ↔ (slice_get (map (line_in names.now) self.now.lines) number ≡ Some (record { call = call.now; reply = reply })) }
    {
        match self.lines.get(number) {
            Some(line) => { line.has_call(&self.inactive, names, call) && line.reply() == reply }
            None => false,
        }
    }

    /// The note of the line with this number; `None` where there is none, or it isn't a call to fire an active pair.
    pub fn note_of(&self, number: usize) -> Option<PairNote>
        ensures noted { IfSome result (λ note. slice_get self.now.lines number ≡ Some (noted_of note)) }
        ensures none { IfNone result ((l : ANotedLine) → slice_get self.now.lines number ≡ Some l → ¬ (IsOfAPair l)) }
    {
        self.lines.get(number)?.note()
    }

    /// The lines with the names of a roster. At an error memory ran out.
    pub fn read(&self, alloc: Global, roster: &Roster) -> Result<Vec<Line>, AllocError>
        requires { AreLinesNamed roster.now.names self.now.lines }
        ensures { IfOk result (λ lines. lines.items ≡ map (line_in roster.now.names) self.now.lines) }
    {
        let mut lines = Vec::with_capacity(alloc, self.lines.len())?;
        for line in &self.lines {
            lines.push(line.read(&self.inactive, roster)?)?;
        }
        Ok(lines)
    }
}
