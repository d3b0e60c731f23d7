ghost use Rattle.std.specs.Prelude.{◌≡◌, ◌+◌, ◌<◌, ◌≤◌, ◌++◌, ◌∷◌, [], length, map, reverse, OnOk, OnErr, IfErr};
ghost use Rattle.ic_name.specs.declared.limits.TheConstants.{MAX_LINES};
ghost use Rattle.ic_history.specs.Kept.{line_of, IsPlaced};
ghost use Rattle.ic_history.specs.Noted.{NotActive, Undone};

use crate::kept::KeptLine;
use crate::proposal::Proposal;
use ic_name::EventId;
use ic_name::limits::MAX_LINES;
use std::alloc::{AllocError, Global};
use std::marker::Model;

/// The lines of a history, and room for further ones; never more than `MAX_LINES` together. The proposals of events that
/// weren't active are kept apart from their lines.
#[derive(Drop)]
pub struct History {
    pub(crate) lines: Vec<KeptLine>,
    pub(crate) inactive: Vec<Proposal>,
}

impl Model for History {
    ghost use Rattle.std.specs.Prelude.{◌-◌, length, map, min, vec_capacity};
    ghost use Rattle.ic_name.specs.declared.limits.TheConstants.{MAX_LINES};
    ghost use Rattle.ic_history.specs.Histories.{HistoryView};
    ghost use Rattle.ic_history.specs.Kept.{line_of, IsWhole};

    ghost Value = { HistoryView };

    ghost view = { λ h. record { lines = map (line_of h.inactive.items) h.lines.items; room = min MAX_LINES (vec_capacity h.lines) - length h.lines.items } };

    ghost invariant = { λ h. IsWhole h.inactive.items h.lines.items };
}

impl History {
    /// No line, and no room. It takes no memory yet.
    pub fn new(alloc: Global) -> History
        ensures lines { result.lines ≡ [] }
        ensures room { result.room ≡ 0 }
    {
        History {
            lines: Vec::new(alloc),
            inactive: Vec::new(alloc),
        }
    }

    /// The invariant of every history.
    fn lawful(&self)
        ensures { length self.now.lines + self.now.room ≤ MAX_LINES }
    {
        let _ = &self.lines;
    }

    /// The number of lines.
    pub fn line_count(&self) -> usize
        ensures count { result ≡ length self.now.lines }
        ensures few { result ≤ MAX_LINES }
    {
        self.lines.len()
    }

    /// The lines for which there is room.
    pub fn room(&self) -> usize
        ensures { result ≡ self.now.room }
    {
        self.lines.capacity().min(MAX_LINES) - self.lines.len()
    }

    /// Makes room for so many lines. If there is room already, it takes no memory; at an error nothing changes.
    pub fn reserve(&mut self, lines: usize) -> Result<(), AllocError>
        requires { length self.old.lines + lines ≤ MAX_LINES }
        ensures lines { self.new.lines ≡ self.old.lines }
        ensures more { self.old.room ≤ self.new.room }
        ensures room { OnOk result (lines ≤ self.new.room) }
        ensures error { OnErr result (self.new ≡ self.old) }
        ensures wanting { OnErr result (self.old.room < lines) }
        ensures few { length self.new.lines + self.new.room ≤ MAX_LINES }
    {
        self.lines.reserve(lines)?;
        Ok(())
    }

    /// Notes a line that tells no such proposal, where there is room. It takes no memory.
    pub fn note(&mut self, line: KeptLine)
        requires room { 1 ≤ self.old.room }
        requires placed { IsPlaced [] line }
        ensures lines { self.new.lines ≡ self.old.lines ++ line_of [] line ∷ [] }
        ensures room { self.old.room ≡ self.new.room + 1 }
        ensures few { length self.new.lines + self.new.room ≤ MAX_LINES }
    {
        self.lines.push_reserved(line);
    }

    /// Notes a line for each of these events, the last one first, that its firing was undone. There is room for them. It takes
    /// no memory.
    pub fn note_undone(&mut self, ids: &[EventId])
        requires room { length ids.now ≤ self.old.room }
        ensures lines { self.new.lines ≡ self.old.lines ++ map (λ d. Undone d.line) (reverse ids.now) }
        ensures room { self.old.room ≡ self.new.room + length ids.now }
        ensures few { length self.new.lines + self.new.room ≤ MAX_LINES }
    {
        self.lawful();
        for place in (0..ids.len()).rev() {
            self.note(KeptLine::Undone(ids[place].line));
        }
    }

    /// Notes that the event of a proposal wasn't active, where there is room for a line. At an error memory ran out; the
    /// proposal is handed back, and nothing changes.
    pub fn note_not_active(&mut self, proposal: Proposal) -> Result<(), Proposal>
        requires { 1 ≤ self.old.room }
        ensures lines { OnOk result (self.new.lines ≡ self.old.lines ++ NotActive proposal ∷ []) }
        ensures room { OnOk result (self.old.room ≡ self.new.room + 1) }
        ensures few { OnOk result (length self.new.lines + self.new.room ≤ MAX_LINES) }
        ensures error { OnErr result (self.new ≡ self.old) }
        ensures back { IfErr result (λ back. back ≡ proposal) }
    {
        let place = self.inactive.len() as u32;
        match self.inactive.push(proposal) {
            Ok(()) => {
                self.lines.push_reserved(KeptLine::NotActive(place));
                Ok(())
            }
            Err(failed) => Err(failed.value),
        }
    }
}
