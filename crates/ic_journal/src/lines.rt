ghost use Rattle.std.specs.Prelude.{◌≡◌, ◌≢◌, ◌↔◌, IsTrue, IfSome, IfNone, Some, length, slice_get};
ghost use Rattle.ic_name.specs.Events.{Event as AnEvent};
ghost use Rattle.ic_name.specs.declared.lines.Call.TheVariants.{Fire};
ghost use Rattle.ic_name.specs.declared.lines.Line.{Line as ALine};
ghost use Rattle.ic_name.specs.declared.lines.Reply.{Reply as AReply};
ghost use Rattle.ic_name.specs.declared.lines.Reply.TheVariants.{NotActive};
ghost use Rattle.ic_path.specs.Orders.{IsIn};
ghost use Rattle.ic_roster.specs.Rosters.{Stander};
ghost use Rattle.ic_history.specs.Notes.{line_read};

use crate::bench::Bench;
use ic_history::PairNote;
use ic_link::LinkStore;
use ic_name::{Call, EventId, Reply};

impl<L: LinkStore> Bench<L> {
    /// The number of lines in the history. It takes no memory.
    pub fn lines(&self) -> u32
        ensures { result ≡ length self.now.lines }
    {
        self.history.line_count() as u32
    }

    /// The number of standing events. It takes no memory.
    pub fn standing_count(&self) -> usize
        ensures { result ≡ length self.now.events }
    {
        self.set.bare().roster().event_count()
    }

    /// The id of the event that was fired in this line, if it stands, in constant time: the history has the lead of each event
    /// that it fired. It takes no memory.
    pub fn standing_of(&self, line: u32) -> Option<EventId>
        ensures found { IfSome result (λ id. (x : Stander) × IsIn x self.now.events × (x.id ≡ id) × (id.line ≡ line)) }
        ensures absent { IfNone result ((x : Stander) → IsIn x self.now.events → x.id.line ≢ line) }
    {
        self.lawful();
        let lead = self.history.lead_fired_in(line as usize)?;
        let id = self.set.bare().roster().led_by(lead)?;
        if id.line != line {
            return None;
        }
        Some(id)
    }

    /// Whether the history has a line with this number, and it is this call with this reply. It takes no memory.
    pub fn line_is(&self, number: u32, call: &Call, reply: Reply) -> bool
        ensures { IsTrue result ↔ (slice_get self.now.lines number ≡ Some (record { call = call.now; reply = reply })) }
    {
        let names = self.set.bare().roster().names();
        self.history.line_is(names, number as usize, call, reply)
    }

    /// The note of the line with this number; `None` if there is none, or it isn't a call to fire an active pair. It takes
    /// no memory.
    pub fn note_of(&self, number: u32) -> Option<PairNote>
        ensures read { IfSome result (λ note. line_read self.now.names note ≡ slice_get self.now.lines number) }
        ensures none { IfNone result ((e : AnEvent) (r : AReply) → slice_get self.now.lines number ≡ Some (record { call = Fire e; reply = r }) → r ≡ NotActive) }
    {
        self.history.note_of(number as usize)
    }

    /// Whether the history has a line with this number, and the note tells it by the names that the bench knows. It takes no
    /// memory.
    pub fn line_is_noted(&self, number: u32, note: PairNote) -> bool
        ensures { IsTrue result ↔ ((l : ALine) × (slice_get self.now.lines number ≡ Some l) × (line_read self.now.names note ≡ Some l)) }
    {
        self.set.bare().lawful();
        self.history.note_of(number as usize) == Some(note)
    }
}
