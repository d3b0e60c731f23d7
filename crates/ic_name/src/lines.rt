ghost use Rattle.std.specs.Prelude.{◌≡◌, ◌↔◌, IsTrue};

use crate::events::Event;

/// A call of a bench. An undo names the line of its event's firing.
#[derive(Drop)]
pub enum Call {
    Fire(Event),
    Undo(u32),
}

impl Call {
    /// Whether the two calls are one. It takes no memory.
    pub fn is(&self, other: &Call) -> bool
        ensures { IsTrue result ↔ (self.now ≡ other.now) }
    {
        match (self, other) {
            (Call::Fire(event), Call::Fire(another)) => event.is(another),
            (Call::Undo(line), Call::Undo(another)) => line == another,
            (Call::Fire(_), Call::Undo(_)) | (Call::Undo(_), Call::Fire(_)) => false,
        }
    }
}

/// What a bench answers to a call: that an event was fired or undone, or why it was not. `Held` has the line of
/// the firing of the least event that rests on the one to be undone.
#[derive(Clone, Copy, Debug, PartialEq, Eq)]
pub enum Reply {
    Fired,
    NotActive,
    Deep,
    Full,
    Undone,
    NotStanding,
    Held(u32),
}

/// A line of a history: a call with its reply.
#[derive(Drop)]
pub struct Line {
    pub call: Call,
    pub reply: Reply,
}
