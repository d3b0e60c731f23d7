use ic_name::EventName;

/// The letters of a list for which moves are looked for, at most.
pub const MAX_LETTERS: usize = 2_000;

/// An accepted firing or undo of an event.
#[derive(PartialEq, Eq, Drop)]
pub enum Letter {
    Fire(EventName),
    Undo(EventName),
}
