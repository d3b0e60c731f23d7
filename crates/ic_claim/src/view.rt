use std::collections::LinkedList;

/// What a seat knows. No value of it is made: it stands in proofs alone.
pub struct View {
    /// Whether the seat was taken in by another.
    pub spent: bool,
    /// How many tickets there are.
    pub budget: u64,
    /// The seat's own number.
    pub number: u64,
    /// How many seats were split off it.
    pub given: u64,
    /// How many seats came home to it, and to those that did.
    pub homes: u64,
    /// The claim word that it holds.
    pub held: Option<u64>,
    /// Whether a draw of its own found no ticket left.
    pub done: bool,
    /// Whether it knows that all were asked to stop.
    pub stopped: bool,
    /// How often it asked all to stop.
    pub stops: u64,
    /// How often it found a claim word held.
    pub refusals: u64,
    /// The tickets that it drew, and those of the seats that it took in.
    pub tickets: LinkedList<u64>,
    /// For each draw that found no ticket left, the number of the seat that made it: its own, and those taken in.
    pub nones: LinkedList<u64>,
}
