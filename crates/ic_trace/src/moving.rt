/// A move of a list of letters, at the letter with this number and the one after it, counted from 0.
#[derive(Clone, Copy, Debug, PartialEq, Eq)]
pub enum Move {
    /// The two change places.
    Swap(usize),
    /// The two go. One is the inverse of the other.
    Cancel(usize),
}
