use crate::command::MAX_COMMAND;
use crate::line_form::without_return;
use crate::words::next_word;

/// What a line is about, by its first word.
#[derive(Clone, Copy, Debug, PartialEq, Eq)]
pub enum Topic {
    /// What stands alone.
    Alone,
    /// What has the names of two agents after it.
    Pair,
    /// What has a number after it.
    Number,
    /// What has the name of a mark after it.
    Mark,
    /// What has a port of an agent or a free name after it.
    Place,
    /// What has the number of lines after it, and these lines.
    List,
    /// No word that anything begins with.
    Unknown,
    /// More bytes than a line may have.
    TooLong,
}

/// The words that stand alone.
const ALONE: [&str; 12] = [
    "net", "active", "journal", "undo-all", "agents", "causes", "history", "marks", "rules",
    "help", "new", "quit",
];

/// The words that have the names of two agents after them.
const PAIRED: [&str; 5] = ["fire", "undo", "why", "unwind", "dependents"];

/// The words that have a number after them.
const COUNTED: [&str; 3] = ["reduce", "step", "unstep"];

/// The words that have the name of a mark after them.
const MARKED: [&str; 2] = ["mark", "back"];

/// What a line is about.
pub fn topic_of(line: &[u8]) -> Topic {
    if without_return(line).len() > MAX_COMMAND {
        return Topic::TooLong;
    }
    let Some((word, _)) = next_word(line) else {
        return Topic::Unknown;
    };
    if is_among(word, &ALONE) {
        Topic::Alone
    } else if is_among(word, &PAIRED) {
        Topic::Pair
    } else if is_among(word, &MARKED) {
        Topic::Mark
    } else if is_among(word, &COUNTED) {
        Topic::Number
    } else if word == b"absorb".as_slice() {
        Topic::List
    } else if word == b"wire".as_slice() {
        Topic::Place
    } else {
        Topic::Unknown
    }
}

/// Whether a word is one of these.
fn is_among(word: &[u8], words: &[&str]) -> bool {
    words.iter().any(|other| word == other.as_bytes())
}
