//! Causes of events: the makers of paths, ranks, the canonical order, and the text of a journal.
#![tactic(auto)]

pub mod journal;
pub mod laws;
pub mod makers;
pub mod order;
pub mod shown;

pub use journal::{RankedEvent, journal_head, journal_text, push_rank};
pub use laws::{one_future, one_journal};
pub use makers::{direct_causes, path_makers};
pub use order::{canonical_cmp, rank_of, rank_with};

#[cfg(test)]
mod tests;
