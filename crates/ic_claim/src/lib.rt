//! Tickets and claims for many threads: numbers below a budget, each drawn once, claim words of which each is held by
//! at most one seat, and a word by which each seat asks all to stop. Every call is one atomic step or none, and only
//! `Claims::make` takes memory.
#![tactic(auto)]

mod claims;
mod laws;
mod limits;
mod rule;
mod seat;
mod view;

pub use claims::{Busy, Claims, Ticket};
pub use laws::{each_ticket_is_drawn_once, one_holder, ticket_word_never_wraps};
pub use limits::{CLAIM_WORDS, MAX_BUDGET, MAX_SEATS, MAX_WORKERS};
pub use rule::ClaimRule;
pub use seat::Seat;
pub use view::View;

#[cfg(test)]
mod tests;
