// The rule of the table, and the kinds of steps on it.
ghost use Rattle.ic_claim.specs.Rule.{Holds};
ghost use Rattle.ic_claim.specs.Views.{new_view, spent_view, given_one, next_seat, joined};
ghost use Rattle.ic_claim.specs.Plays.{Draws, Takes, Leaves, Stops, Looks};

use crate::view::View;
use atomic_table::{Join, Play, Split, TableRule};

/// The invariant of the words and of all views between any two steps.
pub struct ClaimRule;

impl TableRule<u64, View, u64> for ClaimRule {
    ghost holds = { Holds };

    ghost first = { λ budget. new_view budget 0 };
}

/// A step on the ticket word.
pub(crate) struct Draw;

impl Play<u64, View> for Draw {
    ghost then = { Draws };
}

/// A step that claims a word if it is free.
pub(crate) struct Take;

impl Play<u64, View> for Take {
    ghost then = { Takes };
}

/// A step that frees a word.
pub(crate) struct Leave;

impl Play<u64, View> for Leave {
    ghost then = { Leaves };
}

/// A step that sets the stop word.
pub(crate) struct Stop;

impl Play<u64, View> for Stop {
    ghost then = { Stops };
}

/// A look at the stop word.
pub(crate) struct Look;

impl Play<u64, View> for Look {
    ghost then = { Looks };
}

/// How a seat is split off the seat with number 0.
pub(crate) struct NextSeat;

impl Split<View> for NextSeat {
    ghost left = { given_one };

    ghost right = { next_seat };
}

/// How a seat takes in another.
pub(crate) struct Home;

impl Join<View> for Home {
    ghost both = { joined };

    ghost spent = { spent_view };
}
