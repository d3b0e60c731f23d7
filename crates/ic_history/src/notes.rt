use crate::kept::{Kinds, Places};
use crate::limit::Limit;
use std::mem::size_of;

/// What a line of a history tells of the firing of an active pair: its event, by the places of its names in a table,
/// and the limit that the firing met, if it met one.
#[derive(Clone, Copy, Debug, PartialEq, Eq)]
pub struct PairNote {
    pub(crate) limit: Option<Limit>,
    pub(crate) kinds: Kinds,
    pub(crate) places: Places,
}

// No more than the line itself takes.
const _: () = prove!(size_of::<PairNote>() == 12);
