use ic_name::Kind;
use ic_names::NameId;

/// An event by the places of its agents' names: the lesser one, its lead, first. The kinds lie side by side, so that it takes
/// 12 bytes.
#[derive(Clone, Copy, Debug, PartialEq, Eq)]
pub struct Interaction {
    pub lead: NameId,
    pub other: NameId,
    pub lead_kind: Kind,
    pub other_kind: Kind,
}
