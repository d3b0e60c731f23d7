/// An agent of one bench: the slot in which to look for it, and its serial number, which is 0 for a start agent,
/// else one more than the history number of its maker's firing.
#[derive(Clone, Copy, Debug, Default, PartialEq, Eq, PartialOrd, Ord, Hash)]
pub struct AgentId {
    pub slot: u32,
    pub serial: u32,
}

/// An event of one bench: the slot in which to look for it, and the history number of its firing.
#[derive(Clone, Copy, Debug, Default, PartialEq, Eq, PartialOrd, Ord, Hash)]
pub struct EventId {
    pub slot: u32,
    pub line: u32,
}

/// What a link ends at: a port of an agent, or a name of the text, by its number.
#[derive(Clone, Copy, Debug, PartialEq, Eq, PartialOrd, Ord, Hash)]
pub enum Spot {
    Agent(AgentId, u8),
    Name(u32),
}

/// Who made a link.
#[derive(Clone, Copy, Debug, PartialEq, Eq, PartialOrd, Ord, Hash)]
pub enum MakerId {
    Start,
    Event(EventId),
}

/// The name of a link: its maker, and its place among the links of that maker.
#[derive(Clone, Copy, Debug, PartialEq, Eq, PartialOrd, Ord, Hash)]
pub struct LinkId {
    pub maker: MakerId,
    pub place: u32,
}

/// A link between two spots.
#[derive(Clone, Copy, Debug, PartialEq, Eq)]
pub struct Link {
    pub id: LinkId,
    pub a: Spot,
    pub b: Spot,
}
