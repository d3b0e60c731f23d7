use crate::names::AgentName;

/// A port of an agent, 0 being its principal port, or a name of the text, by its number in order of first
/// occurrence.
#[derive(Drop)]
pub enum Port {
    Of(AgentName, u8),
    Name(u32),
}
