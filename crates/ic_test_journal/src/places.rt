use ic_name::{AgentName, Port};
use std::alloc::Global;
use std::test::Fail;

/// A port of an agent, whose name is a text, or a name of the net's text, by its number.
#[derive(Clone, Copy)]
pub enum Place {
    Agent(&'static [u8], u8),
    Name(u32),
}

/// The port at a place.
pub fn port_at(alloc: Global, place: Place) -> Result<Port, Fail> {
    match place {
        Place::Agent(text, number) => Ok(Port::Of(AgentName::read(alloc, text)?, number)),
        Place::Name(number) => Ok(Port::Name(number)),
    }
}

/// Whether the port is at this place.
pub fn is_at(alloc: Global, port: &Port, place: Place) -> Result<bool, Fail> {
    match (port, place) {
        (Port::Of(name, number), Place::Agent(text, wanted)) => Ok(
            *number == wanted && name.is(&AgentName::read(alloc, text)?),
        ),
        (Port::Name(number), Place::Name(wanted)) => Ok(*number == wanted),
        _ => Ok(false),
    }
}
