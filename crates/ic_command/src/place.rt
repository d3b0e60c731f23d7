ghost use Rattle.std.specs.Prelude.{[], ◌∷◌, IfOk};
ghost use Rattle.ic_command.specs.Places.{IsPlaceIn};
ghost use Rattle.ic_command.specs.Words.{words};

use crate::command::{name_in, number_of};
use crate::mark_name::MarkName;
use crate::words::next_word;
use ic_name::AgentName;
use std::alloc::{AllocError, Global};

/// The greatest number of a port.
pub const MAX_PORT: u32 = 2;

/// An end of a wire, as a line names it.
#[derive(Drop)]
pub enum Place {
    /// A port of an agent. 0 is the principal port.
    Port(AgentName, u8),
    /// A free name. It has the form of a mark's name.
    Free(MarkName),
}

/// The place that the words of a line name; `None` if they name none.
pub(crate) fn place_in(alloc: Global, line: &[u8]) -> Result<Option<Place>, AllocError>
    ensures { IfOk result (λ place. IsPlaceIn (words line.now) place) }
{
    let Some((first, rest)) = next_word(line) else {
        return Ok(None);
    };
    let Some((second, behind)) = next_word(rest) else {
        return free_of(alloc, first);
    };
    if next_word(behind).is_some() {
        return Ok(None);
    }
    port_of(alloc, first, second)
}

/// The free name that a word writes; `None` if it writes none.
fn free_of(alloc: Global, word: &[u8]) -> Result<Option<Place>, AllocError>
    ensures { IfOk result (λ place. IsPlaceIn (word.now ∷ []) place) }
{
    match MarkName::read(alloc, word)? {
        Some(name) => Ok(Some(Place::Free(name))),
        None => Ok(None),
    }
}

/// The port that two words name; `None` if they aren't an agent and the number of a port.
fn port_of(alloc: Global, agent: &[u8], port: &[u8]) -> Result<Option<Place>, AllocError>
    ensures { IfOk result (λ place. IsPlaceIn (agent.now ∷ port.now ∷ []) place) }
{
    let Some(number) = number_of(alloc, port, MAX_PORT)? else {
        return Ok(None);
    };
    match name_in(alloc, agent)? {
        Some(name) => Ok(Some(Place::Port(name, number as u8))),
        None => Ok(None),
    }
}
