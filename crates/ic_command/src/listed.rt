ghost use Rattle.std.specs.Prelude.{◌↔◌, IfOk, IsTrue};
ghost use Rattle.ic_command.specs.Listed.{IsListedIn, IsRankPart, ListsIn};
ghost use Rattle.ic_command.specs.Words.{words};

use crate::command::{event_of, number_in};
use crate::line_form::{is_well_formed, without_return};
use crate::words::next_word;
use ic_name::EventName;
use std::alloc::{AllocError, Global};

/// The greatest rank of seven digits.
const MAX_RANK: u32 = 9_999_999;

/// The event that a line without its line feed lists; `None` if it lists none. An error if memory runs out for its names.
pub fn listed_of(alloc: Global, line: &[u8]) -> Result<Option<EventName>, AllocError>
    ensures { IfOk result (λ event. IsListedIn line.now event) }
{
    let body = without_return(line);
    if is_well_formed(body) {
        listed_in(alloc, body)
    } else {
        Ok(None)
    }
}

/// The event that the words of a line list; `None` if they list none.
fn listed_in(alloc: Global, body: &[u8]) -> Result<Option<EventName>, AllocError>
    ensures { IfOk result (λ event. ListsIn (words body.now) event) }
{
    let Some((first, rest)) = next_word(body) else {
        return Ok(None);
    };
    let Some((second, behind)) = next_word(rest) else {
        return Ok(None);
    };
    if !is_rank_part(alloc, behind)? {
        return Ok(None);
    }
    event_of(alloc, first, second)
}

/// Whether there are no words after the names, or those of a rank.
fn is_rank_part(alloc: Global, behind: &[u8]) -> Result<bool, AllocError>
    ensures { IfOk result (λ is. IsTrue is ↔ IsRankPart (words behind.now)) }
{
    let Some((word, rest)) = next_word(behind) else {
        return Ok(true);
    };
    if word == b"rank".as_slice() {
        Ok(number_in(alloc, rest, MAX_RANK)?.is_some())
    } else {
        Ok(false)
    }
}
