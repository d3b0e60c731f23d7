ghost use Rattle.std.specs.Prelude.{◌≤◌, IfErr, IfOk, IfSome, IsSomeAnd, OnOk};
ghost use Rattle.ic_command.specs.Left.{work};
ghost use Rattle.ic_command.specs.Faults.{IsReadFault};
ghost use Rattle.ic_session.specs.Streams.{left_in};
ghost use Rattle.ic_session.specs.TakenLines.{TakesListed, TakesNextListed};

use crate::streams::Source;
use crate::taken_line::take_line;
use ic_command::{IoFault, Piece, listed_of};
use ic_name::EventName;
use std::alloc::Global;
use std::io::Read;

/// What the next line lists.
#[derive(Drop)]
pub(crate) enum NextListed {
    /// An event.
    Event(EventName),
    /// No event.
    Unlisted,
    /// The input has ended.
    Ended,
}

/// Takes the next `count` lines, and answers the events that they list; `None` if one of them lists none, or if
/// they are fewer.
pub(crate) fn listed_events<R: Read>(
    alloc: Global,
    source: &mut Source<'_, R>,
    count: u32,
) -> Result<Option<Vec<EventName>>, IoFault>
    ensures taken { IfOk result (λ events. IfSome (left_in R.remaining source.old)
        (λ bytes. IsSomeAnd (left_in R.remaining source.new) (TakesListed count events bytes))) }
    ensures less { OnOk result (work source.new.input ≤ work source.old.input) }
    ensures fewer { source.new.input.reads ≤ source.old.input.reads }
    ensures fault { IfErr result (IsReadFault source.new.input.reads) }
{
    let mut events = Vec::new(alloc);
    let mut all = true;
    for _taken in 0..count {
        match next_listed(alloc, source)? {
            NextListed::Event(event) => events.push(event)?,
            NextListed::Unlisted => all = false,
            NextListed::Ended => return Ok(None),
        }
    }
    if all { Ok(Some(events)) } else { Ok(None) }
}

/// Takes the next line, and answers what it lists.
fn next_listed<R: Read>(alloc: Global, source: &mut Source<'_, R>) -> Result<NextListed, IoFault>
    ensures taken { IfOk result (λ listed. IfSome (left_in R.remaining source.old)
        (λ bytes. TakesNextListed listed bytes (left_in R.remaining source.new))) }
    ensures less { OnOk result (work source.new.input ≤ work source.old.input) }
    ensures fewer { source.new.input.reads ≤ source.old.input.reads }
    ensures fault { IfErr result (IsReadFault source.new.input.reads) }
{
    match take_line(source)? {
        Piece::Line(_) => match listed_of(alloc, &source.line)? {
            Some(event) => {
                source.place.pass_listed();
                Ok(NextListed::Event(event))
            }
            None => {
                source.place.pass_unlisted();
                Ok(NextListed::Unlisted)
            }
        },
        Piece::TooLong => {
            source.place.pass_unlisted();
            Ok(NextListed::Unlisted)
        }
        Piece::End => {
            source.place.end_in_list();
            Ok(NextListed::Ended)
        }
    }
}
