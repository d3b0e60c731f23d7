ghost use Rattle.std.specs.Prelude.{◌<◌, ◌≤◌, IfErr, IfOk, IfSome, MatchBool};
ghost use Rattle.ic_command.specs.Left.{work};
ghost use Rattle.ic_command.specs.Faults.{IsReadFault};
ghost use Rattle.ic_session.specs.Streams.{left_in};
ghost use Rattle.ic_session.specs.TakenLines.{TakesLine, is_end};

use crate::streams::Source;
use ic_command::{IoFault, MAX_COMMAND, Piece};
use std::io::Read;

/// Takes the next line, without its line feed. A line that is longer than a command may be is taken whole, too, but not kept.
pub(crate) fn take_line<R: Read>(source: &mut Source<'_, R>) -> Result<Piece, IoFault>
    ensures taken { IfOk result (λ piece. IfSome (left_in R.remaining source.old)
        (λ bytes. TakesLine piece source.new.line.items bytes (left_in R.remaining source.new))) }
    ensures less { IfOk result (λ piece. MatchBool (is_end piece) (work source.new.input ≤ work source.old.input) (work source.new.input < work source.old.input)) }
    ensures fewer { source.new.input.reads ≤ source.old.input.reads }
    ensures fault { IfErr result (IsReadFault source.new.input.reads) }
{
    match source
        .input
        .next_line(source.reader, &mut source.line, MAX_COMMAND + 1)?
    {
        Piece::Line(ended) => Ok(Piece::Line(ended)),
        Piece::TooLong => {
            source.input.skip_line(source.reader)?;
            Ok(Piece::TooLong)
        }
        Piece::End => Ok(Piece::End),
    }
}
