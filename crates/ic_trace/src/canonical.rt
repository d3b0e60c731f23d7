ghost use Rattle.std.specs.Result.{result_map_both};
ghost use Rattle.ic_trace.specs.Traces.{Canonises};

use crate::faults::TraceFault;
use crate::lists::{Letter, MAX_LETTERS};
use crate::moving::Move;
use crate::reading::{Reading, read};
use crate::sorting::sorting_moves;
use ic_start::Start;
use std::alloc::Global;

/// Moves, each lawful in its turn, that lead a list to the firings of what stands after it, in canonical order.
///
/// It is `TooMany` before anything else, exactly if the list has more than `MAX_LETTERS` letters, and `NotLegal` with
/// the number of the first letter that the start doesn't accept, exactly if there is one. `Memory` may stand in place of
/// each answer but `TooMany`.
pub fn moves_to_canonical(
    alloc: Global,
    start: &Start,
    letters: &[Letter],
) -> Result<Vec<Move>, TraceFault>
    ensures { Canonises start.now letters.now (result_map_both (λ moves. moves.items) (λ fault. fault) result) }
{
    if letters.len() > MAX_LETTERS {
        return Err(TraceFault::TooMany);
    }
    start.lawful();
    match read(alloc, start, letters) {
        Ok(Reading::Legal(trace)) => match sorting_moves(alloc, &trace) {
            Ok(moves) => Ok(moves),
            Err(_) => Err(TraceFault::Memory),
        },
        Ok(Reading::Refused(number)) => Err(TraceFault::NotLegal(number)),
        Err(_) => Err(TraceFault::Memory),
    }
}
