ghost use Rattle.std.specs.Prelude.{IfOk};
ghost use Rattle.ic_undo.specs.Marks.{Marks};

use crate::marked_events::MarkedEvents;
use crate::marks::Mark;
use ic_journal::{Bench, LinkStore};
use std::alloc::{AllocError, Global};

/// A mark of what stands on the bench.
pub fn mark<L: LinkStore>(alloc: Global, bench: &Bench<L>) -> Result<Mark, AllocError>
    ensures { IfOk result (λ mark. Marks bench.now mark) }
{
    bench.lawful();
    let start = bench.start().copy()?;
    start.lawful();
    let events = bench.events()?;
    let events = MarkedEvents::of(alloc, &events)?;
    Ok(Mark { start, events })
}
