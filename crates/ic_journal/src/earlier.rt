ghost use Rattle.std.specs.Prelude.{◌≡◌, ◌≢◌, ◌<◌, ◌≤◌, ◌++◌, length, drop, slice_get, IfOk, IfSome, IfNone};

use crate::bench::Bench;
use ic_history::EarlierLines;
use ic_link::LinkStore;
use std::alloc::AllocError;

impl<L: LinkStore> Bench<L> {
    /// The lines that the history has now. At an error memory ran out.
    pub fn lines_so_far(&self) -> Result<EarlierLines, AllocError>
        ensures { IfOk result (λ lines. lines ≡ self.now.lines) }
    {
        let names = self.set.bare().roster().names();
        self.history.lines_so_far(self.alloc, names)
    }

    /// The number of the first of these lines that isn't the history's. It takes no memory.
    pub fn first_other(&self, lines: &EarlierLines) -> Option<u32>
        requires within { length lines.now ≤ length self.now.lines }
        ensures none { IfNone result (self.now.lines ≡ lines.now ++ drop (length lines.now) self.now.lines) }
        ensures some { IfSome result (λ k. (k < length lines.now) × (slice_get self.now.lines k ≢ slice_get lines.now k)) }
    {
        let names = self.set.bare().roster().names();
        self.history.first_other(names, lines)
    }
}
