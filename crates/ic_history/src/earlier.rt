ghost use Rattle.std.specs.Prelude.{◌≡◌, ◌≢◌, ◌<◌, ◌≤◌, ◌↔◌, ◌++◌, length, map, drop, slice_get, IsTrue, IfOk, IfSome, IfNone};
ghost use Rattle.ic_history.specs.Noted.{line_in, AreLinesNamed};

use crate::history::History;
use crate::now_and_then::NowAndThen;
use ic_names::{KnownNames, NameTable};
use std::alloc::{AllocError, Global};
use std::marker::Model;

/// The lines of a history as they were at some time: 12 bytes for each, and 8 for each name that was known then.
#[derive(Drop)]
pub struct EarlierLines {
    names: KnownNames,
    history: History,
}

impl Model for EarlierLines {
    ghost use Rattle.std.specs.Prelude.{List, map};
    ghost use Rattle.ic_name.specs.declared.lines.Line.{Line};
    ghost use Rattle.ic_history.specs.Noted.{line_in, AreLinesNamed};

    ghost Value = { List Line };

    ghost view = { λ e. map (line_in e.names) e.history.lines };

    ghost invariant = { λ e. AreLinesNamed e.names e.history.lines };
}

impl EarlierLines {
    /// The number of lines.
    pub fn len(&self) -> usize
        ensures { result ≡ length self.now }
    {
        self.history.line_count()
    }
}

impl History {
    /// The lines as they are now, by a table with the names. At an error memory ran out.
    pub fn lines_so_far(&self, alloc: Global, names: &NameTable) -> Result<EarlierLines, AllocError>
        requires { AreLinesNamed names.now self.now.lines }
        ensures { IfOk result (λ lines. lines ≡ map (line_in names.now) self.now.lines) }
    {
        let history = self.copy(alloc)?;
        if history.line_count() == 0 {
            return Ok(EarlierLines {
                names: KnownNames::none(alloc),
                history,
            });
        }
        Ok(EarlierLines {
            names: names.known(alloc)?,
            history,
        })
    }

    /// The lines once more, with room for no others. At an error memory ran out.
    fn copy(&self, alloc: Global) -> Result<History, AllocError>
        ensures { IfOk result (λ copy. copy.lines ≡ self.now.lines) }
    {
        let mut inactive = Vec::with_capacity(alloc, self.inactive.len())?;
        for proposal in &self.inactive {
            inactive.push(proposal.copy()?)?;
        }
        Ok(History {
            lines: Vec::from_slice(alloc, &self.lines)?,
            inactive,
        })
    }

    /// The number of the first of these lines that isn't the history's, by a table with the names. It takes no memory.
    pub fn first_other(&self, names: &NameTable, lines: &EarlierLines) -> Option<u32>
        requires named { AreLinesNamed names.now self.now.lines }
        requires within { length lines.now ≤ length self.now.lines }
        ensures none { IfNone result (map (line_in names.now) self.now.lines ≡ lines.now ++ drop (length lines.now) (map (line_in names.now) self.now.lines)) }
        ensures some { IfSome result (λ k. (k < length lines.now) × (slice_get (map (line_in names.now) self.now.lines) k ≢ slice_get lines.now k)) }
    {
        let both = NowAndThen::of(names, &lines.names);
        for number in 0..lines.history.line_count() {
            if !self.is_line_of(&both, &lines.history, number) {
                return Some(number as u32);
            }
        }
        None
    }

    /// Whether the line with this number is that of an earlier history. It takes no memory.
    fn is_line_of(&self, names: &NowAndThen<'_>, earlier: &History, number: usize) -> bool
        requires now { AreLinesNamed names.now.table.now self.now.lines }
        requires then { AreLinesNamed names.now.known.now earlier.now.lines }
        requires within { number < length self.now.lines }
        requires within_then { number < length earlier.now.lines }
        ensures { IsTrue result ↔ (slice_get (map (line_in names.now.table.now) self.now.lines) number ≡ slice_get (map (line_in names.now.known.now) earlier.now.lines) number) }
    {
        let line = &self.lines[number];
        line.is_same(
            &self.inactive,
            names,
            &earlier.lines[number],
            &earlier.inactive,
        )
    }
}
