ghost use Rattle.std.specs.Prelude.{◌≡◌, ◌≤◌, ◌<◌, IsTrue, IsFalse};
ghost use Rattle.ic_table.specs.EventRows.{no_links, PutsAt};

use crate::two_slots::TwoSlots;
use std::mem::size_of;

/// The links of one event, in 72 bytes. The first `len` places have a link each, of which the slots of its two spots are
/// kept. If `len` is 0, any event may take the record.
#[derive(Clone, Copy, Debug)]
pub struct EventLinks {
    pub line: u32,
    pub len: u32,
    pub ends: [TwoSlots; 8],
}

const _: () = prove!(size_of::<EventLinks>() == 72);

impl EventLinks {
    /// No links.
    pub fn vacant() -> EventLinks
        ensures { result ≡ no_links }
    {
        EventLinks {
            line: 0,
            len: 0,
            ends: [TwoSlots { a: 0, b: 0 }; 8],
        }
    }

    /// Puts a link of the event with this line at the place. `false`, and no change, if that is not the next place or if
    /// another event has links here.
    pub fn put(&mut self, line: u32, place: u32, spots: TwoSlots) -> bool
        requires { self.old.len ≤ 8 }
        ensures few { self.new.len ≤ 8 }
        ensures full { IsFalse result → self.new ≡ self.old }
        ensures put { IsTrue result → PutsAt place line spots self.old self.new }
    {
        if place >= 8 || place != self.len || (place != 0 && self.line != line) {
            return false;
        }
        self.line = line;
        self.ends[place as usize] = spots;
        self.len = place + 1;
        true
    }
}
