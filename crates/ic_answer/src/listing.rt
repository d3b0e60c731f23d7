ghost use Rattle.std.specs.Prelude.{◌≡◌, ◌+◌, ◌≤◌, List, [], ◌++◌, IfOk, OnOk, length, vec_capacity, vec_len};
ghost use Rattle.ic_name.specs.Events.{Event as AnEvent};
ghost use Rattle.ic_answer.specs.Stepped.{stepped_head, stepped_text};
ghost use Rattle.ic_answer.specs.Stepping.{Lists};

use std::alloc::{AllocError, Global};

/// The events that were fired so far: their lines, and a head that counts them. After the lines there is always room for the
/// head, so telling the list takes no memory.
#[derive(Drop)]
pub(crate) struct Listing {
    /// How many events were fired.
    pub(crate) head: Vec<u8>,
    /// The lines of these events.
    pub(crate) lines: Vec<u8>,
}

impl Listing {
    /// A list of no event.
    pub(crate) fn empty(alloc: Global) -> Result<Listing, AllocError>
        ensures { IfOk result (λ list. Lists list []) }
    {
        let head = head_of(alloc, 0)?;
        let lines = Vec::with_capacity(alloc, head.len())?;
        Ok(Listing { head, lines })
    }

    /// Makes room for a line and for a head after it. The list stays the same.
    pub(crate) fn reserve_line(&mut self, line: &[u8], head: &[u8]) -> Result<(), AllocError>
        ensures stays { (es : List AnEvent) → Lists self.old es → Lists self.new es }
        ensures lines { self.new.lines.items ≡ self.old.lines.items }
        ensures room { OnOk result (vec_len self.new.lines + (length line.now + length head.now) ≤ vec_capacity self.new.lines) }
    {
        self.lines.reserve(line.len() + head.len())
    }

    /// Puts a line at the end, for which there is room, and changes the head.
    pub(crate) fn put(&mut self, line: &[u8], head: Vec<u8>)
        requires room { vec_len self.old.lines + (length line.now + vec_len head) ≤ vec_capacity self.old.lines }
        ensures lines { self.new.lines.items ≡ self.old.lines.items ++ line.now }
        ensures head { self.new.head.items ≡ head.items }
        ensures room { vec_len self.new.lines + vec_len self.new.head ≤ vec_capacity self.new.lines }
    {
        let Ok(()) = self.lines.extend_from_slice(line) else {
            unreachable!()
        };
        self.head = head;
    }

    /// What is told of these events. It takes no memory.
    pub(crate) fn told(self) -> Vec<u8>
        requires { (es : List AnEvent) × Lists self es }
        ensures { (es : List AnEvent) → Lists self es → result.items ≡ stepped_text es }
    {
        let Listing { head, mut lines } = self;
        let Ok(()) = lines.extend_from_slice(&head) else {
            unreachable!()
        };
        lines.rotate_right(head.len());
        lines
    }
}

/// The line that tells how many events were fired.
pub(crate) fn head_of(alloc: Global, count: u32) -> Result<Vec<u8>, AllocError>
    ensures { IfOk result (λ head. head.items ≡ stepped_head count) }
{
    Ok(format!(in alloc; "stepped {}\n", count)?.into_bytes())
}
