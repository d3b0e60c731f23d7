ghost use Rattle.std.specs.Prelude.{◌≤◌, length};
ghost use Rattle.ic_command.specs.declared.lines.input.TheConstants.{CHUNK};

use crate::lines::feeds::line_len;
use crate::lines::piece::{Front, IoFault, Piece};
use std::alloc::{AllocError, Global};
use std::io::Read;

/// The bytes that one read asks for, at most.
const CHUNK: usize = 8192;

/// An input that is read line by line, with a bound on the number of reads. A reader that failed is not called again.
#[derive(Drop)]
pub struct Input {
    buffer: Vec<u8>,
    start: usize,
    reads: u32,
    ghost inside: { start ≤ length buffer.items },
    ghost small: { length buffer.items ≤ CHUNK },
}

impl Input {
    ghost use Rattle.std.specs.Prelude.{◌≡◌, ◌≢◌, ◌+◌, ◌<◌, ◌≤◌, [], false, length, IfErr, IfOk, IfSome, MatchBool, OnOk, Some};
    ghost use Rattle.ic_command.specs.Lines.{Fills, Takes, TakesFront, behind_line, is_line};
    ghost use Rattle.ic_command.specs.Left.{unread, left, work};
    ghost use Rattle.ic_command.specs.Faults.{IsReadFault};

    /// An input of which nothing has been read. It makes at most `reads` calls of `read`.
    pub fn new(alloc: Global, reads: u32) -> Result<Input, AllocError>
        ensures fresh { IfOk result (λ input. unread input ≡ []) }
        ensures reads { IfOk result (λ input. input.reads ≡ reads) }
    {
        let buffer = Vec::with_capacity(alloc, CHUNK)?;
        Ok(Input {
            buffer,
            start: 0,
            reads,
        })
    }

    /// What was read and not yet taken.
    fn unread(&self) -> &[u8]
        ensures { result.now ≡ unread self.now }
    {
        &self.buffer[self.start..]
    }

    /// Reads once into the empty buffer. Answers whether there was anything. After a fault of the reader no call is left.
    fn fill<R: Read>(&mut self, reader: &mut R) -> Result<bool, IoFault>
        ensures filled { IfOk result (λ more. Fills more (unread self.new) (R.remaining reader.old) (R.remaining reader.new)) }
        ensures counted { OnOk result (self.new.reads + 1 ≡ self.old.reads) }
        ensures fewer { self.new.reads ≤ self.old.reads }
        ensures fault { IfErr result (IsReadFault self.new.reads) }
    {
        if self.reads == 0 {
            return Err(IoFault::Read);
        }
        self.reads -= 1;
        let mut chunk = [0u8; CHUNK];
        match reader.read(&mut chunk) {
            Ok(count) => {
                self.start = 0;
                self.buffer.clear();
                self.buffer.extend_from_slice(&chunk[..count])?;
                Ok(count > 0)
            }
            Err(_) => {
                self.reads = 0;
                Err(IoFault::Read)
            }
        }
    }

    /// Reads the next line, without its line feed, into `line`, whose old contents go. A line of more than `most`
    /// bytes is given up as soon as that is known.
    pub fn next_line<R: Read>(
        &mut self,
        reader: &mut R,
        line: &mut Vec<u8>,
        most: usize,
    ) -> Result<Piece, IoFault>
        ensures short { OnOk result (length line.new.items ≤ most) }
        ensures taken { IfOk result (λ piece. IfSome (left self.old (R.remaining reader.old))
            (λ old. Takes piece line.new.items most old (left self.new (R.remaining reader.new)))) }
        ensures some { IfOk result (λ piece. piece ≡ Piece.Line false → line.new.items ≢ []) }
        ensures less { IfOk result (λ piece. MatchBool (is_line piece) (work self.new < work self.old) (work self.new ≤ work self.old)) }
        ensures fewer { self.new.reads ≤ self.old.reads }
        ensures fault { IfErr result (IsReadFault self.new.reads) }
    {
        line.clear();
        loop {
            match self.take_front(line, most)? {
                Front::Whole => return Ok(Piece::Line(true)),
                Front::TooLong => return Ok(Piece::TooLong),
                Front::Part => {}
            }
            if !self.fill(reader)? {
                return Ok(if line.is_empty() {
                    Piece::End
                } else {
                    Piece::Line(false)
                });
            }
        }
    }

    /// Drops what is left of a line, its line feed included. It takes no memory but the buffer's.
    pub fn skip_line<R: Read>(&mut self, reader: &mut R) -> Result<(), IoFault>
        ensures skipped { OnOk result (IfSome (left self.old (R.remaining reader.old))
            (λ old. left self.new (R.remaining reader.new) ≡ Some (behind_line old))) }
        ensures less { OnOk result (work self.new < work self.old) }
        ensures fewer { self.new.reads ≤ self.old.reads }
        ensures fault { IfErr result (IsReadFault self.new.reads) }
    {
        loop {
            let bytes = self.unread();
            let count = line_len(bytes);
            if count < bytes.len() {
                self.start += count + 1;
                return Ok(());
            }
            if !self.fill(reader)? {
                return Ok(());
            }
        }
    }

    /// Moves the buffered bytes up to the first line feed to the end of `line`, if they find room, and drops the feed.
    fn take_front(&mut self, line: &mut Vec<u8>, most: usize) -> Result<Front, IoFault>
        requires { length line.old.items ≤ most }
        ensures short { OnOk result (length line.new.items ≤ most) }
        ensures front { IfOk result (λ front. TakesFront front (unread self.old) (unread self.new) line.old.items line.new.items most) }
        ensures reads { self.new.reads ≡ self.old.reads }
        ensures fault { IfErr result (λ fault. fault ≡ IoFault.Memory) }
    {
        let bytes = self.unread();
        let count = line_len(bytes);
        let found = count < bytes.len();
        if most - line.len() < count {
            return Ok(Front::TooLong);
        }
        line.extend_from_slice(&bytes[..count])?;
        if found {
            self.start += count + 1;
            Ok(Front::Whole)
        } else {
            self.start = self.buffer.len();
            Ok(Front::Part)
        }
    }
}
