ghost use Rattle.std.specs.Prelude.{◌≡◌};

use crate::place::Place;
use ic_command::{Input, Output};
use std::alloc::Global;

/// What a session reads from: a reader, what was read of it and not yet taken, the line that was taken last, and how far in the
/// input that is.
#[derive(Drop)]
pub struct Source<'a, R> {
    pub(crate) reader: &'a mut R,
    pub(crate) input: Input,
    pub(crate) line: Vec<u8>,
    pub(crate) place: Place,
}

impl<'a, R> Source<'a, R> {
    /// A source that begins with what the input has read and not yet taken, and goes on with the reader.
    pub fn new(alloc: Global, input: Input, reader: &'a mut R) -> Source<'a, R>
        ensures input { result.input ≡ input }
        ensures reader { result.reader.now ≡ reader.old }
    {
        Source {
            reader,
            input,
            line: Vec::new(alloc),
            place: Place::first(),
        }
    }
}

/// What a session writes its answers to: a writer, and whether that failed.
#[derive(Drop)]
pub struct Sink<'a, W> {
    pub writer: &'a mut W,
    pub output: Output,
}
