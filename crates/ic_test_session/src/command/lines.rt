use ic_command::{Input, IoFault, Piece, write_reply};
use std::alloc::Global;
use std::io;
use std::io::{ErrorKind, Read, Write};
use std::test::Fail;

/// A writer that takes one byte at a time, and none once it is full.
#[derive(Drop)]
struct Slow {
    taken: Vec<u8>,
    most: usize,
}

impl Write for Slow {
    fn write(&mut self, buf: &[u8]) -> io::Result<usize> {
        match buf.first() {
            Some(byte) if self.taken.len() < self.most => {
                self.taken.push(*byte)?;
                Ok(1)
            }
            _ => Ok(0),
        }
    }

    fn flush(&mut self) -> io::Result<()> {
        Ok(())
    }
}

/// A reader that fails at once.
#[derive(Drop)]
struct Broken;

impl Read for Broken {
    fn read(&mut self, _buf: &mut [u8]) -> io::Result<usize> {
        Err(io::Error::from(ErrorKind::Interrupted))
    }
}

/// Whether the next line of at most so many bytes is this one, and whether a line feed ends it.
fn is_line(
    input: &mut Input,
    reader: &mut &[u8],
    line: &mut Vec<u8>,
    most: usize,
    wanted: (&[u8], bool),
) -> bool {
    let (text, ended) = wanted;
    input.next_line(reader, line, most) == Ok(Piece::Line(ended)) && line.as_slice() == text
}

/// Whether the next line is too long for so many bytes, and is skipped.
fn is_skipped(input: &mut Input, reader: &mut &[u8], line: &mut Vec<u8>, most: usize) -> bool {
    input.next_line(reader, line, most) == Ok(Piece::TooLong) && input.skip_line(reader) == Ok(())
}

/// Whether the lines of this reader come in turn, one of which is too long.
fn come_in_turn(input: &mut Input, reader: &mut &[u8], line: &mut Vec<u8>) -> bool {
    is_line(input, reader, line, 3, (b"ab", true))
        && is_line(input, reader, line, 3, (b"", true))
        && is_skipped(input, reader, line, 3)
        && is_line(input, reader, line, 2, (b"cd", false))
        && input.next_line(reader, line, 2) == Ok(Piece::End)
}

#[test]
fn lines_in_turn(rt: HostRuntime) -> Result<(), Fail> {
    let mut reader = b"ab\n\ntoolong\ncd".as_slice();
    let mut input = Input::new(rt.alloc(), 10)?;
    let mut line = Vec::new(rt.alloc());
    assert!(rt; come_in_turn(&mut input, &mut reader, &mut line));
    Ok(())
}

/// What an input that may read so many times finds first in a reader.
fn first_piece<R: Read>(alloc: Global, reader: &mut R, reads: u32) -> Result<Piece, IoFault> {
    let mut line = Vec::new(alloc);
    let mut input = Input::new(alloc, reads)?;
    input.next_line(reader, &mut line, 9)
}

#[test]
fn reads_are_counted_and_their_faults_told(rt: HostRuntime) {
    let mut reader = b"ab".as_slice();
    assert!(rt; first_piece(rt.alloc(), &mut reader, 1) == Err(IoFault::Read));
    assert!(rt; first_piece(rt.alloc(), &mut Broken, 9) == Err(IoFault::Read));
}

#[test]
fn short_writes_go_on_and_refused_ones_are_faults(rt: HostRuntime) {
    let mut writer = Slow {
        taken: Vec::new(rt.alloc()),
        most: 3,
    };
    assert!(rt; write_reply(&mut writer, b"abc") == Ok(()));
    assert_eq!(rt; writer.taken.as_slice(), b"abc".as_slice());
    assert!(rt; write_reply(&mut writer, b"d") == Err(IoFault::Write));
}
