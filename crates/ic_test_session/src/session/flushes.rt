// Each answer is flushed before more of the input is read.
use crate::session::running::{plain, run};
use ic_session::{MAX_READS, Status};
use std::cell::Cell;
use std::io;
use std::io::{ErrorKind, Read, Write};
use std::test::Fail;

/// Gives one byte at each call, and fails where a byte was written that isn't flushed.
#[derive(Drop)]
struct WaryReader<'a> {
    left: &'a [u8],
    unflushed: &'a Cell<usize>,
}

impl<'a> Read for WaryReader<'a> {
    fn read(&mut self, buf: &mut [u8]) -> io::Result<usize> {
        if self.unflushed.get() != 0 {
            return Err(io::Error::from(ErrorKind::Other));
        }
        match (self.left.split_first(), buf.first_mut()) {
            (Some((byte, rest)), Some(place)) => {
                *place = *byte;
                self.left = rest;
                Ok(1)
            }
            _ => Ok(0),
        }
    }
}

/// Counts the bytes that were written, and those that aren't flushed yet.
#[derive(Drop)]
struct CountingWriter<'a> {
    written: usize,
    unflushed: &'a Cell<usize>,
}

impl<'a> Write for CountingWriter<'a> {
    fn write(&mut self, buf: &[u8]) -> io::Result<usize> {
        self.written = self.written.saturating_add(buf.len());
        self.unflushed
            .set(self.unflushed.get().saturating_add(buf.len()));
        Ok(buf.len())
    }

    fn flush(&mut self) -> io::Result<()> {
        self.unflushed.set(0);
        Ok(())
    }
}

const INPUT: &[u8] = b"G(x,a) = D(x,b);\n---\nfire 0 1\nwhat\nundo 0 1\n";

const OUTPUT: &[u8] = b"fired 0 1\nrefused 40 command\nundone 0 1\n";

#[test]
fn an_answer_is_flushed_before_the_next_line_is_read(rt: HostRuntime) -> Result<(), Fail> {
    let unflushed = Cell::new(0);
    let mut reader = WaryReader {
        left: INPUT,
        unflushed: &unflushed,
    };
    let mut writer = CountingWriter {
        written: 0,
        unflushed: &unflushed,
    };
    let end = run(
        &rt,
        rt.alloc(),
        plain(1),
        MAX_READS,
        &mut reader,
        &mut writer,
    );
    assert_eq!(rt; end, Ok(Status::Ended));
    assert_eq!(rt; writer.written, OUTPUT.len());
    Ok(())
}
