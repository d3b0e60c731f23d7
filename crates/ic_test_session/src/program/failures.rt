use crate::program::running::status_of;
use ic_program::refuse_words;
use std::io;
use std::io::{ErrorKind, Read, Write};

/// A reader that fails at once.
#[derive(Drop)]
struct Broken;

impl Read for Broken {
    fn read(&mut self, _buf: &mut [u8]) -> io::Result<usize> {
        Err(io::Error::from(ErrorKind::Other))
    }
}

/// A writer that fails at once.
#[derive(Drop)]
struct Full;

impl Write for Full {
    fn write(&mut self, _buf: &[u8]) -> io::Result<usize> {
        Err(io::Error::from(ErrorKind::Other))
    }

    fn flush(&mut self) -> io::Result<()> {
        Ok(())
    }
}

#[test]
fn a_reader_fails(rt: HostRuntime) {
    let mut output: Vec<u8> = Vec::new(rt.alloc());
    let mut said: Vec<u8> = Vec::new(rt.alloc());
    let status = status_of(
        &rt,
        rt.alloc(),
        &["icbench"],
        &mut Broken,
        &mut output,
        &mut said,
    );
    assert!(rt; status == 1 && output.is_empty());
    assert!(rt; said.as_slice() == b"icbench: read failed\n".as_slice());
}

#[test]
fn a_writer_fails(rt: HostRuntime) {
    let mut reader: &[u8] = b"---\nnet\n";
    let mut said: Vec<u8> = Vec::new(rt.alloc());
    let status = status_of(
        &rt,
        rt.alloc(),
        &["icbench"],
        &mut reader,
        &mut Full,
        &mut said,
    );
    assert!(rt; status == 1 && said.as_slice() == b"icbench: write failed\n".as_slice());
}

#[test]
fn a_standard_error_that_fails_changes_no_status(rt: HostRuntime) {
    for (words, status) in [(["icbench", "--help"], 1), (["icbench", "--workers"], 64)] {
        let mut reader: &[u8] = b"---\nnet\n";
        let ended = status_of(&rt, rt.alloc(), &words, &mut reader, &mut Full, &mut Full);
        assert_eq!(rt; ended, status);
    }
}

#[test]
fn a_net_that_is_refused_is_explained(rt: HostRuntime) {
    let mut reader: &[u8] = b"# One gamma.\nG(a,b) = !;";
    let mut output: Vec<u8> = Vec::new(rt.alloc());
    let mut said: Vec<u8> = Vec::new(rt.alloc());
    let words = ["icbench", "--explain"];
    let status = status_of(&rt, rt.alloc(), &words, &mut reader, &mut output, &mut said);
    assert!(rt; status == 2 && output.as_slice() == b"refused 2 at 22\n".as_slice());
    assert!(rt;
        said.as_slice().starts_with(
            b"line 2 column 10: bad byte: the byte at 22 begins no token; expected a name"
        )
    );
}

#[test]
fn words_that_cannot_be_read(rt: HostRuntime) {
    for (kind, status, why) in [
        (
            ErrorKind::InvalidData,
            64,
            b"error: invalid UTF-8 was detected in one or more arguments\n".as_slice(),
        ),
        (ErrorKind::OutOfMemory, 3, b"icbench: no memory\n"),
    ] {
        let mut said: Vec<u8> = Vec::new(rt.alloc());
        assert_eq!(rt; refuse_words(&io::Error::from(kind), &mut said), status);
        assert!(rt; said.as_slice() == why);
    }
}
