// Sessions over readers and writers of one byte for each call, some of which fail.
use crate::session::running::{plain, run};
use ic_session::{Fault, MAX_READS, Status};
use std::alloc::Global;
use std::io;
use std::io::{ErrorKind, Read, Write};
use std::sync::Wait;
use std::test::Fail;
use std::thread::Threads;

/// What a reader or a writer does at a call.
#[derive(Clone, Copy, PartialEq, Eq)]
enum Trouble {
    Never,
    /// It fails at the call of this number, counted from 0.
    Fails(usize),
    /// It takes nothing at the call of this number.
    TakesNone(usize),
}

/// Gives one byte at each call.
#[derive(Drop)]
struct DrippingReader<'a> {
    bytes: &'a [u8],
    calls: usize,
    trouble: Trouble,
}

impl<'a> Read for DrippingReader<'a> {
    fn read(&mut self, buf: &mut [u8]) -> io::Result<usize> {
        let call = self.calls;
        if self.trouble == Trouble::Fails(call) {
            return Err(io::Error::from(ErrorKind::Other));
        }
        self.calls = call.saturating_add(1);
        match (self.bytes.get(call), buf.first_mut()) {
            (Some(byte), Some(place)) => {
                *place = *byte;
                Ok(1)
            }
            _ => Ok(0),
        }
    }
}

/// Takes one byte at each call.
#[derive(Drop)]
struct DrippingWriter {
    taken: Vec<u8>,
    trouble: Trouble,
}

impl Write for DrippingWriter {
    fn write(&mut self, buf: &[u8]) -> io::Result<usize> {
        let call = self.taken.len();
        if self.trouble == Trouble::TakesNone(call) {
            return Ok(0);
        }
        match buf.first() {
            Some(byte) if self.trouble != Trouble::Fails(call) => {
                match self.taken.push(*byte) {
                    Ok(()) => Ok(1),
                    Err(_) => Err(io::Error::from(ErrorKind::OutOfMemory)),
                }
            }
            _ => Err(io::Error::from(ErrorKind::Other)),
        }
    }

    fn flush(&mut self) -> io::Result<()> {
        Ok(())
    }
}

/// An event that makes pairs, a held undo, and an unwinding.
const INPUT: &[u8] =
    b"G(E,a) = D(b,E);\n---\nfire 0 2\nfire 1 0.0\nfire 3 0.3\nundo 0 2\nfire 1.1 3.0\nwhy 1.1 3.0\nunwind 3 0.3\n";

const OUTPUT: &[u8] =
    b"fired 0 2\nfired 1 0.0\nfired 3 0.3\nrefused 32 held by 1 0.0\nfired 1.1 3.0\nwhy 1.1 3.0 rank 2 causes 3\n0 2\n1 0.0\n3 0.3\nunwound 2\n1.1 3.0\n3 0.3\n";

/// How the session ends with such a reader and such a writer, and what was written.
fn ended<R: Threads + Wait + Sync>(
    rt: &R,
    alloc: Global,
    reading: Trouble,
    writing: Trouble,
) -> (Result<Status, Fault>, Vec<u8>) {
    let mut reader = DrippingReader {
        bytes: INPUT,
        calls: 0,
        trouble: reading,
    };
    let mut writer = DrippingWriter {
        taken: Vec::new(alloc),
        trouble: writing,
    };
    let end = run(rt, alloc, plain(1), MAX_READS, &mut reader, &mut writer);
    (end, writer.taken)
}

/// How the session ends, and how many bytes were written, if they are the first ones of what it writes.
fn ended_after<R: Threads + Wait + Sync>(
    rt: &R,
    alloc: Global,
    reading: Trouble,
    writing: Trouble,
) -> (Result<Status, Fault>, Option<usize>) {
    let (end, written) = ended(rt, alloc, reading, writing);
    if OUTPUT.starts_with(&written) {
        (end, Some(written.len()))
    } else {
        (end, None)
    }
}

#[test]
fn bytes_that_come_and_go_one_by_one(rt: HostRuntime) -> Result<(), Fail> {
    let (end, count) = ended_after(&rt, rt.alloc(), Trouble::Never, Trouble::Never);
    assert_eq!(rt; end, Ok(Status::Ended));
    assert_eq!(rt; count, Some(OUTPUT.len()));
    Ok(())
}

#[test]
fn a_reader_that_fails_at_each_call(rt: HostRuntime) -> Result<(), Fail> {
    for call in 0..INPUT.len() + 1 {
        let (end, count) = ended_after(&rt, rt.alloc(), Trouble::Fails(call), Trouble::Never);
        assert_eq!(rt; end, Err(Fault::Read));
        assert!(rt; count.is_some());
    }
    Ok(())
}

#[test]
fn a_writer_that_fails_at_each_call(rt: HostRuntime) -> Result<(), Fail> {
    for call in 0..OUTPUT.len() {
        for trouble in [Trouble::Fails(call), Trouble::TakesNone(call)] {
            let (end, count) = ended_after(&rt, rt.alloc(), Trouble::Never, trouble);
            assert_eq!(rt; end, Err(Fault::Write));
            assert_eq!(rt; count, Some(call));
        }
    }
    Ok(())
}

/// How a session with so many reads ends over this input, and what was written.
fn bounded<R: Threads + Wait + Sync>(
    rt: &R,
    alloc: Global,
    bytes: &[u8],
    reads: u32,
) -> (Result<Status, Fault>, Vec<u8>) {
    let mut reader = DrippingReader {
        bytes,
        calls: 0,
        trouble: Trouble::Never,
    };
    let mut writer = Vec::new(alloc);
    let end = run(rt, alloc, plain(1), reads, &mut reader, &mut writer);
    (end, writer)
}

/// How it ends, and whether this was written.
fn bounded_to<R: Threads + Wait + Sync>(
    rt: &R,
    alloc: Global,
    bytes: &[u8],
    reads: u32,
    text: &[u8],
) -> (Result<Status, Fault>, bool) {
    let (end, written) = bounded(rt, alloc, bytes, reads);
    (end, written.as_slice() == text)
}

const LONG: &[u8] = b"G(x,a) = D(x,b);\n---\nnet\nactive\n";

const SHORT: &[u8] = b"---\nnet\n";

const EMPTY_NET: &[u8] = b"# agents 0 wires 0 rings 0\n";

/// Inputs, with how many reads there are, what is written and how the session ends. The short one takes one read for each
/// byte, and one that finds the end.
const FEW_READS: [(&[u8], u32, &[u8], Result<Status, Fault>); 3] = [
    (LONG, 5, b"", Err(Fault::Read)),
    (SHORT, 8, EMPTY_NET, Err(Fault::Read)),
    (SHORT, 9, EMPTY_NET, Ok(Status::Ended)),
];

#[test]
fn a_session_of_few_reads(rt: HostRuntime) {
    for (bytes, reads, text, wanted) in &FEW_READS {
        let (end, written) = bounded_to(&rt, rt.alloc(), bytes, *reads, text);
        assert_eq!(rt; end, *wanted);
        assert!(rt; written, "{reads} reads");
    }
}
