ghost use Rattle.std.specs.Prelude.{◌≡◌, ◌≤◌, length, IfOk, IfSome};
ghost use Rattle.std.specs.Io.{ReadsAtMost};

use ic_session::MAX_READS;
use std::alloc::Global;
use std::fs::{Files, OpenOptions};
use std::io;
use std::io::Read;

/// The name of the standard input among files.
const INPUT: &str = "-";

/// The bytes that one read asks for, at most, when files are read ahead.
const CHUNK: usize = 8192;

/// What is read from at a time.
#[derive(Drop)]
enum Open<F> {
    Nothing,
    Input,
    File(F),
}

/// The files of a command line, read one after the other as one input. `-` is the standard input. A file is opened when the one
/// before it has ended. Those before the standard input may be read ahead.
#[derive(Drop)]
pub struct Sources<'a, F: Files, R: Read> {
    files: &'a F,
    names: &'a [&'a str],
    input: &'a mut R,
    open: Open<F::File>,
    next: usize,
    ends_with_input: bool,
    unread: Option<usize>,
    /// What was read ahead, and how much of it was taken.
    ahead: Vec<u8>,
    taken: usize,
    /// What kept a file from being read ahead.
    failed: Option<io::Error>,
    ghost within: { taken ≤ length ahead.items },
}

impl<'a, F: Files, R: Read> Sources<'a, F, R> {
    /// These files, and then the standard input, if they end with it.
    pub fn new(
        alloc: Global,
        files: &'a F,
        names: &'a [&'a str],
        input: &'a mut R,
        ends_with_input: bool,
    ) -> Sources<'a, F, R> {
        Sources {
            files,
            names,
            input,
            open: Open::Nothing,
            next: 0,
            ends_with_input,
            unread: None,
            ahead: Vec::new(alloc),
            taken: 0,
            failed: None,
        }
    }

    /// Reads the files before the standard input ahead, if that comes last, and answers how many lines end in them: how many
    /// aren't typed. If a file can't be read, no line is typed, and the answer is the greatest number. If memory runs out, the
    /// rest is read later.
    pub fn read_ahead(&mut self, alloc: Global) -> u64 {
        if !self.ends_with_input {
            return 0;
        }
        let mut ahead = Vec::new(alloc);
        let mut chunk = [0u8; CHUNK];
        for _read in 0..MAX_READS {
            if ahead.reserve(CHUNK).is_err() {
                break;
            }
            match self.read_file(&mut chunk) {
                Ok(Some(count)) => {
                    let Ok(()) = ahead.extend_from_slice(&chunk[..count]) else {
                        unreachable!()
                    };
                }
                Ok(None) => break,
                Err(error) => {
                    self.failed = Some(error);
                    break;
                }
            }
        }
        let feeds = ahead.iter().filter(|byte| **byte == b'\n').count();
        self.taken = 0;
        self.ahead = ahead;
        if self.failed.is_some() {
            return u64::MAX;
        }
        feeds as u64
    }

    /// Reads on from a file, or opens the next one and reads nothing of it yet. `None` if the standard input comes next, or
    /// nothing.
    fn read_file(&mut self, buf: &mut [u8]) -> io::Result<Option<usize>>
        ensures few { IfOk result (λ read. IfSome read (λ count. count ≤ length buf.new)) }
        ensures whole { length buf.new ≡ length buf.old }
    {
        let count = self.read_on(buf)?;
        if count > 0 {
            return Ok(Some(count));
        }
        self.unread = None;
        if self.names.get(self.next).is_none_or(|name| *name == INPUT) {
            return Ok(None);
        }
        self.open_next()?;
        Ok(Some(0))
    }

    /// Takes what was read ahead, as far as there is room.
    fn take_ahead(&mut self, buf: &mut [u8]) -> usize
        ensures few { result ≤ length buf.new }
        ensures whole { length buf.new ≡ length buf.old }
    {
        let rest = &self.ahead[self.taken..];
        let count = rest.len().min(buf.len());
        buf[..count].copy_from_slice(&rest[..count]);
        self.taken += count;
        count
    }

    /// The place of the file that couldn't be opened or read, if the last call of `read` met one.
    pub fn unread(&self) -> Option<usize> {
        self.unread
    }

    /// Reads on from the open file or the standard input.
    fn read_on(&mut self, buf: &mut [u8]) -> io::Result<usize>
        ensures { ReadsAtMost result buf.new }
    {
        match &mut self.open {
            Open::Nothing => Ok(0),
            Open::Input => self.input.read(buf),
            Open::File(file) => file.read(buf),
        }
    }

    /// Opens the next file. It is `false` if there is none.
    fn open_next(&mut self) -> io::Result<bool> {
        self.open = Open::Nothing;
        let Some(name) = self.names.get(self.next).copied() else {
            if self.ends_with_input {
                self.ends_with_input = false;
                self.open = Open::Input;
                return Ok(true);
            }
            return Ok(false);
        };
        let place = self.next;
        self.next += 1;
        if name == INPUT {
            self.open = Open::Input;
            return Ok(true);
        }
        self.unread = Some(place);
        let mut how = OpenOptions::new();
        how.read(true);
        self.open = Open::File(how.open(self.files, name)?);
        Ok(true)
    }
}

impl<F: Files, R: Read> Read for Sources<'_, F, R> {
    fn read(&mut self, buf: &mut [u8]) -> io::Result<usize> {
        let count = self.take_ahead(buf);
        if count > 0 {
            return Ok(count);
        }
        if let Some(error) = self.failed.take() {
            return Err(error);
        }
        for _file in 0..self.names.len() + 2 {
            let count = self.read_on(buf)?;
            if count > 0 || buf.is_empty() {
                return Ok(count);
            }
            self.unread = None;
            if !self.open_next()? {
                return Ok(0);
            }
        }
        Ok(0)
    }
}
