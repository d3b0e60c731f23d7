use crate::session::running::{plain, run};
use ic_command::Input;
use ic_session::net_input::{NetInput, read_net_text};
use ic_session::refusal::refusal_line;
use ic_session::{Fault, MAX_READS, Prompts, Source};
use ic_text::Refusal;
use std::alloc::Global;
use std::io;
use std::io::{ErrorKind, Read, Write};
use std::test::Fail;

/// A reader that fails at once.
#[derive(Drop)]
struct Broken;

impl Read for Broken {
    fn read(&mut self, _buf: &mut [u8]) -> io::Result<usize> {
        Err(io::Error::from(ErrorKind::Other))
    }
}

/// A writer that fails at once.
#[derive(Drop)]
struct Full;

impl Write for Full {
    fn write(&mut self, _buf: &[u8]) -> io::Result<usize> {
        Err(io::Error::from(ErrorKind::Other))
    }

    fn flush(&mut self) -> io::Result<()> {
        Ok(())
    }
}

#[test]
fn a_fault_of_reading(rt: HostRuntime) -> Result<(), Fail> {
    let mut writer = Vec::new(rt.alloc());
    let unread = run(
        &rt,
        rt.alloc(),
        plain(1),
        MAX_READS,
        &mut Broken,
        &mut writer,
    );
    assert_eq!(rt; unread, Err(Fault::Read));
    assert!(rt; writer.is_empty());
    Ok(())
}

#[test]
fn a_fault_of_writing(rt: HostRuntime) -> Result<(), Fail> {
    let mut reader = b"---\nnet\n".as_slice();
    let unwritten = run(&rt, rt.alloc(), plain(1), MAX_READS, &mut reader, &mut Full);
    assert_eq!(rt; unwritten, Err(Fault::Write));
    Ok(())
}

/// Whether the net text in front of the bar is read so.
fn reads_net(alloc: Global, mut reader: &[u8], text: &[u8]) -> Result<bool, Fail> {
    let mut source = Source::new(alloc, Input::new(alloc, 10)?, &mut reader);
    let mut errors: Vec<u8> = Vec::new(alloc);
    match read_net_text(alloc, &mut source, &mut errors, Prompts::Silent) {
        Ok(NetInput::Whole { text: net, barred }) => Ok(barred && net.as_slice() == text),
        _ => Ok(false),
    }
}

#[test]
fn the_net_text_is_read_alone(rt: HostRuntime) -> Result<(), Fail> {
    assert!(rt; reads_net(rt.alloc(), b"x = x;\n---\nnet\n", b"x = x;\n")?);
    Ok(())
}

#[test]
fn a_fault_is_named_with_its_place(rt: HostRuntime) -> Result<(), Fail> {
    let line = refusal_line(rt.alloc(), Refusal::Thrice(4))?;
    assert_eq!(rt; line.as_slice(), b"refused 5 at 4\n".as_slice());
    Ok(())
}
