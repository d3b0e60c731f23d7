ghost use Rattle.std.specs.Prelude.{◌≡◌, true, false, OnOk, IfErr, OnErr};
ghost use Rattle.std.specs.Io.KnownBytes.{Appends};
ghost use Rattle.ic_command.specs.Faults.{AppendsFront};

use crate::lines::IoFault;
use std::io::Write;

/// Writes all bytes, and flushes. A write that fails or takes no byte is a fault: then a first part of the bytes was written.
pub fn write_reply<W: Write>(writer: &mut W, bytes: &[u8]) -> Result<(), IoFault>
    ensures written { OnOk result (Appends (W.contents writer.old) (W.contents writer.new) bytes.now) }
    ensures front { OnErr result (AppendsFront (W.contents writer.old) (W.contents writer.new) bytes.now) }
    ensures fault { IfErr result (λ fault. fault ≡ IoFault.Write) }
{
    let mut done = 0;
    while done < bytes.len() {
        let Ok(count) = writer.write(&bytes[done..]) else {
            return Err(IoFault::Write);
        };
        if count == 0 {
            return Err(IoFault::Write);
        }
        done += count;
    }
    match writer.flush() {
        Ok(()) => Ok(()),
        Err(_) => Err(IoFault::Write),
    }
}

/// What is known of a writer to which replies are written: whether it failed.
#[derive(Drop)]
pub struct Output {
    failed: bool,
}

impl Output {
    /// That of a writer which hasn't failed yet.
    pub fn new() -> Output
        ensures { result.failed ≡ false }
    {
        Output { failed: false }
    }

    /// Writes a reply as `write_reply` does, and notes a fault.
    pub fn reply<W: Write>(&mut self, writer: &mut W, bytes: &[u8]) -> Result<(), IoFault>
        ensures written { OnOk result (Appends (W.contents writer.old) (W.contents writer.new) bytes.now) }
        ensures same { OnOk result (self.new ≡ self.old) }
        ensures front { OnErr result (AppendsFront (W.contents writer.old) (W.contents writer.new) bytes.now) }
        ensures fault { IfErr result (λ fault. fault ≡ IoFault.Write) }
        ensures failed { OnErr result (self.new.failed ≡ true) }
    {
        match write_reply(writer, bytes) {
            Ok(()) => Ok(()),
            Err(fault) => {
                self.failed = true;
                Err(fault)
            }
        }
    }
}
