//! Bytes sent to a writer, and what a failure leaves there.
#![tactic(auto)]

ghost use Rattle.std.specs.Prelude.{◌≡◌, ℕ, ◌≤◌, ◌<◌, codes, length, OnOk, OnErr, IfOk};
ghost use Rattle.std.specs.Io.KnownBytes.{Appends, WriteAppends};
ghost use Rattle.failure.specs.Writing.{AppendsBeginning};

use crate::Failure;
use std::io;
use std::io::Write;
use thiserror::Error;

/// A writer did not take all that it was given.
#[derive(Clone, Copy, Debug, Error)]
#[error("a write failed")]
pub struct WriteFault;

impl WriteFault {
    /// The number of the fault, as `plm` prints it.
    pub fn number(&self) -> &'static str
        ensures { result.now ≡ codes "U3" }
    {
        "U3"
    }
}

// What the failure of a writer is to the caller.
fn failure_of(error: &io::Error) -> Failure<WriteFault> {
    match error.kind() {
        io::ErrorKind::OutOfMemory => Failure::Memory,
        _ => Failure::Fault(WriteFault),
    }
}

/// Writes some of the bytes from the front, at least one, as `Write::write` does, and tries again where a signal
/// interrupted the write. A write that takes no byte is a fault.
pub fn write_some<W: Write>(out: &mut W, bytes: &[u8]) -> Result<usize, Failure<WriteFault>>
    requires { 0 < length bytes.now }
    ensures some { IfOk result (λ n. 0 < n) }
    ensures bound { IfOk result (λ n. n ≤ length bytes.now) }
    ensures bytes { WriteAppends (W.contents out.old) (W.contents out.new) result bytes.now }
{
    for _ in 0..u64::MAX {
        match out.write(bytes) {
            Ok(0) => return Err(Failure::Fault(WriteFault)),
            Ok(n) => return Ok(n),
            Err(e) if e.kind() == io::ErrorKind::Interrupted => {}
            Err(e) => return Err(failure_of(&e)),
        }
    }
    Err(Failure::Fault(WriteFault))
}

/// Writes all the bytes. After a failure the writer has a beginning of them.
pub fn write_bytes<W: Write>(out: &mut W, bytes: &[u8]) -> Result<(), Failure<WriteFault>>
    ensures ok { OnOk result (Appends (W.contents out.old) (W.contents out.new) bytes.now) }
    ensures err { OnErr result (AppendsBeginning (W.contents out.old) (W.contents out.new) bytes.now) }
{
    let mut sent = 0;
    while sent < bytes.len() {
        sent += write_some(out, &bytes[sent..])?;
    }
    Ok(())
}
