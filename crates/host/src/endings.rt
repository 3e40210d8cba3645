//! How commands end, and what they print where they are refused.

ghost use Rattle.std.specs.Prelude.{◌≡◌};
ghost use Rattle.std.specs.List.{flat_map};
ghost use Rattle.host.specs.internal.Endings.{status_of};
ghost use Rattle.std.specs.IoError.{error_kind};
ghost use Rattle.host.specs.Refusals.{Tells, TellsOther, file_line, memory_line, output_line, refusal_line};
ghost use Rattle.failure.specs.Writing.{AppendsBeginning};

use crate::files::FileFault;
use failure::{WriteFault, write_bytes};
use itoa::Buffer;
use std::io;
use std::io::{ErrorKind, Write};

/// How a command ended.
#[derive(Clone, Copy)]
pub enum Ending {
    /// All was done, the program ended, or help was printed.
    Done,
    /// What was given was refused, memory ran out, or a file could not be read or written.
    Refused,
    /// The command line is wrong, or a value in it.
    WrongLine,
    /// The limit was met.
    Limit,
    /// The machine came to a code that the 8080 does not have, or a port failed.
    Stopped,
    /// The program went outside the language.
    Outside,
}

impl Ending {
    /// The exit status, 0 to 5.
    pub fn status(self) -> u8
        ensures { result ≡ status_of self }
    {
        match self {
            Ending::Done => 0,
            Ending::Refused => 1,
            Ending::WrongLine => 2,
            Ending::Limit => 3,
            Ending::Stopped => 4,
            Ending::Outside => 5,
        }
    }
}

/// A file could not be read or written.
pub fn refuse_file<E: Write>(fault: FileFault, name: &str, err: &mut E) -> Ending
    ensures ending { result ≡ Ending.Refused }
    ensures told { Tells (file_line name.now) (E.contents err.old) (E.contents err.new) }
{
    refuse(fault.number(), name, 0, err)
}

/// Standard output could not be written.
pub fn refuse_output<E: Write>(err: &mut E) -> Ending
    ensures ending { result ≡ Ending.Refused }
    ensures line { Tells output_line (E.contents err.old) (E.contents err.new) }
    ensures told { TellsOther (E.contents err.old) (E.contents err.new) }
{
    refuse(WriteFault.number(), "-", 0, err)
}

/// What was written to standard output was not taken, or memory ran out there.
pub fn refuse_write<E: Write>(error: &io::Error, err: &mut E) -> Ending
    ensures ending { result ≡ Ending.Refused }
    ensures memory { error_kind error.now ≡ ErrorKind.OutOfMemory →
        Tells memory_line (E.contents err.old) (E.contents err.new) }
    ensures output { (error_kind error.now ≡ ErrorKind.OutOfMemory → ⊥) →
        Tells output_line (E.contents err.old) (E.contents err.new) }
    ensures told { TellsOther (E.contents err.old) (E.contents err.new) }
{
    match error.kind() {
        ErrorKind::OutOfMemory => refuse_memory(err),
        _ => refuse_output(err),
    }
}

/// Memory ran out.
pub fn refuse_memory<E: Write>(err: &mut E) -> Ending
    ensures ending { result ≡ Ending.Refused }
    ensures line { Tells memory_line (E.contents err.old) (E.contents err.new) }
    ensures told { TellsOther (E.contents err.old) (E.contents err.new) }
{
    refuse("MEMORY", "-", 0, err)
}

/// Prints a number, where it was found and the line.
pub fn refuse<E: Write>(number: &str, place: &str, line: u32, err: &mut E) -> Ending
    ensures ending { result ≡ Ending.Refused }
    ensures told { Tells (refusal_line number.now place.now line)
        (E.contents err.old) (E.contents err.new) }
{
    refuse_name(number, place.as_bytes(), line, err)
}

/// Prints a number, the name that the fault is about, and the line. A failure of `err` ends the line.
pub fn refuse_name<E: Write>(number: &str, name: &[u8], line: u32, err: &mut E) -> Ending
    ensures ending { result ≡ Ending.Refused }
    ensures told { Tells (refusal_line number.now name.now line)
        (E.contents err.old) (E.contents err.new) }
{
    let mut digits = Buffer::new();
    let line = digits.format(line);
    write_pieces(
        &[number.as_bytes(), b" ", name, b" ", line.as_bytes(), b"\n"],
        err,
    );
    Ending::Refused
}

// Writes pieces one after another, up to one that is not taken whole.
#[tactic(auto, using(crate::proofs::LinesPrinted::all_sent))]
fn write_pieces<E: Write>(pieces: &[&[u8]], err: &mut E)
    ensures { AppendsBeginning (E.contents err.old) (E.contents err.new)
        (flat_map (λ piece. piece.now) pieces.now) }
{
    let mut rest = pieces;
    while let [piece, more @ ..] = rest {
        match write_bytes(err, piece) {
            Ok(()) => rest = more,
            Err(_) => return,
        }
    }
}
