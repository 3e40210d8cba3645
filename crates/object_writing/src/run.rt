//! Contents of a run.

ghost use Rattle.std.specs.Prelude.{◌≡◌, ◌+◌, ◌≤◌, length, OnOk, OnErr};
ghost use Rattle.std.specs.Io.KnownBytes.{Appends};
ghost use Rattle.failure.specs.Writing.{AppendsBeginning};
ghost use Rattle.object_writing.specs.internal.Cuts.{AreFixesOf, run_text};

use crate::cuts::{fixes_before, size_of_cut};
use crate::records::write_content;
use failure::{Failure, WriteFault};
use object_modules::{Fix, Segment};
use std::io::Write;

// Writes the contents of bytes that are set one after another from an offset on, with their fixes.
pub fn write_run<W: Write>(
    out: &mut W,
    segment: Segment,
    offset: u16,
    bytes: &[u8],
    fixes: &[Fix],
) -> Result<(), Failure<WriteFault>>
    requires within { offset + length bytes.now ≤ 65535 }
    requires fixes { AreFixesOf offset bytes.now fixes.now }
    ensures ok { OnOk result
        (Appends (W.contents out.old) (W.contents out.new) (run_text segment offset bytes.now fixes.now)) }
    ensures err { OnErr result (AppendsBeginning (W.contents out.old) (W.contents out.new)
        (run_text segment offset bytes.now fixes.now)) }
{
    let mut at = 0;
    let mut first = 0;
    while at < bytes.len() {
        let place = offset as usize + at;
        let size = size_of_cut(bytes.len() - at, place, &fixes[first..]);
        let count = fixes_before(&fixes[first..], place + size);
        let end = at + size;
        let last = first + count;
        write_content(
            out,
            segment,
            place as u16,
            &bytes[at..end],
            &fixes[first..last],
        )?;
        at = end;
        first = last;
    }
    Ok(())
}
