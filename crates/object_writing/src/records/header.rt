//! The first record of a module, and the last ones.

ghost use Rattle.std.specs.Prelude.{◌≡◌, ◌+◌, ◌*◌, ◌≤◌, ◌++◌, length, flat_map, OnOk, OnErr};
ghost use Rattle.std.specs.Io.KnownBytes.{Appends};
ghost use Rattle.omf80.specs.Records.{bytes_of};
ghost use Rattle.failure.specs.Writing.{AppendsBeginning};
ghost use Rattle.object_writing.specs.internal.Contents.{end_text, header_text, listed_bytes, module_end_text};

use crate::records::body::{Body, write_body};
use crate::records::numbers::{number_of_alignment, number_of_segment, word};
use failure::{Failure, WriteFault};
use object_modules::{Alignment, Segment};
use omf80::{BODY_LIMIT, RecordKind};
use std::io::Write;

/// What a header says of a segment.
#[derive(Clone, Copy)]
pub struct SegmentEntry {
    pub segment: Segment,
    /// How many bytes it has.
    pub size: u16,
    pub alignment: Alignment,
}

// Adds the entry of a segment, if it has bytes.
fn put_entry(body: &mut Body, entry: &SegmentEntry)
    requires { length body.old + 4 ≤ BODY_LIMIT }
    ensures bytes { body.new ≡ body.old ++ listed_bytes entry.now }
    ensures longer { length body.new ≤ length body.old + 4 }
{
    if entry.size != 0 {
        let [low, high] = word(entry.size);
        let number = number_of_segment(entry.segment);
        body.put(&[number, low, high, number_of_alignment(entry.alignment)]);
    }
}

// Adds the entries of segments that have bytes.
fn put_entries(body: &mut Body, entries: &[SegmentEntry])
    requires { length body.old + 4 * length entries.now ≤ BODY_LIMIT }
    ensures { body.new ≡ body.old ++ flat_map listed_bytes entries.now }
{
    for entry in entries {
        put_entry(body, entry);
    }
}

// The body of a header.
#[tactic(auto, using(crate::proofs::Entries::header_is))]
fn header_body(name: &[u8], entries: &[SegmentEntry]) -> Body
    requires name { length name.now ≤ 31 }
    requires entries { length entries.now ≤ 3 }
    ensures { bytes_of (record { kind = RecordKind.Header; body = result })
        ≡ header_text name.now entries.now }
{
    let mut body = Body::new();
    body.put(&[name.len() as u8]);
    body.put(name);
    body.put(&[0, 0]);
    put_entries(&mut body, entries);
    body
}

/// Writes the record of a module's name, and of its segments that have bytes, in order. After a failure the
/// writer has a beginning of it.
pub fn write_header<W: Write>(
    out: &mut W,
    name: &[u8],
    entries: &[SegmentEntry],
) -> Result<(), Failure<WriteFault>>
    requires name { length name.now ≤ 31 }
    requires entries { length entries.now ≤ 3 }
    ensures ok { OnOk result (Appends (W.contents out.old) (W.contents out.new)
        (header_text name.now entries.now)) }
    ensures err { OnErr result
        (AppendsBeginning (W.contents out.old) (W.contents out.new) (header_text name.now entries.now)) }
{
    let body = header_body(name, entries);
    write_body(RecordKind::Header, body.as_slice(), out)
}

// Writes the record of the end of a module.
fn write_module_end<W: Write>(start: Option<u16>, out: &mut W) -> Result<(), Failure<WriteFault>>
    ensures ok { OnOk result (Appends (W.contents out.old) (W.contents out.new) (module_end_text start)) }
    ensures err { OnErr result
        (AppendsBeginning (W.contents out.old) (W.contents out.new) (module_end_text start)) }
{
    match start {
        Some(offset) => {
            let [low, high] = word(offset);
            write_body(RecordKind::ModuleEnd, &[1, 1, low, high], out)
        }
        None => write_body(RecordKind::ModuleEnd, &[0, 0, 0, 0], out),
    }
}

/// Writes the records that end a module, with the offset in its code where a main module starts, and its file.
/// After a failure the writer has a beginning of them.
pub fn write_end<W: Write>(out: &mut W, start: Option<u16>) -> Result<(), Failure<WriteFault>>
    ensures ok { OnOk result (Appends (W.contents out.old) (W.contents out.new) (end_text start)) }
    ensures err { OnErr result (AppendsBeginning (W.contents out.old) (W.contents out.new) (end_text start)) }
{
    write_module_end(start, out)?;
    write_body(RecordKind::EndOfFile, &[], out)
}
