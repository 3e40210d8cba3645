//! Records of contents and of their fixes.

ghost use Rattle.std.specs.Prelude.{◌≡◌, ◌≤◌, ◌++◌, length, map, OnOk, OnErr};
ghost use Rattle.std.specs.Io.KnownBytes.{Appends};
ghost use Rattle.object_modules.specs.Parts.{part_bytes};
ghost use Rattle.failure.specs.Writing.{AppendsBeginning};
ghost use Rattle.object_writing.specs.internal.Contents.{content_text};
ghost use Rattle.object_writing.specs.internal.Groups.{flushed_by, records_of, with_item};
ghost use Rattle.object_writing.specs.internal.Fixes.{content_part, fix_entry, fixes_to, group_for, kind_text, lists_segment, name_entry, other_text, others_text, place_entry, fixes_text};

use crate::records::body::{Body, write_body};
use crate::records::group::Group;
use crate::records::numbers::{number_of_kind, number_of_segment, word};
use failure::{Failure, WriteFault};
use object_modules::{Fix, FixKind, Segment, Target};
use omf80::RecordKind;
use std::io::Write;

/// How many bytes a content has at most.
pub const CONTENT_LIMIT: usize = 1024;

// What the fixes of a record go to.
#[derive(Clone, Copy)]
enum Referred {
    Names,
    Own(Segment),
    Other(Segment),
}

// A record of fixes of a kind, with no entries yet.
fn group_for(referred: Referred, kind: FixKind) -> Group
    ensures { result ≡ group_for referred kind }
{
    match referred {
        Referred::Names => Group::external_references(kind),
        Referred::Own(_) => Group::relocation(kind),
        Referred::Other(target) => Group::intersegment(target, kind),
    }
}

// Adds a place that refers to an external name, if those are listed.
fn add_to_name<W: Write>(
    group: &mut Group,
    referred: Referred,
    external: u16,
    offset: u16,
    out: &mut W,
) -> Result<(), Failure<WriteFault>>
    ensures ok { OnOk result (Appends (W.contents out.old) (W.contents out.new)
        (flushed_by group.old (name_entry referred external offset))) }
    ensures err { OnErr result (AppendsBeginning (W.contents out.old) (W.contents out.new)
        (flushed_by group.old (name_entry referred external offset))) }
    ensures group { OnOk result (group.new ≡ with_item group.old (name_entry referred external offset)) }
{
    match referred {
        Referred::Names => group.add_reference(external, offset, out),
        Referred::Own(_) | Referred::Other(_) => Ok(()),
    }
}

// Whether the fixes to a segment are among those listed.
fn lists_segment(referred: Referred, target: Segment) -> bool
    ensures { result ≡ lists_segment referred target }
{
    match referred {
        Referred::Names => false,
        Referred::Own(segment) | Referred::Other(segment) => {
            number_of_segment(target) == number_of_segment(segment)
        }
    }
}

// Adds a place that refers to a segment, if it is the one whose places are listed.
fn add_to_segment<W: Write>(
    group: &mut Group,
    referred: Referred,
    target: Segment,
    offset: u16,
    out: &mut W,
) -> Result<(), Failure<WriteFault>>
    ensures ok { OnOk result (Appends (W.contents out.old) (W.contents out.new)
        (flushed_by group.old (place_entry referred target offset))) }
    ensures err { OnErr result (AppendsBeginning (W.contents out.old) (W.contents out.new)
        (flushed_by group.old (place_entry referred target offset))) }
    ensures group { OnOk result (group.new ≡ with_item group.old (place_entry referred target offset)) }
{
    if lists_segment(referred, target) {
        group.add_offset(offset, out)
    } else {
        Ok(())
    }
}

// Adds a fix, if it is one of a kind and goes to what is listed.
fn add_fix<W: Write>(
    group: &mut Group,
    referred: Referred,
    kind: FixKind,
    fix: &Fix,
    out: &mut W,
) -> Result<(), Failure<WriteFault>>
    ensures ok { OnOk result (Appends (W.contents out.old) (W.contents out.new)
        (flushed_by group.old (fix_entry referred kind fix.now))) }
    ensures err { OnErr result (AppendsBeginning (W.contents out.old) (W.contents out.new)
        (flushed_by group.old (fix_entry referred kind fix.now))) }
    ensures group { OnOk result (group.new ≡ with_item group.old (fix_entry referred kind fix.now)) }
{
    if number_of_kind(fix.kind) != number_of_kind(kind) {
        return Ok(());
    }
    match fix.target {
        Target::External(number) => add_to_name(group, referred, number, fix.offset, out),
        Target::InSegment(target) => add_to_segment(group, referred, target, fix.offset, out),
    }
}

// Writes the records of those fixes that are of a kind and go to what is listed, from a group that is begun.
fn write_entries<W: Write>(
    group: &mut Group,
    referred: Referred,
    kind: FixKind,
    fixes: &[Fix],
    out: &mut W,
) -> Result<(), Failure<WriteFault>>
    ensures ok { OnOk result (Appends (W.contents out.old) (W.contents out.new)
        (records_of group.old (map (fix_entry referred kind) fixes.now))) }
    ensures err { OnErr result (AppendsBeginning (W.contents out.old) (W.contents out.new)
        (records_of group.old (map (fix_entry referred kind) fixes.now))) }
{
    for fix in fixes {
        add_fix(group, referred, kind, fix, out)?;
    }
    group.finish(out)
}

// Writes the records of those fixes that are of a kind and go to what is listed.
fn write_kind<W: Write>(
    referred: Referred,
    kind: FixKind,
    fixes: &[Fix],
    out: &mut W,
) -> Result<(), Failure<WriteFault>>
    ensures ok { OnOk result
        (Appends (W.contents out.old) (W.contents out.new) (kind_text referred fixes.now kind)) }
    ensures err { OnErr result
        (AppendsBeginning (W.contents out.old) (W.contents out.new) (kind_text referred fixes.now kind)) }
{
    let mut group = group_for(referred, kind);
    write_entries(&mut group, referred, kind, fixes, out)
}

// Writes the records of the fixes that go to what is listed, by kinds.
fn write_fixes_to<W: Write>(
    referred: Referred,
    fixes: &[Fix],
    out: &mut W,
) -> Result<(), Failure<WriteFault>>
    ensures ok { OnOk result (Appends (W.contents out.old) (W.contents out.new) (fixes_to referred fixes.now)) }
    ensures err { OnErr result
        (AppendsBeginning (W.contents out.old) (W.contents out.new) (fixes_to referred fixes.now)) }
{
    write_kind(referred, FixKind::Low, fixes, out)?;
    write_kind(referred, FixKind::High, fixes, out)?;
    write_kind(referred, FixKind::Both, fixes, out)
}

// Writes the records of the fixes to a segment, if it is another than that of the content.
fn write_other<W: Write>(
    own: Segment,
    target: Segment,
    fixes: &[Fix],
    out: &mut W,
) -> Result<(), Failure<WriteFault>>
    ensures ok { OnOk result (Appends (W.contents out.old) (W.contents out.new)
        (other_text own fixes.now target)) }
    ensures err { OnErr result
        (AppendsBeginning (W.contents out.old) (W.contents out.new) (other_text own fixes.now target)) }
{
    if number_of_segment(target) == number_of_segment(own) {
        Ok(())
    } else {
        write_fixes_to(Referred::Other(target), fixes, out)
    }
}

// Writes the records of the fixes to other segments than that of the content, by their numbers.
fn write_others<W: Write>(
    own: Segment,
    fixes: &[Fix],
    out: &mut W,
) -> Result<(), Failure<WriteFault>>
    ensures ok { OnOk result (Appends (W.contents out.old) (W.contents out.new) (others_text own fixes.now)) }
    ensures err { OnErr result
        (AppendsBeginning (W.contents out.old) (W.contents out.new) (others_text own fixes.now)) }
{
    write_other(own, Segment::Code, fixes, out)?;
    write_other(own, Segment::Data, fixes, out)?;
    write_other(own, Segment::Stack, fixes, out)
}

// Writes the records of the fixes of a content.
fn write_fixes<W: Write>(
    own: Segment,
    fixes: &[Fix],
    out: &mut W,
) -> Result<(), Failure<WriteFault>>
    ensures ok { OnOk result (Appends (W.contents out.old) (W.contents out.new) (fixes_text own fixes.now)) }
    ensures err { OnErr result
        (AppendsBeginning (W.contents out.old) (W.contents out.new) (fixes_text own fixes.now)) }
{
    write_fixes_to(Referred::Names, fixes, out)?;
    write_fixes_to(Referred::Own(own), fixes, out)?;
    write_others(own, fixes, out)
}

// Writes the record of bytes from an offset on.
fn write_bytes_at<W: Write>(
    segment: Segment,
    offset: u16,
    bytes: &[u8],
    out: &mut W,
) -> Result<(), Failure<WriteFault>>
    requires { length bytes.now ≤ CONTENT_LIMIT }
    ensures ok { OnOk result (Appends (W.contents out.old) (W.contents out.new)
        (part_bytes (content_part segment offset bytes.now))) }
    ensures err { OnErr result (AppendsBeginning (W.contents out.old) (W.contents out.new)
        (part_bytes (content_part segment offset bytes.now))) }
{
    let mut body = Body::new();
    let [low, high] = word(offset);
    body.put(&[number_of_segment(segment), low, high]);
    body.put(bytes);
    write_body(RecordKind::Content, body.as_slice(), out)
}

/// Writes the record of at most 1024 bytes that are set from an offset on, and those of their fixes, which
/// stand by their offsets. After a failure the writer has a beginning of them.
pub fn write_content<W: Write>(
    out: &mut W,
    segment: Segment,
    offset: u16,
    bytes: &[u8],
    fixes: &[Fix],
) -> Result<(), Failure<WriteFault>>
    requires { length bytes.now ≤ CONTENT_LIMIT }
    ensures ok { OnOk result (Appends (W.contents out.old) (W.contents out.new)
        (content_text segment offset bytes.now fixes.now)) }
    ensures err { OnErr result (AppendsBeginning (W.contents out.old) (W.contents out.new)
        (content_text segment offset bytes.now fixes.now)) }
{
    write_bytes_at(segment, offset, bytes, out)?;
    write_fixes(segment, fixes, out)
}
