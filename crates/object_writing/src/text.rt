//! The one text of an object module.

ghost use Rattle.std.specs.Prelude.{◌≡◌, map, flat_map, OnOk, OnErr};
ghost use Rattle.std.specs.Io.KnownBytes.{Appends};
ghost use Rattle.object_modules.specs.Module.{IsObjectModule, alignment_of, length_of};
ghost use Rattle.object_modules.specs.Parts.{part_bytes};
ghost use Rattle.object_modules.specs.Spelling.{Spells};
ghost use Rattle.object_modules.specs.Text.{header_for, segment_parts, text_of, with_publics_in_order};
ghost use Rattle.object_modules.specs.internal.Views.{owned_public_view};
ghost use Rattle.failure.specs.Writing.{AppendsBeginning};
ghost use Rattle.object_writing.specs.internal.Texts.{names_text, publics_text, rest_text};

use crate::cuts::fixes_before;
use crate::records::{SegmentEntry, write_end, write_external_names, write_header, write_publics};
use crate::run::write_run;
use failure::{Failure, WriteFault};
use object_modules::{ObjectModule, OwnedPublic, Segment};
use std::io::Write;

// What the header says of a segment.
fn entry_of(object: &ObjectModule, segment: Segment) -> SegmentEntry
    ensures { result ≡ record {
      segment = segment;
      size = length_of object.now segment;
      alignment = alignment_of object.now segment;
    } }
{
    SegmentEntry {
        segment,
        size: object.length(segment),
        alignment: object.alignment(segment),
    }
}

// Writes the header.
#[tactic(auto, using(crate::proofs::Entries::name_short, crate::proofs::Texts::header_is))]
fn write_front<W: Write>(object: &ObjectModule, out: &mut W) -> Result<(), Failure<WriteFault>>
    ensures ok { OnOk result (Appends (W.contents out.old) (W.contents out.new)
        (part_bytes (header_for object.now))) }
    ensures err { OnErr result
        (AppendsBeginning (W.contents out.old) (W.contents out.new) (part_bytes (header_for object.now))) }
    ensures object { IsObjectModule object.now }
{
    let entries = [
        entry_of(object, Segment::Code),
        entry_of(object, Segment::Data),
        entry_of(object, Segment::Stack),
    ];
    write_header(out, object.name(), &entries)
}

// Writes the public names, by segments.
fn write_all_publics<W: Write>(
    publics: &[OwnedPublic],
    out: &mut W,
) -> Result<(), Failure<WriteFault>>
    ensures ok { OnOk result (Appends (W.contents out.old) (W.contents out.new)
        (publics_text (map owned_public_view publics.now))) }
    ensures err { OnErr result (AppendsBeginning (W.contents out.old) (W.contents out.new)
        (publics_text (map owned_public_view publics.now))) }
{
    write_publics(out, Segment::Absolute, publics)?;
    write_publics(out, Segment::Code, publics)?;
    write_publics(out, Segment::Data, publics)
}

// Writes the external names and the public ones.
fn write_names<W: Write>(object: &ObjectModule, out: &mut W) -> Result<(), Failure<WriteFault>>
    ensures ok { OnOk result (Appends (W.contents out.old) (W.contents out.new) (names_text object.now)) }
    ensures err { OnErr result
        (AppendsBeginning (W.contents out.old) (W.contents out.new) (names_text object.now)) }
{
    write_external_names(out, object.externals())?;
    write_all_publics(object.publics(), out)
}

// Writes the contents of a segment.
fn write_segment<W: Write>(
    object: &ObjectModule,
    segment: Segment,
    out: &mut W,
) -> Result<(), Failure<WriteFault>>
    requires { IsObjectModule object.now }
    ensures ok { OnOk result (Appends (W.contents out.old) (W.contents out.new)
        (flat_map part_bytes (segment_parts object.now segment))) }
    ensures err { OnErr result (AppendsBeginning (W.contents out.old) (W.contents out.new)
        (flat_map part_bytes (segment_parts object.now segment))) }
{
    let fixes = object.fixes(segment);
    let runs = object.runs(segment);
    let mut first = 0;
    for run in runs {
        let offset = run.offset();
        let bytes = run.bytes();
        let count = fixes_before(&fixes[first..], offset as usize + bytes.len());
        let last = first + count;
        write_run(out, segment, offset, bytes, &fixes[first..last])?;
        first = last;
    }
    Ok(())
}

// Writes the contents and the end.
fn write_rest<W: Write>(object: &ObjectModule, out: &mut W) -> Result<(), Failure<WriteFault>>
    requires { IsObjectModule object.now }
    ensures ok { OnOk result (Appends (W.contents out.old) (W.contents out.new) (rest_text object.now)) }
    ensures err { OnErr result
        (AppendsBeginning (W.contents out.old) (W.contents out.new) (rest_text object.now)) }
{
    write_segment(object, Segment::Code, out)?;
    write_segment(object, Segment::Data, out)?;
    write_end(out, object.start())
}

/// Writes the one text of a module: header, external names, public names by segments, contents with their
/// fixes, and the end. It spells the module, with its public names by segments. Takes no memory. After a failure the
/// writer has a beginning of it. The format is `docs/formats.md`.
#[tactic(auto, using(object_laws::proofs::Texts::WrittenAgain::text_spells))]
pub fn write<W: Write>(object: &ObjectModule, out: &mut W) -> Result<(), Failure<WriteFault>>
    ensures ok { OnOk result (Appends (W.contents out.old) (W.contents out.new) (text_of object.now)) }
    ensures err { OnErr result (AppendsBeginning (W.contents out.old) (W.contents out.new)
        (text_of object.now)) }
    ensures spelled { Spells (text_of object.now) (with_publics_in_order object.now) }
{
    write_front(object, out)?;
    write_names(object, out)?;
    write_rest(object, out)
}
