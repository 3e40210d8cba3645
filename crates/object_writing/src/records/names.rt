//! Records of names.

ghost use Rattle.std.specs.Prelude.{◌≡◌, map, flat_map, OnOk, OnErr};
ghost use Rattle.std.specs.Io.KnownBytes.{Appends};
ghost use Rattle.object_modules.specs.Before.{same_segment};
ghost use Rattle.object_modules.specs.Parts.{part_bytes};
ghost use Rattle.object_modules.specs.Text.{external_parts, public_parts};
ghost use Rattle.object_modules.specs.internal.Views.{owned_public_view};
ghost use Rattle.failure.specs.Writing.{AppendsBeginning};
ghost use Rattle.object_writing.specs.internal.Groups.{flushed_by, records_of, with_item};
ghost use Rattle.object_writing.specs.internal.Named.{name_entry, owned_entry};

use crate::records::group::Group;
use crate::records::numbers::number_of_segment;
use failure::{Failure, WriteFault};
use object_modules::{Name, OwnedPublic, Segment};
use std::io::Write;

// Adds a name.
#[tactic(auto, using(crate::proofs::Entries::name_short))]
fn add_name<W: Write>(
    group: &mut Group,
    name: &Name,
    out: &mut W,
) -> Result<(), Failure<WriteFault>>
    ensures ok { OnOk result (Appends (W.contents out.old) (W.contents out.new)
        (flushed_by group.old (name_entry name.now))) }
    ensures err { OnErr result (AppendsBeginning (W.contents out.old) (W.contents out.new)
        (flushed_by group.old (name_entry name.now))) }
    ensures group { OnOk result (group.new ≡ with_item group.old (name_entry name.now)) }
{
    group.add_name(name.as_slice(), out)
}

// Whether a public name is in a segment.
fn is_in(public: &OwnedPublic, segment: Segment) -> bool
    ensures { result ≡ same_segment public.now.segment segment }
{
    number_of_segment(public.segment) == number_of_segment(segment)
}

// Adds a public name, if it is one of a segment.
#[tactic(auto, using(crate::proofs::Entries::name_short))]
fn add_public<W: Write>(
    group: &mut Group,
    segment: Segment,
    public: &OwnedPublic,
    out: &mut W,
) -> Result<(), Failure<WriteFault>>
    ensures ok { OnOk result (Appends (W.contents out.old) (W.contents out.new)
        (flushed_by group.old (owned_entry segment public.now))) }
    ensures err { OnErr result (AppendsBeginning (W.contents out.old) (W.contents out.new)
        (flushed_by group.old (owned_entry segment public.now))) }
    ensures group { OnOk result
        (group.new ≡ with_item group.old (owned_entry segment public.now)) }
{
    if is_in(public, segment) {
        group.add_definition(public.offset, public.name.as_slice(), out)
    } else {
        Ok(())
    }
}

// Writes the records of names from a group that is begun.
fn write_names<W: Write>(
    group: &mut Group,
    names: &[Name],
    out: &mut W,
) -> Result<(), Failure<WriteFault>>
    ensures ok { OnOk result
        (Appends (W.contents out.old) (W.contents out.new) (records_of group.old (map name_entry names.now))) }
    ensures err { OnErr result (AppendsBeginning (W.contents out.old) (W.contents out.new)
        (records_of group.old (map name_entry names.now))) }
{
    for name in names {
        add_name(group, name, out)?;
    }
    group.finish(out)
}

// Writes the records of those public names that are in a segment, from a group that is begun.
fn write_definitions<W: Write>(
    group: &mut Group,
    segment: Segment,
    publics: &[OwnedPublic],
    out: &mut W,
) -> Result<(), Failure<WriteFault>>
    ensures ok { OnOk result (Appends (W.contents out.old) (W.contents out.new)
        (records_of group.old (map (owned_entry segment) publics.now))) }
    ensures err { OnErr result (AppendsBeginning (W.contents out.old) (W.contents out.new)
        (records_of group.old (map (owned_entry segment) publics.now))) }
{
    for public in publics {
        add_public(group, segment, public, out)?;
    }
    group.finish(out)
}

/// Writes the records of external names, in their order. After a failure the writer has a beginning of them.
#[tactic(auto, using(crate::proofs::Entries::names_are))]
pub fn write_external_names<W: Write>(
    out: &mut W,
    names: &[Name],
) -> Result<(), Failure<WriteFault>>
    ensures ok { OnOk result
        (Appends (W.contents out.old) (W.contents out.new) (flat_map part_bytes (external_parts names.now))) }
    ensures err { OnErr result (AppendsBeginning (W.contents out.old) (W.contents out.new)
        (flat_map part_bytes (external_parts names.now))) }
{
    let mut group = Group::external_names();
    write_names(&mut group, names, out)
}

/// Writes the records of those public names that are in a segment, in their order. After a failure the writer
/// has a beginning of them.
#[tactic(auto, using(crate::proofs::Entries::owned_are))]
pub fn write_publics<W: Write>(
    out: &mut W,
    segment: Segment,
    publics: &[OwnedPublic],
) -> Result<(), Failure<WriteFault>>
    ensures ok { OnOk result (Appends (W.contents out.old) (W.contents out.new)
        (flat_map part_bytes (public_parts (map owned_public_view publics.now) segment))) }
    ensures err { OnErr result (AppendsBeginning (W.contents out.old) (W.contents out.new)
        (flat_map part_bytes (public_parts (map owned_public_view publics.now) segment))) }
{
    let mut group = Group::publics(segment);
    write_definitions(&mut group, segment, publics, out)
}
