//! Fix records, and the fixes in front of their entries.

ghost use Rattle.std.specs.Prelude.{◌≡◌, None, Some};
ghost use Rattle.std.specs.Option.{option_map};
ghost use Rattle.omf80.specs.declared.kind.RecordKind.TheVariants.{ExternalReferences, Relocation, IntersegmentReferences};
ghost use Rattle.object_modules.specs.declared.segment.Segment.TheVariants.{Absolute};
ghost use Rattle.object_modules.specs.Reading.{fix_kind_of};
ghost use Rattle.object_reading.specs.internal.Fixes.{fix_in_front, fix_where};

use crate::entries::fronts::{segment_of, word};
use object_modules::{Fix, FixKind, Segment, Target};
use omf80::{Record, RecordKind};

// The kind of fix with a number.
fn fix_kind_of(number: u8) -> Option<FixKind>
    ensures { result ≡ fix_kind_of number }
{
    match number {
        1 => Some(FixKind::Low),
        2 => Some(FixKind::High),
        3 => Some(FixKind::Both),
        _ => None,
    }
}

// The target that is a segment, the kind and the entries of a record of external references.
fn external_references_of(body: &[u8]) -> Option<(Option<Segment>, FixKind, &[u8])>
    ensures { option_map (λ head. (head.0, head.1, head.2.now)) result
        ≡ fix_where Absolute ExternalReferences body.now }
{
    let [number, entries @ ..] = body else {
        return None;
    };
    let kind = fix_kind_of(*number)?;
    Some((None, kind, entries))
}

// The same of a record of relocations.
fn relocation_of(own: Segment, body: &[u8]) -> Option<(Option<Segment>, FixKind, &[u8])>
    ensures { option_map (λ head. (head.0, head.1, head.2.now)) result ≡ fix_where own Relocation body.now }
{
    let [number, entries @ ..] = body else {
        return None;
    };
    let kind = fix_kind_of(*number)?;
    Some((Some(own), kind, entries))
}

// The same of a record of intersegment references.
fn intersegment_of(body: &[u8]) -> Option<(Option<Segment>, FixKind, &[u8])>
    ensures { option_map (λ head. (head.0, head.1, head.2.now)) result
        ≡ fix_where Absolute IntersegmentReferences body.now }
{
    let [target, number, entries @ ..] = body else {
        return None;
    };
    let segment = segment_of(*target)?;
    let kind = fix_kind_of(*number)?;
    Some((Some(segment), kind, entries))
}

/// The target that is a segment, the kind and the entries of a fix record whose content is in this segment.
/// With no such target each entry names an external name.
pub fn fix_entries_of<'a>(
    own: Segment,
    read: &Record<'a>,
) -> Option<(Option<Segment>, FixKind, &'a [u8])>
    ensures { option_map (λ head. (head.0, head.1, head.2.now)) result
        ≡ fix_where own read.now.kind read.now.body.now }
{
    match read.kind {
        RecordKind::ExternalReferences => external_references_of(read.body),
        RecordKind::Relocation => relocation_of(own, read.body),
        RecordKind::IntersegmentReferences => intersegment_of(read.body),
        _ => None,
    }
}

/// The fix that entries begin with, and the bytes after it.
pub fn fix_in_front<'a>(
    target: Option<Segment>,
    kind: FixKind,
    entries: &'a [u8],
) -> Option<(Fix, &'a [u8])>
    ensures { option_map (λ first. (first.0, first.1.now)) result ≡ fix_in_front target kind entries.now }
{
    match target {
        None => reference_in_front(kind, entries),
        Some(segment) => place_in_front(kind, segment, entries),
    }
}

// The same, where each entry has an external name.
fn reference_in_front(kind: FixKind, entries: &[u8]) -> Option<(Fix, &[u8])>
    ensures { option_map (λ first. (first.0, first.1.now)) result ≡ fix_in_front None kind entries.now }
{
    let [low, high, offset_low, offset_high, rest @ ..] = entries else {
        return None;
    };
    let target = Target::External(word(*low, *high));
    let offset = word(*offset_low, *offset_high);
    Some((
        Fix {
            kind,
            target,
            offset,
        },
        rest,
    ))
}

// The same, where the target is a segment.
fn place_in_front(kind: FixKind, segment: Segment, entries: &[u8]) -> Option<(Fix, &[u8])>
    ensures { option_map (λ first. (first.0, first.1.now)) result
        ≡ fix_in_front (Some segment) kind entries.now }
{
    let [low, high, rest @ ..] = entries else {
        return None;
    };
    let target = Target::InSegment(segment);
    let offset = word(*low, *high);
    Some((
        Fix {
            kind,
            target,
            offset,
        },
        rest,
    ))
}
