//! Entries of fix records are judged by the names and the segments that they refer to.

ghost use Rattle.std.specs.Prelude.{◌≡◌};
ghost use Rattle.object_reading.specs.internal.References.{is_known, entries_fit, target_fits};

use crate::entries::fix_in_front;
use object_modules::{FixKind, Segment, Target};
use omf80::RecordKind;

// Whether a target is a segment, or an external name with a number below `external_count`.
fn is_known(target: Target, external_count: usize) -> bool
    ensures { result ≡ is_known external_count target }
{
    match target {
        Target::InSegment(_) => true,
        Target::External(number) => (number as usize) < external_count,
    }
}

/// Whether bytes are entries of a fix record, where each external name is known.
#[tactic(auto, using(crate::proofs::FixReferences::fit_more, crate::proofs::FixReferences::fit_other, crate::proofs::FixReferences::fit_end, crate::proofs::FixEntries::fewer_then,))]
pub fn entries_fit(
    target: Option<Segment>,
    kind: FixKind,
    entries: &[u8],
    external_count: usize,
) -> bool
    ensures { result ≡ entries_fit external_count target kind entries.now }
{
    let mut entries = entries;
    while let Some((fix, after)) = fix_in_front(target, kind, entries) {
        if !is_known(fix.target, external_count) {
            return false;
        }
        entries = after;
    }
    entries.is_empty()
}

/// Whether a fix record of a kind may have this target, where its content is in a segment of its own.
pub fn target_fits(own: Segment, kind: RecordKind, target: Option<Segment>) -> bool
    ensures { result ≡ target_fits own kind target }
{
    match (kind, target) {
        (RecordKind::IntersegmentReferences, Some(segment)) => {
            segment != Segment::Absolute && segment != own
        }
        _ => true,
    }
}
