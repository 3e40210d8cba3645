//! Where a walk stands in the fixes of a content.

ghost use Rattle.std.specs.Prelude.{◌≡◌, ◌<◌, [], length, IfNone, IfSome};
ghost use Rattle.object_modules.specs.Before.{leading_fixes};
ghost use Rattle.object_modules.specs.internal.Walks.{parts_from};
ghost use Rattle.object_reading.specs.internal.Entries.{AreParts};
ghost use Rattle.object_reading.specs.internal.Fixes.{AreFixEntries};
ghost use Rattle.object_reading.specs.internal.Cursors.{fixes_left};

use crate::entries::fix_entries_of;
use crate::walks::cursor::next_record;
use object_modules::{FixKind, Segment};

/// Fixes of a content that were not handed out: entries of a fix record, and the bytes after the record. With
/// no target that is a segment, each entry has the number of an external name.
#[derive(Clone, Copy)]
pub(crate) struct FixCursor<'a> {
    pub(crate) own: Segment,
    pub(crate) target: Option<Segment>,
    pub(crate) kind: FixKind,
    pub(crate) entries: &'a [u8],
    pub(crate) rest: &'a [u8],
}

// The cursor at the entries of the next record, if it is a fix record.
#[tactic(auto, using(crate::proofs::NextFixes::fixes_follow, crate::proofs::NextFixes::fix_entries, crate::proofs::NextFixes::no_fixes_follow, crate::proofs::NextFixes::nothing_follows,))]
fn fixes_after<'a>(own: Segment, rest: &'a [u8]) -> Option<FixCursor<'a>>
    requires { AreParts rest.now }
    ensures none { IfNone result (leading_fixes own (parts_from rest.now) ≡ []) }
    ensures left { IfSome result (λ next. leading_fixes own (parts_from rest.now) ≡ fixes_left next) }
    ensures entries { IfSome result (λ next. AreFixEntries next.target next.entries.now) }
    ensures parts { IfSome result (λ next. AreParts next.rest.now) }
    ensures shorter { IfSome result (λ next. length next.rest.now < length rest.now) }
{
    let (read, rest) = next_record(rest)?;
    let (target, kind, entries) = fix_entries_of(own, &read)?;
    Some(FixCursor {
        own,
        target,
        kind,
        entries,
        rest,
    })
}

/// The cursor at the next fix record that has an entry left, or the same cursor if no fix is left.
pub(crate) fn fixes_from<'a>(cursor: FixCursor<'a>) -> FixCursor<'a>
    requires entries { AreFixEntries cursor.target cursor.entries.now }
    requires rest { AreParts cursor.rest.now }
    ensures left { fixes_left result ≡ fixes_left cursor.entry }
    ensures entries { AreFixEntries result.target result.entries.now }
    ensures rest { AreParts result.rest.now }
    ensures end { result.entries.now ≡ [] → fixes_left result ≡ [] }
{
    let mut cursor = cursor;
    while cursor.entries.is_empty() {
        match fixes_after(cursor.own, cursor.rest) {
            Some(next) => cursor = next,
            None => return cursor,
        }
    }
    cursor
}
