//! Where runs are cut into contents.

ghost use Rattle.std.specs.Prelude.{◌≡◌, ◌<◌, ◌≤◌, length};
ghost use Rattle.object_modules.specs.Module.{is_both};
ghost use Rattle.object_writing.specs.internal.Cuts.{count_before, cut_by, word_at};

use crate::records::CONTENT_LIMIT;
use object_modules::{Fix, FixKind};

// How many of the fixes, from the front on, begin before a place.
pub fn fixes_before(fixes: &[Fix], place: usize) -> usize
    ensures count { result ≡ count_before fixes.now place }
    ensures within { result ≤ length fixes.now }
{
    for (count, fix) in fixes.iter().enumerate() {
        if fix.offset as usize >= place {
            return count;
        }
    }
    fixes.len()
}

// Whether a fix takes two bytes.
fn is_both(kind: FixKind) -> bool
    ensures { result ≡ is_both kind }
{
    match kind {
        FixKind::Low | FixKind::High => false,
        FixKind::Both => true,
    }
}

// Whether a word that is fixed begins at a place, by fixes that ascend.
fn begins_word(fixes: &[Fix], place: usize) -> bool
    ensures { result ≡ word_at fixes.now place }
{
    match fixes.get(fixes_before(fixes, place)) {
        Some(fix) => is_both(fix.kind) && fix.offset as usize == place,
        None => false,
    }
}

/// How many bytes the next content takes of those that are left of a run, from a place on.
pub fn size_of_cut(left: usize, place: usize, fixes: &[Fix]) -> usize
    requires { place ≤ 65535 }
    ensures size { result ≡ cut_by fixes.now place left }
    ensures within { result ≤ left }
    ensures limit { result ≤ 1024 }
    ensures some { 0 < left → 0 < result }
{
    if left < CONTENT_LIMIT {
        left
    } else if begins_word(fixes, place + CONTENT_LIMIT - 1) {
        CONTENT_LIMIT - 1
    } else {
        CONTENT_LIMIT
    }
}
