//! The latest content, and which of its bytes belong to a fix.

ghost use Rattle.std.specs.Prelude.{◌≡◌, ◌≤◌, ◌&&◌, [], true, Some, not, length, is_some};
ghost use Rattle.object_modules.specs.declared.segment.Segment.TheVariants.{Absolute};
ghost use Rattle.object_modules.specs.Module.{width_of};
ghost use Rattle.object_modules.specs.Rules.{is_within};
ghost use Rattle.object_reading.specs.internal.Entries.{content_at};
ghost use Rattle.object_reading.specs.internal.Fixes.{AreFixEntries, fixes_in};
ghost use Rattle.object_reading.specs.internal.Views.{content_view};
ghost use Rattle.object_reading.specs.internal.Marks.{is_marked, with_marks, marks_after, no_marks};
ghost use Rattle.object_reading.specs.internal.Marks.{unmarked, marked_after};

use crate::entries::{Content, fix_in_front};
use object_modules::{Fix, FixKind, Segment};
use std::marker::Model;

/// A content, with a mark for each of its bytes that belongs to a fix.
#[derive(Drop)]
pub struct MarkedContent<'a> {
    content: Content<'a>,
    marks: [bool; 1024],
}

impl<'a> Model for MarkedContent<'a> {
    ghost use Rattle.std.specs.Prelude.{◌≤◌, length};
    ghost use Rattle.object_reading.specs.internal.Views.{content_view};
    ghost use Rattle.object_reading.specs.internal.Marks.{Marked};

    ghost Value = { Marked };

    ghost view = { λ m. record { content = content_view m.content; marks = m.marks } };

    ghost invariant = { λ m. length m.content.bytes.now ≤ 1024 };
}

// A mark for each byte of the longest content, none of them set.
fn no_marks() -> [bool; 1024]
    ensures { result ≡ no_marks }
{
    [false; 1024]
}

// How many bytes a fix takes.
fn width_of(kind: FixKind) -> usize
    ensures { result ≡ width_of kind }
{
    match kind {
        FixKind::Low => 1,
        FixKind::High => 1,
        FixKind::Both => 2,
    }
}

// Marks the bytes of a fix. Returns whether it lies within the content and none of its bytes was marked; if not,
// nothing changes.
fn place_fix(marks: &mut [bool], content: &Content, fix: &Fix) -> bool
    requires { length content.now.bytes.now ≤ length marks.old }
    ensures fits { result ≡ (is_within (content_view content.now) fix.now
        && not (is_marked marks.old (content_view content.now) fix.now)) }
    ensures marks { result ≡ true
        → marks.new ≡ with_marks marks.old (content_view content.now) fix.now }
    ensures long { length marks.new ≡ length marks.old }
{
    let width = width_of(fix.kind);
    let start = content.offset as usize;
    let place = fix.offset as usize;
    if place < start || start + content.bytes.len() < place + width {
        return false;
    }
    let first = place - start;
    let last = first + width - 1;
    if marks[first] || marks[last] {
        return false;
    }
    marks[first] = true;
    marks[last] = true;
    true
}

// Marks the bytes of fixes, one after another. Returns whether each lies within the content and shares no byte with
// another.
#[tactic(auto, using(crate::proofs::FixMarks::marks_none, crate::proofs::FixMarks::marks_end, crate::proofs::FixEntries::fewer_then,))]
fn place_fixes(
    marks: &mut [bool],
    content: &Content,
    target: Option<Segment>,
    kind: FixKind,
    entries: &[u8],
) -> bool
    requires long { length content.now.bytes.now ≤ length marks.old }
    requires entries { AreFixEntries target entries.now }
    ensures fits { result ≡ is_some
        (marks_after (content_view content.now) (fixes_in target kind entries.now) marks.old) }
    ensures marks { result ≡ true
        → marks_after (content_view content.now) (fixes_in target kind entries.now) marks.old
        ≡ Some marks.new }
    ensures long { length marks.new ≡ length marks.old }
{
    let mut entries = entries;
    while let Some((fix, after)) = fix_in_front(target, kind, entries) {
        if !place_fix(marks, content, &fix) {
            return false;
        }
        entries = after;
    }
    true
}

impl<'a> MarkedContent<'a> {
    /// A content of at most 1024 bytes, none of them marked.
    pub fn new(content: Content<'a>) -> MarkedContent<'a>
        requires { length content.bytes.now ≤ 1024 }
        ensures { result ≡ unmarked (content_view content.entry) }
    {
        MarkedContent {
            content,
            marks: no_marks(),
        }
    }

    /// No content: one without bytes.
    pub fn none() -> MarkedContent<'a>
        ensures { result ≡ unmarked (content_at Absolute 0 []) }
    {
        MarkedContent::new(Content {
            segment: Segment::Absolute,
            offset: 0,
            bytes: &[],
        })
    }

    /// The segment of the content.
    pub fn segment(&self) -> Segment
        ensures { result ≡ (self.now.content).segment }
    {
        self.content.segment
    }

    /// Marks the bytes of the fixes of entries. Returns whether each lies within the content and shares no byte with
    /// another.
    pub fn place(&mut self, target: Option<Segment>, kind: FixKind, entries: &[u8]) -> bool
        requires { AreFixEntries target entries.now }
        ensures fits { result ≡ is_some (marked_after self.old (fixes_in target kind entries.now)) }
        ensures marks { result ≡ true
            → marked_after self.old (fixes_in target kind entries.now) ≡ Some self.new }
    {
        let content = self.content;
        place_fixes(&mut self.marks, &content, target, kind, entries)
    }
}
