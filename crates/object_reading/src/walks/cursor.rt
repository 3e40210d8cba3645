//! Where a walk stands in a file.

ghost use Rattle.std.specs.Prelude.{◌≡◌, ◌<◌, [], None, Some, length, drop, slice_index, IfSome, IfNone};
ghost use Rattle.std.specs.Option.{option_map};
ghost use Rattle.omf80.specs.Records.{kind_of_type, record_fault, first_body, record_end};
ghost use Rattle.object_modules.specs.Parts.{listed_name_bytes, definition_bytes};
ghost use Rattle.object_modules.specs.internal.Walks.{externals_left, publics_left, contents_left};
ghost use Rattle.object_reading.specs.internal.Entries.{AreParts, AreEntries, body_where, publics_where, contents_after, is_external_names, is_publics};
ghost use Rattle.object_reading.specs.internal.Views.{content_view};

use crate::entries::{Content, content_of, segment_of};
use object_modules::Segment;
use omf80::{Record, RecordKind, Records};

/// Entries of a record that were not handed out, and the bytes after the record.
#[derive(Clone, Copy)]
pub(crate) struct Cursor<'a> {
    pub(crate) entries: &'a [u8],
    pub(crate) rest: &'a [u8],
}

/// The record that parts of a file begin with, and the bytes after it.
#[tactic(auto, using(crate::proofs::NextParts::no_part, crate::proofs::NextParts::parts_after, crate::proofs::NextParts::fewer_after,))]
pub(crate) fn next_record<'a>(rest: &'a [u8]) -> Option<(Record<'a>, &'a [u8])>
    requires { AreParts rest.now }
    ensures none { IfNone result (rest.now ≡ []) }
    ensures no_fault { IfSome result (λ next. record_fault rest.now ≡ None) }
    ensures of_type { IfSome result (λ next. kind_of_type (slice_index rest.now 0) ≡ Some next.0.kind) }
    ensures body { IfSome result (λ next. next.0.body.now ≡ first_body rest.now) }
    ensures after { IfSome result (λ next. next.1.now ≡ drop (record_end rest.now) rest.now) }
    ensures parts { IfSome result (λ next. AreParts next.1.now) }
    ensures shorter { IfSome result (λ next. length next.1.now < length rest.now) }
{
    let mut records = Records::new(rest);
    match records.next_record() {
        Ok(read) => Some((read, records.rest())),
        Err(_) => None,
    }
}

// The body of a record of external names.
fn names_of<'a>(read: &Record<'a>) -> &'a [u8]
    ensures { result.now ≡ body_where (is_external_names read.now.kind) read.now.body.now }
{
    match read.kind {
        RecordKind::ExternalNames => read.body,
        _ => &[],
    }
}

// The cursor after the next record: at its entries, if it has external names.
#[tactic(auto, using(crate::proofs::NextParts::names_left, crate::proofs::NextParts::names_entries))]
fn names_after<'a>(rest: &'a [u8]) -> Option<Cursor<'a>>
    requires { AreParts rest.now }
    ensures none { IfNone result (rest.now ≡ []) }
    ensures left { IfSome result (λ next. externals_left [] rest.now
        ≡ externals_left next.entries.now next.rest.now) }
    ensures entries { IfSome result (λ next. AreEntries listed_name_bytes next.entries.now) }
    ensures parts { IfSome result (λ next. AreParts next.rest.now) }
    ensures shorter { IfSome result (λ next. length next.rest.now < length rest.now) }
{
    match next_record(rest) {
        Some((read, rest)) => {
            let entries = names_of(&read);
            Some(Cursor { entries, rest })
        }
        None => None,
    }
}

/// The cursor at the first record of external names that has an entry left, or at the end of the file.
pub(crate) fn names_from<'a>(entries: &'a [u8], rest: &'a [u8]) -> Cursor<'a>
    requires entries { AreEntries listed_name_bytes entries.now }
    requires rest { AreParts rest.now }
    ensures left { externals_left result.entries.now result.rest.now ≡ externals_left entries.now rest.now }
    ensures entries { AreEntries listed_name_bytes result.entries.now }
    ensures rest { AreParts result.rest.now }
    ensures end { result.entries.now ≡ [] → result.rest.now ≡ [] }
{
    let mut entries = entries;
    let mut rest = rest;
    while entries.is_empty() {
        match names_after(rest) {
            Some(next) => {
                entries = next.entries;
                rest = next.rest;
            }
            None => return Cursor { entries, rest },
        }
    }
    Cursor { entries, rest }
}

/// Public names of a segment that were not handed out: entries of a record, and the bytes after the record.
#[derive(Clone, Copy)]
pub(crate) struct PublicCursor<'a> {
    pub(crate) segment: Segment,
    pub(crate) entries: &'a [u8],
    pub(crate) rest: &'a [u8],
}

// The segment and the entries of a record of public names.
fn publics_of<'a>(read: &Record<'a>) -> (Segment, &'a [u8])
    ensures { (result.0, result.1.now) ≡ publics_where (is_publics read.now.kind) read.now.body.now }
{
    match read.kind {
        RecordKind::Publics => {
            let [number, entries @ ..] = read.body else {
                return (Segment::Absolute, &[]);
            };
            (segment_of(*number).unwrap_or(Segment::Absolute), entries)
        }
        _ => (Segment::Absolute, &[]),
    }
}

// The cursor after the next record: at its entries, if it has public names.
#[tactic(auto, using(crate::proofs::NextParts::publics_follow, crate::proofs::NextParts::publics_entries))]
fn publics_after<'a>(segment: Segment, rest: &'a [u8]) -> Option<PublicCursor<'a>>
    requires { AreParts rest.now }
    ensures none { IfNone result (rest.now ≡ []) }
    ensures left { IfSome result (λ next. publics_left segment [] rest.now
        ≡ publics_left next.segment next.entries.now next.rest.now) }
    ensures entries { IfSome result (λ next. AreEntries definition_bytes next.entries.now) }
    ensures parts { IfSome result (λ next. AreParts next.rest.now) }
    ensures shorter { IfSome result (λ next. length next.rest.now < length rest.now) }
{
    match next_record(rest) {
        Some((read, rest)) => {
            let (segment, entries) = publics_of(&read);
            Some(PublicCursor {
                segment,
                entries,
                rest,
            })
        }
        None => None,
    }
}

/// The cursor at the first record of public names that has an entry left, or at the end of the file.
pub(crate) fn publics_from<'a>(
    segment: Segment,
    entries: &'a [u8],
    rest: &'a [u8],
) -> PublicCursor<'a>
    requires entries { AreEntries definition_bytes entries.now }
    requires rest { AreParts rest.now }
    ensures left { publics_left result.segment result.entries.now result.rest.now
        ≡ publics_left segment entries.now rest.now }
    ensures entries { AreEntries definition_bytes result.entries.now }
    ensures rest { AreParts result.rest.now }
    ensures end { result.entries.now ≡ [] → result.rest.now ≡ [] }
{
    let mut segment = segment;
    let mut entries = entries;
    let mut rest = rest;
    while entries.is_empty() {
        match publics_after(segment, rest) {
            Some(next) => {
                segment = next.segment;
                entries = next.entries;
                rest = next.rest;
            }
            None => {
                return PublicCursor {
                    segment,
                    entries,
                    rest,
                };
            }
        }
    }
    PublicCursor {
        segment,
        entries,
        rest,
    }
}

// The next record: the content that it is, if it is one, and the bytes after it.
#[tactic(auto, using(crate::proofs::NextParts::contents_follow))]
fn content_after<'a>(rest: &'a [u8]) -> Option<(Option<Content<'a>>, &'a [u8])>
    requires { AreParts rest.now }
    ensures none { IfNone result (rest.now ≡ []) }
    ensures left { IfSome result (λ next. contents_left rest.now
        ≡ contents_after (option_map content_view next.0) next.1.now) }
    ensures parts { IfSome result (λ next. AreParts next.1.now) }
    ensures shorter { IfSome result (λ next. length next.1.now < length rest.now) }
{
    match next_record(rest) {
        Some((read, after)) => Some((content_of(&read), after)),
        None => None,
    }
}

/// The first content in parts of a file, and the bytes after its record.
#[tactic(auto, using(crate::proofs::NextParts::no_contents))]
pub(crate) fn content_from<'a>(rest: &'a [u8]) -> Option<(Content<'a>, &'a [u8])>
    requires { AreParts rest.now }
    ensures none { IfNone result (contents_left rest.now ≡ []) }
    ensures left { IfSome result (λ next. contents_left rest.now
        ≡ contents_after (Some (content_view next.0)) next.1.now) }
    ensures parts { IfSome result (λ next. AreParts next.1.now) }
{
    let mut rest = rest;
    while let Some((found, after)) = content_after(rest) {
        if let Some(content) = found {
            return Some((content, after));
        }
        rest = after;
    }
    None
}
