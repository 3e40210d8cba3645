//! A file whose parts are handed out one after another, judged whole before the first.

ghost use Rattle.std.specs.Prelude.{◌≡◌};
ghost use Rattle.std.specs.Option.{option_map};
ghost use Rattle.object_modules.specs.internal.Walks.{WalksOver, HandsOut, HandsOutContent, length_by, alignment_by};
ghost use Rattle.object_modules.specs.internal.Views.{public_view};
ghost use Rattle.object_reading.specs.internal.Views.{content_view};
ghost use Rattle.object_reading.specs.internal.Judging.{IsJudged};

use crate::entries::{Content, definition_in_front, fix_in_front, listed_name_in_front};
use crate::judgement::Header;
use crate::walks::cursor::{Cursor, PublicCursor, content_from, names_from, publics_from};
use crate::walks::cursor_fixes::{FixCursor, fixes_from};
use object_modules::{Alignment, Fix, FixKind, PublicName, Segment};
use std::marker::Model;

/// A walk over a file that was judged: what the file says at any time, and its parts from its front, in the
/// order of the file. It borrows the file and takes no memory.
#[derive(Drop)]
pub struct Walk<'a> {
    name: &'a [u8],
    code_length: u16,
    code_alignment: Alignment,
    data_length: u16,
    data_alignment: Alignment,
    stack_length: u16,
    start: Option<u16>,
    externals: Cursor<'a>,
    publics: PublicCursor<'a>,
    contents: &'a [u8],
    fixes: FixCursor<'a>,
}

impl<'a> Model for Walk<'a> {
    ghost use Rattle.object_modules.specs.Walking.{Walking};
    ghost use Rattle.object_modules.specs.internal.Walks.{externals_left, publics_left, contents_left};
    ghost use Rattle.object_modules.specs.Parts.{listed_name_bytes, definition_bytes};
    ghost use Rattle.object_reading.specs.internal.Cursors.{fixes_left};
    ghost use Rattle.object_reading.specs.internal.Entries.{AreParts, AreEntries};
    ghost use Rattle.object_reading.specs.internal.Fixes.{AreFixEntries};

    ghost Value = { Walking };

    ghost view = { λ w. record {
      name = w.name.now;
      code_length = w.code_length;
      code_alignment = w.code_alignment;
      data_length = w.data_length;
      data_alignment = w.data_alignment;
      stack_length = w.stack_length;
      start = w.start;
      externals = externals_left w.externals.entries.now w.externals.rest.now;
      publics = publics_left w.publics.segment w.publics.entries.now w.publics.rest.now;
      contents = contents_left w.contents.now;
      fixes = fixes_left w.fixes;
    } };

    ghost invariant = { λ w. record {
      names : AreEntries listed_name_bytes w.externals.entries.now;
      after_names : AreParts w.externals.rest.now;
      definitions : AreEntries definition_bytes w.publics.entries.now;
      after_definitions : AreParts w.publics.rest.now;
      contents : AreParts w.contents.now;
      fixes : AreFixEntries w.fixes.target w.fixes.entries.now;
      after_fixes : AreParts w.fixes.rest.now;
    } };
}

impl<'a> Walk<'a> {
    /// The walk from the front of a file that was judged.
    pub(crate) fn at_front(bytes: &'a [u8], header: &Header<'a>) -> Walk<'a>
        requires { IsJudged bytes.now header.now }
        ensures { WalksOver bytes.now result }
    {
        Walk {
            name: header.name,
            code_length: header.code_length,
            code_alignment: header.code_alignment,
            data_length: header.data_length,
            data_alignment: header.data_alignment,
            stack_length: header.stack_length,
            start: header.start,
            externals: Cursor {
                entries: &[],
                rest: bytes,
            },
            publics: PublicCursor {
                segment: Segment::Absolute,
                entries: &[],
                rest: bytes,
            },
            contents: bytes,
            fixes: FixCursor {
                own: Segment::Absolute,
                target: None,
                kind: FixKind::Low,
                entries: &[],
                rest: &[],
            },
        }
    }

    /// The name of the module.
    pub fn name(&self) -> &'a [u8]
        ensures { result.now ≡ self.now.name }
    {
        self.name
    }

    /// How many bytes a segment has; the absolute one has none.
    pub fn length(&self, segment: Segment) -> u16
        ensures { result ≡ length_by self.now segment }
    {
        match segment {
            Segment::Absolute => 0,
            Segment::Code => self.code_length,
            Segment::Data => self.data_length,
            Segment::Stack => self.stack_length,
        }
    }

    /// Where a segment may begin.
    pub fn alignment(&self, segment: Segment) -> Alignment
        ensures { result ≡ alignment_by self.now segment }
    {
        match segment {
            Segment::Absolute => Alignment::Byte,
            Segment::Code => self.code_alignment,
            Segment::Data => self.data_alignment,
            Segment::Stack => Alignment::Byte,
        }
    }

    /// Where a main module starts, an offset in its code.
    pub fn start(&self) -> Option<u16>
        ensures { result ≡ self.now.start }
    {
        self.start
    }

    /// The same walk again, from its place. Takes no memory.
    pub fn again(&self) -> Walk<'a>
        ensures { result ≡ self.now }
    {
        Walk {
            name: self.name,
            code_length: self.code_length,
            code_alignment: self.code_alignment,
            data_length: self.data_length,
            data_alignment: self.data_alignment,
            stack_length: self.stack_length,
            start: self.start,
            externals: self.externals,
            publics: self.publics,
            contents: self.contents,
            fixes: self.fixes,
        }
    }

    /// The next external name, 1 to 31 characters.
    #[tactic(auto, using(crate::proofs::NextParts::names_then, crate::proofs::NextParts::names_are_after, crate::proofs::NextParts::names_over,))]
    pub fn next_external(&mut self) -> Option<&'a [u8]>
        ensures next { HandsOut self.old.externals self.new.externals (option_map (λ name. name.now) result) }
        ensures rest { self.new ≡ record self.old { externals = self.new.externals } }
    {
        let cursor = names_from(self.externals.entries, self.externals.rest);
        match listed_name_in_front(cursor.entries) {
            Some((name, entries)) => {
                let rest = cursor.rest;
                self.externals = Cursor { entries, rest };
                Some(name)
            }
            None => {
                self.externals = cursor;
                None
            }
        }
    }

    /// The next public name.
    #[tactic(auto, using(crate::proofs::NextParts::publics_then, crate::proofs::NextParts::definitions_are_after, crate::proofs::NextParts::publics_over,))]
    pub fn next_public(&mut self) -> Option<PublicName<'a>>
        ensures next { HandsOut self.old.publics self.new.publics (option_map public_view result) }
        ensures rest { self.new ≡ record self.old { publics = self.new.publics } }
    {
        let cursor = publics_from(
            self.publics.segment,
            self.publics.entries,
            self.publics.rest,
        );
        let segment = cursor.segment;
        match definition_in_front(cursor.entries) {
            Some((offset, name, entries)) => {
                let rest = cursor.rest;
                self.publics = PublicCursor {
                    segment,
                    entries,
                    rest,
                };
                Some(PublicName {
                    segment,
                    offset,
                    name,
                })
            }
            None => {
                self.publics = cursor;
                None
            }
        }
    }

    /// The next content. The fixes that stand after it are then those that `next_fix` hands out.
    pub fn next_content(&mut self) -> Option<Content<'a>>
        ensures { HandsOutContent self.old self.new (option_map content_view result) }
    {
        let (content, rest) = content_from(self.contents)?;
        self.contents = rest;
        self.fixes = FixCursor {
            own: content.segment,
            target: None,
            kind: FixKind::Low,
            entries: &[],
            rest,
        };
        Some(content)
    }

    /// The next fix of the content that was handed out last.
    #[tactic(auto, using(crate::proofs::NextFixes::fix_handed, crate::proofs::FixEntries::entries_then, crate::proofs::FixEntries::no_fix,))]
    pub fn next_fix(&mut self) -> Option<Fix>
        ensures next { HandsOut self.old.fixes self.new.fixes result }
        ensures rest { self.new ≡ record self.old { fixes = self.new.fixes } }
    {
        let cursor = fixes_from(self.fixes);
        match fix_in_front(cursor.target, cursor.kind, cursor.entries) {
            Some((fix, entries)) => {
                self.fixes = FixCursor {
                    own: cursor.own,
                    target: cursor.target,
                    kind: cursor.kind,
                    entries,
                    rest: cursor.rest,
                };
                Some(fix)
            }
            None => {
                self.fixes = cursor;
                None
            }
        }
    }
}
