//! What the judgement of a file knows of the records that it has passed.

ghost use Rattle.std.specs.Prelude.{◌≡◌, ◌≤◌, Ok, Err, length, OnOk};
ghost use Rattle.failure.specs.Failure.{IfFault};
ghost use Rattle.object_reading.specs.internal.Views.{content_view};
ghost use Rattle.object_reading.specs.internal.Order.{is_over};
ghost use Rattle.object_reading.specs.internal.States.{beginning, state_view, extent_of, end_of, fits, with_content, header_taken, externals_taken, publics_taken, content_taken, fixes_taken, start_stated, end_taken, body_taken, record_taken, Tells};

use crate::entries::{Content, content_of, fix_entries_of, name_in_front, segment_of, word};
use crate::judgement::header::Header;
use crate::rules::{
    Extents, MarkedContent, NameList, NameSet, entries_fit, extents_of, is_name, may_come,
    nothing_said, take_names, target_fits,
};
use failure::Failure;
use object_modules::{Fault, Segment};
use omf80::{Record, RecordKind};
use std::alloc::Global;

/// What is known of the records that were passed: the kind of the latest, and what they say.
#[derive(Drop)]
pub(crate) struct State<'a> {
    latest: Option<RecordKind>,
    name: &'a [u8],
    extents: Extents,
    names: NameSet<'a>,
    external_count: usize,
    code_end: usize,
    data_end: usize,
    content: MarkedContent<'a>,
    start: Option<u16>,
}

// The four bytes of a module end: where a main module starts, or nothing of another.
fn start_stated(body: &[u8]) -> Option<Option<u16>>
    ensures { result ≡ start_stated body.now }
{
    let [flag, segment, low, high] = body else {
        return None;
    };
    let offset = word(*low, *high);
    match (*flag, *segment) {
        (0, 0) if offset == 0 => Some(None),
        (1, 1) => Some(Some(offset)),
        _ => None,
    }
}

impl<'a> State<'a> {
    /// Before the first record.
    pub(crate) fn new(alloc: Global) -> State<'a>
        ensures { state_view result ≡ beginning }
    {
        State {
            latest: None,
            name: &[],
            extents: nothing_said(),
            names: NameSet::new(alloc),
            external_count: 0,
            code_end: 0,
            data_end: 0,
            content: MarkedContent::none(),
            start: None,
        }
    }

    // The stated length of a segment.
    fn extent_of(&self, segment: Segment) -> u16
        ensures { result ≡ extent_of (state_view self.now).extents segment }
    {
        match segment {
            Segment::Absolute => 0,
            Segment::Code => self.extents.code_length,
            Segment::Data => self.extents.data_length,
            Segment::Stack => self.extents.stack_length,
        }
    }

    // Where the latest content of a segment ends.
    fn end_of(&self, segment: Segment) -> usize
        ensures { result ≡ end_of (state_view self.now) segment }
    {
        match segment {
            Segment::Code => self.code_end,
            Segment::Data => self.data_end,
            Segment::Absolute | Segment::Stack => 0,
        }
    }

    // Takes in the header.
    fn take_header(&mut self, body: &'a [u8]) -> Result<(), Failure<Fault>>
        ensures ok { OnOk result (header_taken (state_view self.old) body.now ≡ Ok (state_view self.new)) }
        ensures fault { IfFault result (λ fault. header_taken (state_view self.old) body.now ≡ Err fault) }
    {
        let Some((name, after)) = name_in_front(body) else {
            return Err(Failure::Fault(Fault::WrongBody));
        };
        let [_, _, entries @ ..] = after else {
            return Err(Failure::Fault(Fault::WrongBody));
        };
        if !is_name(name) {
            return Err(Failure::Fault(Fault::WrongBody));
        }
        match extents_of(entries) {
            Ok(extents) => {
                self.name = name;
                self.extents = extents;
                Ok(())
            }
            Err(fault) => Err(Failure::Fault(fault)),
        }
    }

    // Takes in a record of external names.
    fn take_externals(&mut self, body: &'a [u8]) -> Result<(), Failure<Fault>>
        ensures ok { OnOk result
            (externals_taken (state_view self.old) body.now ≡ Ok (state_view self.new)) }
        ensures fault { IfFault result (λ fault.
            externals_taken (state_view self.old) body.now ≡ Err fault) }
    {
        if body.is_empty() {
            return Err(Failure::Fault(Fault::WrongBody));
        }
        if !take_names(&mut self.names, NameList::Externals, body)? {
            return Err(Failure::Fault(Fault::WrongBody));
        }
        self.external_count = self.names.count();
        Ok(())
    }

    // Takes in a record of public names.
    fn take_publics(&mut self, body: &'a [u8]) -> Result<(), Failure<Fault>>
        ensures ok { OnOk result (publics_taken (state_view self.old) body.now ≡ Ok (state_view self.new)) }
        ensures fault { IfFault result (λ fault. publics_taken (state_view self.old) body.now ≡ Err fault) }
    {
        let [number, entries @ ..] = body else {
            return Err(Failure::Fault(Fault::WrongBody));
        };
        let Some(Segment::Absolute | Segment::Code | Segment::Data) = segment_of(*number) else {
            return Err(Failure::Fault(Fault::WrongBody));
        };
        if entries.is_empty() {
            return Err(Failure::Fault(Fault::WrongBody));
        }
        if !take_names(&mut self.names, NameList::Publics, entries)? {
            return Err(Failure::Fault(Fault::WrongBody));
        }
        Ok(())
    }

    // Whether a content ends within its segment, and begins where the one before it there ends or after that.
    fn fits(&self, content: &Content<'a>) -> bool
        ensures { result ≡ fits (state_view self.now) (content_view content.now) }
    {
        let offset = content.offset as usize;
        let end = offset + content.bytes.len();
        end <= self.extent_of(content.segment) as usize && self.end_of(content.segment) <= offset
    }

    // Makes a content the latest one.
    fn set_content(&mut self, content: Content<'a>)
        requires { length content.bytes.now ≤ 1024 }
        ensures { state_view self.new ≡ with_content (state_view self.old) (content_view content.entry) }
    {
        let end = content.offset as usize + content.bytes.len();
        match content.segment {
            Segment::Code => self.code_end = end,
            Segment::Data => self.data_end = end,
            Segment::Absolute | Segment::Stack => {}
        }
        self.content = MarkedContent::new(content);
    }

    // Takes in a content.
    fn take_content(&mut self, read: &Record<'a>) -> Result<(), Failure<Fault>>
        requires { length read.now.body.now ≤ 1027 }
        ensures ok { OnOk result
            (content_taken (state_view self.old) read.now.kind read.now.body.now ≡ Ok (state_view self.new)) }
        ensures fault { IfFault result (λ fault.
            content_taken (state_view self.old) read.now.kind read.now.body.now ≡ Err fault) }
    {
        let Some(content) = content_of(read) else {
            return Err(Failure::Fault(Fault::WrongBody));
        };
        if content.bytes.is_empty() || !matches!(content.segment, Segment::Code | Segment::Data) {
            return Err(Failure::Fault(Fault::WrongBody));
        }
        if !self.fits(&content) {
            return Err(Failure::Fault(Fault::ContentMisplaced));
        }
        self.set_content(content);
        Ok(())
    }

    // Takes in a fix record.
    fn take_fixes(&mut self, read: &Record<'a>) -> Result<(), Failure<Fault>>
        ensures ok { OnOk result
            (fixes_taken (state_view self.old) read.now.kind read.now.body.now ≡ Ok (state_view self.new)) }
        ensures fault { IfFault result (λ fault.
            fixes_taken (state_view self.old) read.now.kind read.now.body.now ≡ Err fault) }
    {
        let own = self.content.segment();
        let Some((target, kind, entries)) = fix_entries_of(own, read) else {
            return Err(Failure::Fault(Fault::WrongBody));
        };
        if entries.is_empty() || !target_fits(own, read.kind, target) {
            return Err(Failure::Fault(Fault::WrongBody));
        }
        if !entries_fit(target, kind, entries, self.external_count) {
            return Err(Failure::Fault(Fault::WrongBody));
        }
        if !self.content.place(target, kind, entries) {
            return Err(Failure::Fault(Fault::FixMisplaced));
        }
        Ok(())
    }

    // Takes in the module end.
    fn take_end(&mut self, body: &'a [u8]) -> Result<(), Failure<Fault>>
        ensures ok { OnOk result (end_taken (state_view self.old) body.now ≡ Ok (state_view self.new)) }
        ensures fault { IfFault result (λ fault. end_taken (state_view self.old) body.now ≡ Err fault) }
    {
        let Some(start) = start_stated(body) else {
            return Err(Failure::Fault(Fault::WrongBody));
        };
        self.start = start;
        Ok(())
    }

    // Takes in the body of a record that may stand here.
    fn take_body(&mut self, read: &Record<'a>) -> Result<(), Failure<Fault>>
        requires { length read.now.body.now ≤ 1027 }
        ensures ok { OnOk result
            (body_taken (state_view self.old) read.now.kind read.now.body.now ≡ Ok (state_view self.new)) }
        ensures fault { IfFault result (λ fault.
            body_taken (state_view self.old) read.now.kind read.now.body.now ≡ Err fault) }
    {
        match read.kind {
            RecordKind::Header => self.take_header(read.body),
            RecordKind::ExternalNames => self.take_externals(read.body),
            RecordKind::Publics => self.take_publics(read.body),
            RecordKind::Content => self.take_content(read),
            RecordKind::ExternalReferences => self.take_fixes(read),
            RecordKind::Relocation => self.take_fixes(read),
            RecordKind::IntersegmentReferences => self.take_fixes(read),
            RecordKind::ModuleEnd => self.take_end(read.body),
            RecordKind::EndOfFile => {
                if read.body.is_empty() {
                    Ok(())
                } else {
                    Err(Failure::Fault(Fault::WrongBody))
                }
            }
        }
    }

    /// Takes in a record, with a body of at most 1027 bytes.
    pub(crate) fn take(&mut self, read: &Record<'a>) -> Result<(), Failure<Fault>>
        requires { length read.now.body.now ≤ 1027 }
        ensures ok { OnOk result
            (record_taken (state_view self.old) read.now.kind read.now.body.now ≡ Ok (state_view self.new)) }
        ensures fault { IfFault result (λ fault.
            record_taken (state_view self.old) read.now.kind read.now.body.now ≡ Err fault) }
    {
        if !may_come(self.latest, read.kind) {
            return Err(Failure::Fault(Fault::OutOfOrder));
        }
        self.take_body(read)?;
        self.latest = Some(read.kind);
        Ok(())
    }

    /// Whether the latest record ends the file.
    pub(crate) fn is_ended(&self) -> bool
        ensures { result ≡ is_over self.now.latest }
    {
        matches!(self.latest, Some(RecordKind::EndOfFile))
    }

    /// What the file says of itself.
    pub(crate) fn header(&self) -> Header<'a>
        ensures { Tells result (state_view self.now) }
    {
        Header {
            name: self.name,
            code_length: self.extents.code_length,
            code_alignment: self.extents.code_alignment,
            data_length: self.extents.data_length,
            data_alignment: self.extents.data_alignment,
            stack_length: self.extents.stack_length,
            start: self.start,
        }
    }
}
