//! Headers are judged entry by entry.

ghost use Rattle.std.specs.Prelude.{◌≡◌, true};
ghost use Rattle.object_modules.specs.Parts.{segment_number};
ghost use Rattle.object_modules.specs.Rules.{is_served};
ghost use Rattle.object_modules.specs.Spelling.{alignment_with};
ghost use Rattle.object_reading.specs.internal.Headers.{entry_at, nothing_said, extents_with, extents_in};

use crate::entries::{segment_of, word};
use object_modules::{Alignment, Fault, Segment};

/// What a header says of the segments: lengths, 0 to 65535, and where they may begin.
#[derive(Clone, Copy, Debug)]
pub struct Extents {
    pub code_length: u16,
    pub code_alignment: Alignment,
    pub data_length: u16,
    pub data_alignment: Alignment,
    pub stack_length: u16,
}

/// What is said without a header.
pub fn nothing_said() -> Extents
    ensures { result ≡ nothing_said }
{
    Extents {
        code_length: 0,
        code_alignment: Alignment::Byte,
        data_length: 0,
        data_alignment: Alignment::Byte,
        stack_length: 0,
    }
}

// The number of a segment.
fn number_of(segment: Segment) -> u8
    ensures { result ≡ segment_number segment }
{
    match segment {
        Segment::Absolute => 0,
        Segment::Code => 1,
        Segment::Data => 2,
        Segment::Stack => 3,
    }
}

// Whether an alignment is one that a segment may have.
fn is_served(segment: Segment, length: u16, alignment: u8) -> bool
    ensures { result ≡ is_served (entry_at segment length alignment) }
{
    alignment == 3 || alignment == 1 && matches!(segment, Segment::Code | Segment::Data)
}

// Where a segment may begin; one without bytes anywhere.
fn alignment_with(segment: Segment, length: u16, alignment: u8) -> Alignment
    ensures { result ≡ alignment_with (entry_at segment length alignment) }
{
    if alignment == 1 && length > 0 {
        Alignment::Page
    } else {
        Alignment::Byte
    }
}

// The extents with those of a segment replaced.
fn extents_with(segment: Segment, length: u16, alignment: u8, extents: Extents) -> Extents
    ensures { result ≡ extents_with segment (entry_at segment length alignment) extents }
{
    let begins = alignment_with(segment, length, alignment);
    match segment {
        Segment::Absolute => extents,
        Segment::Code => Extents {
            code_length: length,
            code_alignment: begins,
            data_length: extents.data_length,
            data_alignment: extents.data_alignment,
            stack_length: extents.stack_length,
        },
        Segment::Data => Extents {
            code_length: extents.code_length,
            code_alignment: extents.code_alignment,
            data_length: length,
            data_alignment: begins,
            stack_length: extents.stack_length,
        },
        Segment::Stack => Extents {
            code_length: extents.code_length,
            code_alignment: extents.code_alignment,
            data_length: extents.data_length,
            data_alignment: extents.data_alignment,
            stack_length: length,
        },
    }
}

/// What entries say, or their fault: a number that is not a segment's or doesn't ascend, or bytes that are not a whole
/// entry, and then an alignment that is not served.
pub fn extents_of(entries: &[u8]) -> Result<Extents, Fault>
    ensures { result ≡ extents_in 0 nothing_said true entries.now }
{
    let mut extents = nothing_said();
    let mut number = 0;
    let mut served = true;
    let mut rest = entries;
    while let [first, low, high, alignment, after @ ..] = rest {
        let Some(segment) = segment_of(*first) else {
            return Err(Fault::WrongBody);
        };
        let next = number_of(segment);
        if next <= number {
            return Err(Fault::WrongBody);
        }
        let length = word(*low, *high);
        served = served && is_served(segment, length, *alignment);
        extents = extents_with(segment, length, *alignment, extents);
        number = next;
        rest = after;
    }
    if !rest.is_empty() {
        return Err(Fault::WrongBody);
    }
    if served {
        Ok(extents)
    } else {
        Err(Fault::WrongAlignment)
    }
}
