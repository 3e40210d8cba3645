//! Numbers that bodies of records hold.

ghost use Rattle.std.specs.Prelude.{◌≡◌};
ghost use Rattle.object_modules.specs.Parts.{segment_number, fix_kind_number};
ghost use Rattle.object_modules.specs.Text.{alignment_number};
ghost use Rattle.omf80.specs.Records.{word_bytes};

use object_modules::{Alignment, FixKind, Segment};

/// The number of a segment.
pub fn number_of_segment(segment: Segment) -> u8
    ensures { result ≡ segment_number segment }
{
    match segment {
        Segment::Absolute => 0,
        Segment::Code => 1,
        Segment::Data => 2,
        Segment::Stack => 3,
    }
}

/// The number of a kind of fix.
pub fn number_of_kind(kind: FixKind) -> u8
    ensures { result ≡ fix_kind_number kind }
{
    match kind {
        FixKind::Low => 1,
        FixKind::High => 2,
        FixKind::Both => 3,
    }
}

/// The number of an alignment.
pub fn number_of_alignment(alignment: Alignment) -> u8
    ensures { result ≡ alignment_number alignment }
{
    match alignment {
        Alignment::Byte => 3,
        Alignment::Page => 1,
    }
}

/// A number in two bytes, the low one first.
pub fn word(number: u16) -> [u8; 2]
    ensures { result ≡ word_bytes number }
{
    [(number % 256) as u8, (number / 256) as u8]
}
