//! Fronts of entries: what bytes begin with, and the bytes after it.

ghost use Rattle.std.specs.Prelude.{◌≡◌, ◌+◌, ◌*◌};
ghost use Rattle.std.specs.Option.{option_map};
ghost use Rattle.object_modules.specs.Reading.{name_in_front, listed_name_in_front, definition_in_front, segment_of};
ghost use Rattle.object_reading.specs.internal.Entries.{content_where, definition_at, is_content};
ghost use Rattle.object_reading.specs.internal.Views.{content_view};

use crate::entries::content::Content;
use byteorder::{ByteOrder, LittleEndian};
use object_modules::Segment;
use omf80::{Record, RecordKind};

/// The number of two bytes, the low one first.
pub fn word(low: u8, high: u8) -> u16
    ensures { result ≡ low + 256 * high }
{
    LittleEndian::read_u16(&[low, high])
}

/// The segment with a number.
pub fn segment_of(number: u8) -> Option<Segment>
    ensures { result ≡ segment_of number }
{
    match number {
        0 => Some(Segment::Absolute),
        1 => Some(Segment::Code),
        2 => Some(Segment::Data),
        3 => Some(Segment::Stack),
        _ => None,
    }
}

/// A name after its length, and the bytes after the name.
pub fn name_in_front(bytes: &[u8]) -> Option<(&[u8], &[u8])>
    ensures { option_map (λ named. (named.0.now, named.1.now)) result ≡ name_in_front bytes.now }
{
    let [size, rest @ ..] = bytes else {
        return None;
    };
    let size = *size as usize;
    if size <= rest.len() {
        Some((&rest[..size], &rest[size..]))
    } else {
        None
    }
}

/// A name that a byte of 0 ends, and the bytes after that.
pub fn listed_name_in_front(bytes: &[u8]) -> Option<(&[u8], &[u8])>
    ensures { option_map (λ named. (named.0.now, named.1.now)) result ≡ listed_name_in_front bytes.now }
{
    let (name, rest) = name_in_front(bytes)?;
    let [last, after @ ..] = rest else {
        return None;
    };
    if *last == 0 {
        Some((name, after))
    } else {
        None
    }
}

/// An offset and a name that a byte of 0 ends, and the bytes after that.
pub fn definition_in_front(bytes: &[u8]) -> Option<(u16, &[u8], &[u8])>
    ensures { option_map (λ placed. (definition_at placed.0 placed.1.now, placed.2.now)) result
        ≡ definition_in_front bytes.now }
{
    let [low, high, rest @ ..] = bytes else {
        return None;
    };
    let (name, after) = listed_name_in_front(rest)?;
    Some((word(*low, *high), name, after))
}

/// The content that a record is, if it is one.
pub fn content_of<'a>(read: &Record<'a>) -> Option<Content<'a>>
    ensures { option_map content_view result ≡ content_where (is_content read.now.kind) read.now.body.now }
{
    match read.kind {
        RecordKind::Content => {
            let [number, low, high, bytes @ ..] = read.body else {
                return None;
            };
            let segment = segment_of(*number)?;
            let offset = word(*low, *high);
            Some(Content {
                segment,
                offset,
                bytes,
            })
        }
        _ => None,
    }
}
