//! Contents of a file, as they stand in it.

use object_modules::Segment;

/// Bytes of a segment, code or data (Content Record).
#[derive(Clone, Copy, Debug)]
pub struct Content<'a> {
    pub segment: Segment,
    /// Where the first of the bytes lies, from the start of the segment.
    pub offset: u16,
    /// 1 to 1024 bytes.
    pub bytes: &'a [u8],
}
