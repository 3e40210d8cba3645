//! A record of a file.

use crate::kind::RecordKind;

/// A record of a file.
#[derive(Clone, Copy, Debug)]
pub struct Record<'a> {
    pub kind: RecordKind,
    /// The bytes between the length and the checksum, at most `BODY_LIMIT`.
    pub body: &'a [u8],
}
