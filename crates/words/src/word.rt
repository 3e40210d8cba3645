//! Words of a source text.

ghost use Rattle.std.specs.Prelude.{◌≤◌, length};
ghost use Rattle.words.specs.declared.limits.TheConstants.{LONGEST_SOURCE};

use crate::vocabulary::Kind;

/// A word of a source text: what it is, its bytes, the place of the first of them, counted from 0, and its line,
/// counted from 1. It is no longer than a source text may be.
#[derive(Clone, Copy)]
pub struct Word<'a> {
    pub kind: Kind,
    pub text: &'a [u8],
    pub start: u32,
    pub line: u32,
    pub ghost short: { length text.now ≤ LONGEST_SOURCE },
}
