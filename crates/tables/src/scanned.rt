//! The words of short sources.

ghost use Rattle.std.specs.Prelude.{◌≤◌, length};

use std::alloc::Global;
use words::{Word, scan};

// How many bytes of a source are read, at most.
const LONGEST: usize = 4096;

// The bytes of a source that are read, from its first one on.
fn beginning(source: &[u8]) -> &[u8]
    ensures { length result.now ≤ LONGEST }
{
    &source[..source.len().min(LONGEST)]
}

/// The words of the beginning of a source, if they are words.
pub fn scanned<'a>(alloc: Global, source: &'a [u8]) -> Option<Vec<Word<'a>>> {
    scan(alloc, beginning(source)).ok()
}
