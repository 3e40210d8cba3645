//! Columns of lines.

ghost use Rattle.std.specs.Prelude.{◌≡◌, drop, take};
ghost use Rattle.convert.specs.Columns.{body};

use crate::lines::ends_with_return;

/// The first bytes of a line, this many or all.
#[tactic(auto, using(crate::proofs::Taken::all_taken))]
pub(crate) fn front(line: &[u8], count: usize) -> &[u8]
    ensures { result.now ≡ take count line.now }
{
    if line.len() > count {
        &line[..count]
    } else {
        line
    }
}

/// A line without its first `count` bytes, or without all if it has fewer.
#[tactic(auto, using(crate::proofs::Taken::all_dropped))]
pub(crate) fn after(line: &[u8], count: usize) -> &[u8]
    ensures { result.now ≡ drop count line.now }
{
    if line.len() > count {
        &line[count..]
    } else {
        &[]
    }
}

/// A line without the return at its end.
pub(crate) fn body(line: &[u8]) -> &[u8]
    ensures { result.now ≡ body line.now }
{
    if ends_with_return(line) {
        &line[..line.len().saturating_sub(1)]
    } else {
        line
    }
}
