//! The lines of a text. Each ends at a line feed or at the end of the text.

ghost use Rattle.std.specs.Prelude.{◌≡◌, ◌+◌, ◌≤◌, IfOk, drop, length};
ghost use Rattle.listings.specs.Listing.{lines_of};
ghost use Rattle.listings.specs.internal.Modules.{first_length};

use std::alloc::AllocError;
use trees::next_number;

/// How many bytes come before the first line feed.
#[tactic(auto, using(crate::proofs::SourceLines::length_more, crate::proofs::SourceLines::length_here, crate::proofs::SourceLines::length_done))]
pub(crate) fn line_length(text: &[u8]) -> usize
    ensures length { result ≡ first_length text.now }
    ensures within { result ≤ length text.now }
{
    let mut count: usize = 0;
    let mut rest = text;
    while let [byte, more @ ..] = rest {
        if *byte == b'\n' {
            return count;
        }
        count += 1;
        rest = more;
    }
    count
}

/// The text after a line of this length, and after the line feed at its end.
#[tactic(auto, using(crate::proofs::SourceLines::none_left))]
pub(crate) fn after_line(text: &[u8], length: usize) -> &[u8]
    ensures { result.now ≡ drop (length + 1) text.now }
{
    if length < text.len() {
        &text[length + 1..]
    } else {
        &[]
    }
}

/// How many lines a text has.
#[tactic(auto, using(crate::proofs::SourceLines::count_done))]
pub(crate) fn line_count(text: &[u8]) -> Result<u32, AllocError>
    ensures { IfOk result (λ count. count ≡ length (lines_of text.now)) }
{
    let mut rest = text;
    let mut count: u32 = 0;
    while let [_, ..] = rest {
        count = next_number(count)?;
        let length = line_length(rest);
        rest = after_line(rest, length);
    }
    Ok(count)
}
