//! Items of a group, each that assigns in parentheses of its own.

ghost use Rattle.std.specs.Prelude.{◌≡◌, ◌≤◌, ◌++◌, true, false, length, IfOk};
ghost use Rattle.convert.specs.Texts.{between, start_of};
ghost use Rattle.convert.specs.Wrapping.{left, right, wrapped_text};

use crate::class::Seen;
use crate::groups::{depth_after, has_assignment, is_comma, item_length};
use crate::texts::{between, start_of};
use std::alloc::AllocError;

/// Adds the words of a group, each item that assigns in parentheses of its own.
pub(crate) fn write_wrapped(
    source: &[u8],
    words: &[Seen],
    text: &mut Vec<u8>,
) -> Result<(), AllocError>
    requires { length words.now ≤ 4294967296 }
    ensures { IfOk result (λ _. text.new.items ≡ text.old.items
        ++ wrapped_text source.now true false (start_of words.now) (start_of words.now) 0 words.now) }
{
    let mut fresh = true;
    let mut marked = false;
    let mut place = start_of(words);
    let mut end = place;
    let mut depth = 0;
    let mut rest = words;
    while let [seen, more @ ..] = rest {
        if depth == 0 && is_comma(seen.class) {
            write_marked(source, place, end, right(marked), text)?;
            text.push(b',')?;
            fresh = true;
            marked = false;
            place = seen.word.start as usize + 1;
            end = place;
            rest = more;
            continue;
        }
        if fresh {
            marked = has_assignment(&rest[..item_length(rest)]);
            write_marked(source, place, seen.word.start as usize, left(marked), text)?;
            fresh = false;
            place = seen.word.start as usize;
            end = seen.word.start as usize + seen.word.text.len();
            depth = depth_after(depth, seen.class);
            rest = more;
            continue;
        }
        end = seen.word.start as usize + seen.word.text.len();
        depth = depth_after(depth, seen.class);
        rest = more;
    }
    write_marked(source, place, end, right(marked), text)
}

// Adds a piece of the source, and its mark.
fn write_marked(
    source: &[u8],
    from: usize,
    to: usize,
    mark: &[u8],
    text: &mut Vec<u8>,
) -> Result<(), AllocError>
    ensures { IfOk result (λ _. text.new.items
        ≡ text.old.items ++ (between source.now from to ++ mark.now)) }
{
    text.extend_from_slice(between(source, from, to))?;
    text.extend_from_slice(mark)
}

// A parenthesis, where there is to be one.
fn left(marked: bool) -> &'static [u8]
    ensures { result.now ≡ left marked }
{
    if marked { b"(" } else { b"" }
}

fn right(marked: bool) -> &'static [u8]
    ensures { result.now ≡ right marked }
{
    if marked { b")" } else { b"" }
}
