//! Groups: words in parentheses, and their items.

ghost use Rattle.std.specs.Prelude.{◌≡◌, ◌≤◌, ◌+◌, length};
ghost use Rattle.convert.specs.Groups.{closing, commas, depth_after, group_length, has_outside, has_text, inner, is_assign, is_based, is_comma, is_text, item_length};

use crate::class::{Class, Seen};
use words::{Mark, ReservedWord};

/// How deep parentheses in a group may be.
pub const DEEPEST: usize = 64;

/// How many parentheses are open after a word: at most one more than before it.
pub(crate) fn depth_after(depth: usize, class: Class) -> usize
    requires { depth ≤ 4294967296 }
    ensures depth { result ≡ depth_after depth class }
    ensures more { result ≤ depth + 1 }
{
    match class {
        Class::Mark(Mark::LeftParenthesis) => depth + 1,
        Class::Mark(Mark::RightParenthesis) if depth > 0 => depth - 1,
        _ => depth,
    }
}

/// Whether a word is a comma.
pub(crate) fn is_comma(class: Class) -> bool
    ensures { result ≡ is_comma class }
{
    match class {
        Class::Mark(Mark::Comma) => true,
        _ => false,
    }
}

/// How many words the group at the front has, with its parentheses; 0 if there is no group.
pub(crate) fn group_length(words: &[Seen]) -> usize
    ensures length { result ≡ group_length words.now }
    ensures within { result ≤ length words.now }
{
    match words {
        [first, after @ ..] => match first.class {
            Class::Mark(Mark::LeftParenthesis) => closing(after),
            _ => 0,
        },
        [] => 0,
    }
}

// How many words there are up to the one that closes a parenthesis before them, with that parenthesis; 0 if none does.
fn closing(words: &[Seen]) -> usize
    ensures length { result ≡ closing 1 1 words.now }
    ensures within { result ≤ 1 + length words.now }
{
    let mut count = 1;
    let mut depth = 1;
    let mut rest = words;
    while let [seen, more @ ..] = rest {
        depth = depth_after(depth, seen.class);
        if depth == 0 {
            return count + 1;
        }
        if depth > DEEPEST {
            return 0;
        }
        count += 1;
        rest = more;
    }
    0
}

/// The words of a group without its parentheses.
pub(crate) fn inner<'s, 'a>(group: &'s [Seen<'a>]) -> &'s [Seen<'a>]
    ensures { result.now ≡ inner group.now }
{
    match group {
        [_, words @ .., _] => words,
        _ => &[],
    }
}

/// How many words come before the first comma that is in no further parentheses, or all.
pub(crate) fn item_length(words: &[Seen]) -> usize
    requires { length words.now ≤ 4294967296 }
    ensures length { result ≡ item_length words.now }
    ensures within { result ≤ length words.now }
{
    let mut count = 0;
    let mut depth = 0;
    let mut rest = words;
    while let [seen, more @ ..] = rest {
        if depth == 0 && is_comma(seen.class) {
            return count;
        }
        depth = depth_after(depth, seen.class);
        count += 1;
        rest = more;
    }
    count
}

/// How many commas are in no further parentheses.
pub(crate) fn commas(words: &[Seen]) -> usize
    requires { length words.now ≤ 4294967296 }
    ensures { result ≡ commas 0 words.now }
{
    let mut count = 0;
    let mut depth = 0;
    let mut rest = words;
    while let [seen, more @ ..] = rest {
        if depth == 0 && is_comma(seen.class) {
            count += 1;
        } else {
            depth = depth_after(depth, seen.class);
        }
        rest = more;
    }
    count
}

/// Whether words have BASED in no further parentheses.
pub(crate) fn has_based(words: &[Seen]) -> bool
    requires { length words.now ≤ 4294967296 }
    ensures { result ≡ has_outside is_based 0 words.now }
{
    let mut depth = 0;
    let mut rest = words;
    while let [seen, more @ ..] = rest {
        if depth == 0 && is_based(seen.class) {
            return true;
        }
        depth = depth_after(depth, seen.class);
        rest = more;
    }
    false
}

/// Whether words have `:=` in no further parentheses.
pub(crate) fn has_assignment(words: &[Seen]) -> bool
    requires { length words.now ≤ 4294967296 }
    ensures { result ≡ has_outside is_assign 0 words.now }
{
    let mut depth = 0;
    let mut rest = words;
    while let [seen, more @ ..] = rest {
        if depth == 0 && is_assign(seen.class) {
            return true;
        }
        depth = depth_after(depth, seen.class);
        rest = more;
    }
    false
}

fn is_based(class: Class) -> bool
    ensures { result ≡ is_based class }
{
    match class {
        Class::Reserved(ReservedWord::Based) => true,
        _ => false,
    }
}

/// Whether a word is `:=`.
pub(crate) fn is_assign(class: Class) -> bool
    ensures { result ≡ is_assign class }
{
    match class {
        Class::Mark(Mark::AssignSign) => true,
        _ => false,
    }
}

// Whether a word is a string of several characters.
fn is_text(seen: &Seen) -> bool
    ensures { result ≡ is_text seen.now }
{
    match seen.class {
        Class::String => seen.word.text.len() != 3,
        _ => false,
    }
}

/// Whether words have a string of several characters.
pub(crate) fn has_text(words: &[Seen]) -> bool
    ensures { result ≡ has_text words.now }
{
    words.iter().any(is_text)
}
