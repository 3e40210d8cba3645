//! The sides of `=`, where one assigns a name that the other uses.

ghost use Rattle.std.specs.Prelude.{◌≡◌, ◌≤◌, false, length};
ghost use Rattle.convert.specs.Sides.{assigns_used, begins_value, clash_after, clash_length, do_clash, has_use, is_equal_sign, is_period, is_side_end, member_length, reference_length, side_length, uses};

use crate::class::{Class, Seen};
use crate::groups::{depth_after, group_length, is_assign};
use crate::labels::{is_name, is_text_of};
use symbols::Name;
use words::{Mark, ReservedWord};

/// How many words the sides at the front have, with `=` between them, if one assigns a name that the other uses; 0 if not.
pub(crate) fn clash_length(words: &[Seen]) -> usize
    requires { length words.now ≤ 4294967296 }
    ensures length { result ≡ clash_length words.now }
    ensures within { result ≤ length words.now }
{
    let left = reference_length(words);
    match &words[left..] {
        [sign, after @ ..] if is_equal_sign(sign.class) => {
            let right = side_length(after);
            if do_clash(&words[..left], &after[..right]) {
                left + (1 + right)
            } else {
                0
            }
        }
        _ => 0,
    }
}

// How many words the reference at the front has; 0 without one.
fn reference_length(words: &[Seen]) -> usize
    requires { length words.now ≤ 4294967296 }
    ensures length { result ≡ reference_length words.now }
    ensures within { result ≤ length words.now }
{
    match words {
        [name, after @ ..] if is_name(name.class) => {
            let group = group_length(after);
            1 + (group + member_length(&after[group..]))
        }
        _ => 0,
    }
}

// How many words the member at the front has, with its dot; 0 without one.
fn member_length(words: &[Seen]) -> usize
    requires { length words.now ≤ 4294967296 }
    ensures length { result ≡ member_length words.now }
    ensures within { result ≤ length words.now }
{
    match words {
        [dot, name, after @ ..] if is_period(dot.class) && is_name(name.class) => {
            2 + group_length(after)
        }
        _ => 0,
    }
}

// How many words come before the end of the side on the right.
fn side_length(words: &[Seen]) -> usize
    requires { length words.now ≤ 4294967296 }
    ensures length { result ≡ side_length words.now }
    ensures within { result ≤ length words.now }
{
    let mut count = 0;
    let mut depth = 0;
    let mut rest = words;
    while let [seen, more @ ..] = rest {
        if depth == 0 && is_side_end(seen.class) {
            return count;
        }
        depth = depth_after(depth, seen.class);
        count += 1;
        rest = more;
    }
    count
}

// Whether one of two sides assigns a name that the other uses. The name with which the first begins is not used.
fn do_clash(left: &[Seen], right: &[Seen]) -> bool
    ensures { result ≡ do_clash left.now right.now }
{
    match left {
        [_, left @ ..] => assigns_used(left, right) || assigns_used(right, left),
        [] => false,
    }
}

// Whether words assign a name that others use.
fn assigns_used(others: &[Seen], words: &[Seen]) -> bool
    ensures { result ≡ assigns_used false others.now words.now }
{
    let mut dotted = false;
    let mut rest = words;
    while let [seen, more @ ..] = rest {
        if !dotted && is_name(seen.class) && begins_value(more) && uses(seen.word.text, others) {
            return true;
        }
        dotted = is_period(seen.class);
        rest = more;
    }
    false
}

fn begins_value(words: &[Seen]) -> bool
    ensures { result ≡ begins_value words.now }
{
    match words {
        [seen, ..] => is_assign(seen.class),
        [] => false,
    }
}

// Whether words use the name that is this text.
fn uses(text: &[u8], words: &[Seen]) -> bool
    ensures { result ≡ uses text.now words.now }
{
    match Name::from_text(text) {
        Some(name) => has_use(name, words),
        None => false,
    }
}

// Whether words use a name.
fn has_use(name: Name, words: &[Seen]) -> bool
    ensures { result ≡ has_use name false words.now }
{
    let mut dotted = false;
    let mut rest = words;
    while let [seen, more @ ..] = rest {
        if !dotted && is_name(seen.class) && is_text_of(name, seen.word.text) {
            return true;
        }
        dotted = is_period(seen.class);
        rest = more;
    }
    false
}

fn is_period(class: Class) -> bool
    ensures { result ≡ is_period class }
{
    match class {
        Class::Mark(Mark::Period) => true,
        _ => false,
    }
}

fn is_equal_sign(class: Class) -> bool
    ensures { result ≡ is_equal_sign class }
{
    match class {
        Class::Mark(Mark::EqualSign) => true,
        _ => false,
    }
}

// Whether a word ends the side on the right, if it is in no further parentheses.
fn is_side_end(class: Class) -> bool
    ensures { result ≡ is_side_end class }
{
    match class {
        Class::Mark(Mark::Semicolon | Mark::Comma | Mark::RightParenthesis | Mark::EqualSign) =>
            true,
        Class::Reserved(ReservedWord::Then) => true,
        _ => false,
    }
}
