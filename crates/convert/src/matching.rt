//! Where rules fit.

ghost use Rattle.std.specs.Prelude.{◌≡◌, ◌≤◌, ◌+◌, length};
ghost use Rattle.convert.specs.Numbers.{is_attribute, is_scope, is_type, is_values};
ghost use Rattle.convert.specs.Matching.{based_length, part_length, length_of_parts, list_length, class_length, name_length, one, assigning_length, items_length, end_length};

use crate::class::{Class, Seen};
use crate::groups::{commas, group_length, has_assignment, has_based, has_text, inner};
use crate::numbers::class_number;
use crate::rule::Part;
use crate::sides::clash_length;
use words::ReservedWord;

/// How many words at the front are the parts of a rule; 0 if one does not fit there. The rule's first part has this many
/// commas.
pub(crate) fn length_of_parts(parts: &[Part], first: usize, words: &[Seen]) -> usize
    requires { length words.now ≤ 4294967296 }
    ensures length { result ≡ length_of_parts 0 parts.now first words.now }
    ensures within { result ≤ length words.now }
{
    let mut before = 0;
    let mut rest = words;
    let mut parts = parts;
    while let [part, more @ ..] = parts {
        let here = part_length(*part, first, rest);
        if here == 0 {
            return 0;
        }
        before += here;
        rest = &rest[here..];
        parts = more;
    }
    before
}

// How many words at the front are a part; 0 if it does not fit there.
pub(crate) fn part_length(part: Part, first: usize, words: &[Seen]) -> usize
    requires { length words.now ≤ 4294967296 }
    ensures length { result ≡ part_length part first words.now }
    ensures within { result ≤ length words.now }
{
    match part {
        Part::Is(class) => class_length(class, words),
        Part::Type => type_length(words),
        Part::Scope => match words {
            [seen, ..] if is_scope(seen.class) => 1,
            _ => 0,
        },
        Part::Values => match words {
            [seen, ..] if is_values(seen.class) => 1,
            _ => 0,
        },
        Part::Group => group_length(words),
        Part::Names => names_length(words),
        Part::BasedOne => based_length(false, words),
        Part::BasedList => based_length(true, words),
        Part::List => list_length(words),
        Part::Assigning => assigning_length(words),
        Part::ItemsFor => items_length(first, words),
        Part::Attribute => match words {
            [seen, ..] if is_attribute(seen.class) => 1,
            _ => 0,
        },
        Part::EndOfText => end_length(words),
        Part::Clash => clash_length(words),
    }
}

fn class_length(class: Class, words: &[Seen]) -> usize
    ensures length { result ≡ class_length class words.now }
    ensures within { result ≤ length words.now }
{
    match words {
        [seen, ..] if class_number(seen.class) == class_number(class) => 1,
        _ => 0,
    }
}

fn type_length(words: &[Seen]) -> usize
    ensures length { result ≡ one is_type words.now }
    ensures within { result ≤ length words.now }
{
    match words {
        [seen, ..] => match seen.class {
            Class::Reserved(ReservedWord::Byte | ReservedWord::Address) => 1,
            _ => 0,
        },
        [] => 0,
    }
}

// EOF, if it is the last word.
fn end_length(words: &[Seen]) -> usize
    ensures length { result ≡ end_length words.now }
    ensures within { result ≤ length words.now }
{
    match words {
        [_] => class_length(Class::Reserved(ReservedWord::Eof), words),
        _ => 0,
    }
}

fn names_length(words: &[Seen]) -> usize
    ensures length { result ≡ name_length words.now }
    ensures within { result ≤ length words.now }
{
    match words {
        [seen, ..] => match seen.class {
            Class::Name => 1,
            _ => group_length(words),
        },
        [] => 0,
    }
}

// A group with BASED, of several items or of one.
fn based_length(several: bool, words: &[Seen]) -> usize
    requires { length words.now ≤ 4294967296 }
    ensures length { result ≡ based_length several words.now }
    ensures within { result ≤ length words.now }
{
    let count = group_length(words);
    let items = inner(&words[..count]);
    if has_based(items) && (commas(items) > 0) == several {
        count
    } else {
        0
    }
}

fn list_length(words: &[Seen]) -> usize
    requires { length words.now ≤ 4294967296 }
    ensures length { result ≡ list_length words.now }
    ensures within { result ≤ length words.now }
{
    let count = group_length(words);
    let items = inner(&words[..count]);
    if !has_based(items) && commas(items) > 0 {
        count
    } else {
        0
    }
}

fn assigning_length(words: &[Seen]) -> usize
    requires { length words.now ≤ 4294967296 }
    ensures length { result ≡ assigning_length words.now }
    ensures within { result ≤ length words.now }
{
    let count = group_length(words);
    if has_assignment(inner(&words[..count])) {
        count
    } else {
        0
    }
}

fn items_length(first: usize, words: &[Seen]) -> usize
    requires { length words.now ≤ 4294967296 }
    ensures length { result ≡ items_length first words.now }
    ensures within { result ≤ length words.now }
{
    let count = group_length(words);
    let items = inner(&words[..count]);
    if !has_text(items) && commas(items) == first {
        count
    } else {
        0
    }
}

fn is_scope(class: Class) -> bool
    ensures { result ≡ is_scope class }
{
    match class {
        Class::Reserved(ReservedWord::Public) => true,
        Class::Reserved(ReservedWord::External) => true,
        _ => false,
    }
}

fn is_values(class: Class) -> bool
    ensures { result ≡ is_values class }
{
    match class {
        Class::Reserved(ReservedWord::Initial) => true,
        Class::Reserved(ReservedWord::Data) => true,
        _ => false,
    }
}

fn is_attribute(class: Class) -> bool
    ensures { result ≡ is_attribute class }
{
    match class {
        Class::Reserved(ReservedWord::At) => true,
        _ => is_scope(class) || is_values(class),
    }
}
