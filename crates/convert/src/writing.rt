//! What rules write.

ghost use Rattle.std.specs.Prelude.{◌≡◌, ◌≤◌, ◌++◌, length, IfOk};
ghost use Rattle.convert.specs.Writing.{put_text, puts_text, values_of, words_of_part};

use crate::class::Seen;
use crate::groups::inner;
use crate::lists::write_list;
use crate::matching::part_length;
use crate::rule::{Part, Put, Value};
use crate::texts::{between, end_of, start_of, text_of};
use crate::wrapping::write_wrapped;
use std::alloc::{AllocError, Global};

// The words of the part of this number, from 0.
fn words_of_part<'s, 'a>(
    parts: &[Part],
    number: u8,
    first: usize,
    words: &'s [Seen<'a>],
) -> &'s [Seen<'a>]
    requires { length words.now ≤ 4294967296 }
    ensures words { result.now ≡ words_of_part parts.now number first words.now }
    ensures shorter { length result.now ≤ length words.now }
{
    let mut rest = words;
    let mut parts = parts;
    let mut number = number;
    while let [part, more @ ..] = parts {
        let here = part_length(*part, first, rest);
        if number == 0 {
            return &rest[..here];
        }
        number -= 1;
        rest = &rest[here..];
        parts = more;
    }
    &[]
}

/// What a rule with these parts writes for words that it fits.
pub(crate) fn puts_text(
    alloc: Global,
    source: &[u8],
    parts: &[Part],
    first: usize,
    words: &[Seen],
    puts: &[Put],
) -> Result<Vec<u8>, AllocError>
    requires { length words.now ≤ 4294967296 }
    ensures { IfOk result (λ text. text.items ≡ puts_text source.now parts.now first words.now puts.now) }
{
    let mut text = Vec::new(alloc);
    let mut rest = puts;
    while let [put, more @ ..] = rest {
        write_put(source, parts, first, words, *put, &mut text)?;
        rest = more;
    }
    Ok(text)
}

// Adds what a rule writes for one of its pieces.
fn write_put(
    source: &[u8],
    parts: &[Part],
    first: usize,
    words: &[Seen],
    put: Put,
    text: &mut Vec<u8>,
) -> Result<(), AllocError>
    requires { length words.now ≤ 4294967296 }
    ensures { IfOk result (λ _. text.new.items
        ≡ text.old.items ++ put_text source.now parts.now first words.now put) }
{
    match put {
        Put::Copy(number) => {
            let part = words_of_part(parts, number, first, words);
            text.extend_from_slice(text_of(source, part))
        }
        Put::After(part, last) => {
            let from = end_of(words_of_part(parts, part, first, words));
            let to = end_of(words_of_part(parts, last, first, words));
            text.extend_from_slice(between(source, from, to))
        }
        Put::Text(bytes) => text.extend_from_slice(bytes),
        Put::Inner(number) => {
            let part = words_of_part(parts, number, first, words);
            text.extend_from_slice(text_of(source, inner(part)))
        }
        Put::Wrapped(number) => {
            let part = words_of_part(parts, number, first, words);
            text.push(b'(')?;
            write_wrapped(source, inner(part), text)?;
            text.push(b')')?;
            Ok(())
        }
        Put::Each {
            first: from,
            last,
            value,
        } => {
            let attributes = between(
                source,
                start_of(words_of_part(parts, from, first, words)),
                end_of(words_of_part(parts, last, first, words)),
            );
            let names = inner(words_of_part(parts, 0, first, words));
            let values = values_of(parts, first, words, value);
            write_list(source, attributes, value, values, names, text)
        }
    }
}

// The words of the group that has the values.
fn values_of<'s, 'a>(
    parts: &[Part],
    first: usize,
    words: &'s [Seen<'a>],
    value: Value,
) -> &'s [Seen<'a>]
    requires { length words.now ≤ 4294967296 }
    ensures values { result.now ≡ values_of parts.now first words.now value }
    ensures shorter { length result.now ≤ 4294967296 }
{
    match value {
        Value::Nothing => &[],
        Value::Item(number) => inner(words_of_part(parts, number, first, words)),
        Value::Address(number, _) => inner(words_of_part(parts, number, first, words)),
    }
}
