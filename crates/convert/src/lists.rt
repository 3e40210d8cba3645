//! Lists of names, divided.

ghost use Rattle.std.specs.Prelude.{◌≡◌, ◌≤◌, ◌+◌, ◌++◌, length, IfOk};
ghost use Rattle.convert.specs.Lists.{ending, list_text, next_values, offset_text, value_text};
ghost use Rattle.convert.specs.Texts.{start_of};

use crate::class::Seen;
use crate::groups::{depth_after, is_comma, item_length};
use crate::rule::Value;
use crate::texts::{between, start_of, text_of};
use itoa::Buffer;
use std::alloc::AllocError;

/// Adds the words of a list, each item with attributes and its value.
pub(crate) fn write_list(
    source: &[u8],
    attributes: &[u8],
    value: Value,
    values: &[Seen],
    words: &[Seen],
    text: &mut Vec<u8>,
) -> Result<(), AllocError>
    requires words { length words.now ≤ 4294967296 }
    requires values { length values.now ≤ 4294967296 }
    ensures { IfOk result (λ _. text.new.items ≡ text.old.items
        ++ list_text source.now attributes.now value 0 values.now
        (start_of words.now) (start_of words.now) 0 words.now) }
{
    let mut number = 0;
    let mut values = values;
    let mut place = start_of(words);
    let mut end = place;
    let mut depth = 0;
    let mut rest = words;
    while let [seen, more @ ..] = rest {
        rest = more;
        if depth == 0 && is_comma(seen.class) {
            text.extend_from_slice(between(source, place, end))?;
            write_ending(source, attributes, value, number, values, text)?;
            text.push(b',')?;
            number += 1;
            values = next_values(value, values);
            place = seen.word.start as usize + 1;
            end = place;
            continue;
        }
        end = seen.word.start as usize + seen.word.text.len();
        depth = depth_after(depth, seen.class);
    }
    text.extend_from_slice(between(source, place, end))?;
    write_ending(source, attributes, value, number, values, text)
}

// Adds the text after item `number`.
fn write_ending(
    source: &[u8],
    attributes: &[u8],
    value: Value,
    number: usize,
    values: &[Seen],
    text: &mut Vec<u8>,
) -> Result<(), AllocError>
    requires number { number ≤ 4294967296 }
    requires values { length values.now ≤ 4294967296 }
    ensures { IfOk result (λ _. text.new.items
        ≡ text.old.items ++ ending source.now attributes.now value number values.now) }
{
    text.push(b' ')?;
    text.extend_from_slice(attributes)?;
    write_value(source, value, number, values, text)
}

// Adds the value of the item of a number.
fn write_value(
    source: &[u8],
    value: Value,
    number: usize,
    values: &[Seen],
    text: &mut Vec<u8>,
) -> Result<(), AllocError>
    requires number { number ≤ 4294967296 }
    requires values { length values.now ≤ 4294967296 }
    ensures { IfOk result (λ _. text.new.items
        ≡ text.old.items ++ value_text source.now value number values.now) }
{
    match value {
        Value::Nothing => Ok(()),
        Value::Item(_) => {
            text.extend_from_slice(b" (")?;
            text.extend_from_slice(text_of(source, &values[..item_length(values)]))?;
            text.extend_from_slice(b")")
        }
        Value::Address(_, bytes) => {
            text.extend_from_slice(b" (")?;
            text.extend_from_slice(text_of(source, values))?;
            write_offset(number, bytes, text)?;
            text.extend_from_slice(b")")
        }
    }
}

// Adds what is added to an address for the item of a number.
fn write_offset(number: usize, bytes: u8, text: &mut Vec<u8>) -> Result<(), AllocError>
    requires { number ≤ 4294967296 }
    ensures { IfOk result (λ _. text.new.items ≡ text.old.items ++ offset_text number bytes) }
{
    if number == 0 {
        return Ok(());
    }
    let mut digits = Buffer::new();
    let offset = digits.format(number * bytes as usize);
    text.extend_from_slice(b" + ")?;
    text.extend_from_slice(offset.as_bytes())
}

// The values of the items after one.
fn next_values<'s, 'a>(value: Value, values: &'s [Seen<'a>]) -> &'s [Seen<'a>]
    requires { length values.now ≤ 4294967296 }
    ensures values { result.now ≡ next_values value values.now }
    ensures shorter { length result.now ≤ length values.now }
{
    match value {
        Value::Item(_) => {
            let count = item_length(values);
            if count < values.len() {
                &values[count + 1..]
            } else {
                &[]
            }
        }
        _ => values,
    }
}
