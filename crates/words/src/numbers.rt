//! Numbers.

ghost use Rattle.std.specs.Prelude.{◌≡◌, ◌≢◌, ◌<◌, ◌≤◌, ◌-◌, length, slice_index, IfSome};
ghost use Rattle.std.specs.Char.{to_ascii_uppercase};
ghost use Rattle.symbols.specs.Names.{name_of};
ghost use Rattle.words.specs.Numbers.{base_of, digit_value, number_in, number_of, number_item};

use crate::items::{Cause, Item};
use crate::limits::GREATEST_NUMBER;
use crate::vocabulary::Kind;

// The item of a word that begins with a digit.
pub(crate) fn number_item(text: &[u8]) -> Item
    ensures { result ≡ number_item text.now }
{
    match number_of(text) {
        Some(value) => Item::Spelled(Kind::Number(value), text.len()),
        None => Item::Wrong(Cause::BadNumber),
    }
}

// The number that a word stands for, in the base that its last character names, if it is one.
fn number_of(text: &[u8]) -> Option<u16>
    ensures { result ≡ number_of (name_of text.now) }
{
    let text = up_to_last_character(text);
    match text {
        [] => number_in(10, text),
        [digits @ .., last] => match base_of(last.to_ascii_uppercase()) {
            Some(base) => number_in(base, digits),
            None => number_in(10, text),
        },
    }
}

// A word without the `$` at its end, so that its last byte is its last character.
fn up_to_last_character(text: &[u8]) -> &[u8]
    ensures same { name_of result.now ≡ name_of text.now }
    ensures last { 0 < length result.now → slice_index result.now (length result.now - 1) ≢ 36 }
{
    let mut count = text.len();
    while count > 0 && text[count - 1] == b'$' {
        count -= 1;
    }
    &text[..count]
}

// The base that a character at the end of a number stands for.
fn base_of(character: u8) -> Option<u32>
    ensures value { result ≡ base_of character }
    ensures range { IfSome result (λ base. (0 < base) × (base ≤ 16)) }
{
    match character {
        b'B' => Some(2),
        b'O' | b'Q' => Some(8),
        b'D' => Some(10),
        b'H' => Some(16),
        _ => None,
    }
}

// The number that the characters of a word are in a base, if they are its digits and the number is not too great.
fn number_in(base: u32, text: &[u8]) -> Option<u16>
    requires positive { 0 < base }
    requires most { base ≤ 16 }
    ensures { result ≡ number_in base (name_of text.now) }
{
    let mut value: u32 = 0;
    for b in text {
        if *b != b'$' {
            let digit = digit_value(*b);
            if digit >= base {
                return None;
            }
            value = value * base + digit;
            if value > GREATEST_NUMBER {
                return None;
            }
        }
    }
    Some(value as u16)
}

// The value of a character as a digit: 10 for A, 11 for B and so on.
fn digit_value(b: u8) -> u32
    ensures { result ≡ digit_value (to_ascii_uppercase b) }
{
    let character = b.to_ascii_uppercase();
    if character.is_ascii_digit() {
        (character - b'0') as u32
    } else {
        character.saturating_sub(b'A' - 10) as u32
    }
}
