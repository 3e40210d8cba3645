//! What is wrong with a word that begins with a digit and is no number, and numbers that are spelled as in other languages.

use crate::page::{Page, Piece};
use host::Failure;
use std::alloc::{AllocError, Global};
use words::{Kind, LONGEST_SOURCE};

// What is said before a number as it is likely meant.
const NO_X: &str = "A hexadecimal number has no 0x, and ends with H: ";

const NO_DOLLAR: &str = "A hexadecimal number has no $ before it, and ends with H: ";

const NO_H: &str = "A hexadecimal number ends with H: ";

const BINARY_BY_B: &str =
    "A number that ends with B is binary; as a hexadecimal one it ends with H: ";

const DECIMAL_BY_D: &str =
    "A number that ends with D is decimal; as a hexadecimal one it ends with H: ";

const LETTERS: &str = "O, I and l are letters and no digits: ";

// What is said of a number otherwise.
const TOO_GREAT: &str = "The greatest number is 65535, in hexadecimal 0FFFFH";

const OCTAL: &str = "A number that ends with O or Q is octal, with the digits 0 to 7";

const BINARY: &str = "A number that ends with B is binary, with the digits 0 and 1";

// The word at the beginning of a text, as far as letters, digits and `$` go.
fn word_at(text: &[u8]) -> &[u8] {
    for (at, byte) in text.iter().enumerate() {
        if !byte.is_ascii_alphanumeric() && *byte != b'$' {
            return text.get(..at).unwrap_or(text);
        }
    }
    text
}

// The value of a hexadecimal digit.
fn digit_value(byte: u8) -> Option<u8> {
    match byte.to_ascii_uppercase() {
        digit @ b'0'..=b'9' => Some(digit.saturating_sub(b'0')),
        letter @ b'A'..=b'F' => Some(letter.saturating_sub(b'A').saturating_add(10)),
        _ => None,
    }
}

// Whether bytes are digits of a base up to 16, or `$`.
fn has_digits_of(base: u8, bytes: &[u8]) -> bool {
    for byte in bytes {
        match digit_value(*byte) {
            Some(value) if value < base => {}
            None if *byte == b'$' => {}
            _ => return false,
        }
    }
    true
}

// The number that hexadecimal digits spell, if there is one digit at least, and it is one of 16 bits.
fn number_of(digits: &[u8]) -> Option<u32> {
    let mut number: u32 = 0;
    for digit in digits {
        let value = digit_value(*digit)?;
        number = number.saturating_mul(16).saturating_add(value as u32);
    }
    if digits.is_empty() || number > 65535 {
        None
    } else {
        Some(number)
    }
}

/// The 16-bit number of a text of hexadecimal digits that end with H, or come after 0x or $.
pub(crate) fn hexadecimal(text: &[u8]) -> Option<u32> {
    match text {
        [b'0', b'x' | b'X', digits @ ..] => number_of(digits),
        [b'$', digits @ ..] => number_of(digits),
        [digits @ .., b'H' | b'h'] => number_of(digits),
        _ => None,
    }
}

// A digit that looks as this letter, or the byte itself.
fn likely_digit(byte: u8) -> u8 {
    match byte {
        b'O' | b'o' => b'0',
        b'I' | b'l' => b'1',
        other => other,
    }
}

// Three texts, one after another.
fn joined(alloc: Global, before: &[u8], bytes: &[u8], after: &[u8]) -> Result<Vec<u8>, AllocError> {
    let mut text = Vec::new(alloc);
    text.extend_from_slice(before)?;
    text.extend_from_slice(bytes)?;
    text.extend_from_slice(after)?;
    Ok(text)
}

// A word with digits in place of letters that look as these.
fn with_digits(alloc: Global, word: &[u8]) -> Result<Vec<u8>, AllocError> {
    let mut text = Vec::new(alloc);
    for byte in word {
        text.push(likely_digit(*byte))?;
    }
    Ok(text)
}

// What a text is, if it is one word.
fn kind_of(page: &mut Page, alloc: Global, text: &[u8]) -> Option<Kind> {
    if text.len() > LONGEST_SOURCE {
        return None;
    }
    match words::scan(alloc, text) {
        Ok(words) => match words.as_slice() {
            [word] => Some(word.kind),
            _ => None,
        },
        Err(failure) => {
            page.note(!matches!(failure, Failure::Memory));
            None
        }
    }
}

// Whether a text is a number.
fn is_number(page: &mut Page, alloc: Global, text: &[u8]) -> bool {
    match kind_of(page, alloc, text) {
        Some(Kind::Number(_)) => true,
        _ => false,
    }
}

// Adds a sentence and a number, if that is one, and answers whether it is.
fn add_if_number(
    page: &mut Page,
    alloc: Global,
    sentence: &'static str,
    number: Result<Vec<u8>, AllocError>,
) -> bool {
    let Ok(number) = number else {
        page.note(false);
        return false;
    };
    let is_one = is_number(page, alloc, number.as_slice());
    if is_one {
        page.sentence(&[Piece::Text(sentence), Piece::Shown(number.as_slice())]);
    }
    is_one
}

// What is said of a word of hexadecimal digits, by the last of them.
fn said_without_h(word: &[u8]) -> &'static str {
    match word {
        [.., b'B' | b'b'] => BINARY_BY_B,
        [.., b'D' | b'd'] => DECIMAL_BY_D,
        _ => NO_H,
    }
}

// Adds the number that is likely meant by a word that is none, and answers whether there is one. What begins as a binary or an
// octal number of other languages may be several.
fn add_likely(page: &mut Page, alloc: Global, word: &[u8]) -> bool {
    match word {
        [b'0', b'x' | b'X', digits @ ..] => {
            add_if_number(page, alloc, NO_X, joined(alloc, b"0", digits, b"H"))
        }
        [b'0', b'b' | b'B', digits @ ..] if has_digits_of(2, digits) => false,
        [b'0', b'o' | b'O', digits @ ..] if has_digits_of(8, digits) => false,
        [digits @ .., b'o' | b'O'] if has_digits_of(10, digits) => false,
        _ if has_digits_of(16, word) => add_if_number(
            page,
            alloc,
            said_without_h(word),
            joined(alloc, b"", word, b"H"),
        ),
        _ => add_if_number(page, alloc, LETTERS, with_digits(alloc, word)),
    }
}

// Whether a word has digits of its base alone.
fn is_of_base(word: &[u8]) -> bool {
    match word {
        [digits @ .., b'H' | b'h'] => has_digits_of(16, digits),
        [digits @ .., b'O' | b'o' | b'Q' | b'q'] => has_digits_of(8, digits),
        [digits @ .., b'B' | b'b'] => has_digits_of(2, digits),
        [digits @ .., b'D' | b'd'] => has_digits_of(10, digits),
        _ => has_digits_of(10, word),
    }
}

// Why a word is no number, by its base.
fn cause_by_base(word: &[u8]) -> Option<&'static str> {
    match word {
        _ if is_of_base(word) => Some(TOO_GREAT),
        [digits @ .., b'O' | b'o' | b'Q' | b'q'] if has_digits_of(10, digits) => Some(OCTAL),
        [digits @ .., b'B' | b'b'] if has_digits_of(10, digits) => Some(BINARY),
        _ => None,
    }
}

// What comes after the digits with which a word begins.
fn after_digits(word: &[u8]) -> &[u8] {
    for (at, byte) in word.iter().enumerate() {
        if !byte.is_ascii_digit() {
            return word.get(at..).unwrap_or(&[]);
        }
    }
    &[]
}

// Whether a text is a reserved word.
fn is_reserved(page: &mut Page, alloc: Global, text: &[u8]) -> bool {
    match kind_of(page, alloc, text) {
        Some(Kind::Reserved(_)) => true,
        _ => false,
    }
}

// The first byte that is no hexadecimal digit.
fn find_other(digits: &[u8]) -> Option<u8> {
    for byte in digits {
        if !byte.is_ascii_hexdigit() && *byte != b'$' {
            return Some(*byte);
        }
    }
    None
}

// Adds which letter of a hexadecimal number is no digit.
fn add_other(page: &mut Page, word: &[u8]) {
    if let [digits @ .., b'H' | b'h'] = word
        && let Some(other) = find_other(digits)
    {
        page.sentence(&[
            Piece::Shown(&[other]),
            Piece::Text(" is no digit of a hexadecimal number"),
        ]);
    }
}

/// Adds what is wrong with the word at the beginning of a text, where that is known. It begins with a digit, and is no number.
pub(crate) fn explain_number(page: &mut Page, alloc: Global, text: &[u8]) {
    let word = word_at(text);
    let after = after_digits(word);
    if add_likely(page, alloc, word) {
        return;
    }
    if let Some(sentence) = cause_by_base(word) {
        page.sentence(&[Piece::Text(sentence)]);
    } else if is_reserved(page, alloc, after) {
        page.sentence(&[
            Piece::Text("A blank is missing before "),
            Piece::Shown(after),
        ]);
    } else {
        add_other(page, word);
    }
}

/// Adds what is said of a number at the beginning of a text that stands after `$`, and answers whether one does.
pub(crate) fn explain_after_dollar(page: &mut Page, alloc: Global, text: &[u8]) -> bool {
    let word = word_at(text);
    !word.is_empty()
        && word.iter().all(u8::is_ascii_hexdigit)
        && add_if_number(page, alloc, NO_DOLLAR, joined(alloc, b"0", word, b"H"))
}

/// Adds what is said of a name that is likely a hexadecimal number with a letter in place of its first digit.
pub(crate) fn explain_name_as_number(page: &mut Page, alloc: Global, name: &[u8]) {
    if let [b'O' | b'o' | b'I' | b'l', _, .., b'H' | b'h'] = name {
        let _ = add_if_number(page, alloc, LETTERS, with_digits(alloc, name));
    }
}
