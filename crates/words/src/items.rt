//! The items of a text.

ghost use Rattle.std.specs.Prelude.{◌≡◌, false, length};
ghost use Rattle.words.specs.Items.{item_at, comment_or_mark};
ghost use Rattle.words.specs.Strings.{string_end, string_item};
ghost use Rattle.words.specs.internal.Fits.{FitsIn};

use crate::characters::{count_of_blanks, is_blank, run_of_word_bytes};
use crate::marks::mark_item;
use crate::names::name_item;
use crate::numbers::number_item;
use crate::strings::{comment_end, string_end};
use crate::vocabulary::Kind;

/// Why no word stands at a place.
#[derive(Clone, Copy)]
pub enum Cause {
    BadCharacter,
    NotClosed,
    BadNumber,
    LongName,
}

/// The item at one place of a text, with the number of bytes that it takes.
#[derive(Clone, Copy)]
pub enum Item {
    /// The text ends there.
    Ending,
    /// A run of blanks, or a comment.
    Blank(usize),
    /// A word of this kind.
    Spelled(Kind, usize),
    /// Neither a word nor a blank.
    Wrong(Cause),
}

// The item with which a text begins.
pub(crate) fn next_item(text: &[u8]) -> Item
    ensures item { result ≡ item_at text.now }
    ensures fits { FitsIn (length text.now) result }
{
    item_at(text)
}

// The same, by the first byte.
fn item_at(text: &[u8]) -> Item
    ensures { result ≡ item_at text.now }
{
    let [first, rest @ ..] = text else {
        return Item::Ending;
    };
    if is_blank(*first) {
        Item::Blank(count_of_blanks(text))
    } else if first.is_ascii_alphabetic() {
        name_item(run_of_word_bytes(text))
    } else if first.is_ascii_digit() {
        number_item(run_of_word_bytes(text))
    } else if *first == b'\'' {
        string_item(rest)
    } else {
        comment_or_mark(*first, rest)
    }
}

// The item of a string, after its opening quote.
fn string_item(text: &[u8]) -> Item
    ensures { result ≡ string_item (string_end false text.now) }
{
    match string_end(text) {
        Ok(length) => Item::Spelled(Kind::String, 1 + length),
        Err(cause) => Item::Wrong(cause),
    }
}

// The item of a text that begins with this byte, which is not a blank, letter, digit or quote: a comment, its longest
// mark, or a fault.
fn comment_or_mark(first: u8, rest: &[u8]) -> Item
    ensures { result ≡ comment_or_mark first rest.now }
{
    match rest {
        [b'*', body @ ..] if first == b'/' => match comment_end(body) {
            Ok(length) => Item::Blank(2 + length),
            Err(cause) => Item::Wrong(cause),
        },
        _ => mark_item(first, rest),
    }
}
