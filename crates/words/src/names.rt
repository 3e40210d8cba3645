//! Names and reserved words.

ghost use Rattle.std.specs.Prelude.{◌≡◌, length, map};
ghost use Rattle.std.specs.Str.{bytes_eq};
ghost use Rattle.symbols.specs.Names.{name_of};
ghost use Rattle.words.specs.Names.{reserved_of, name_item, word_in};

use crate::items::{Cause, Item};
use crate::vocabulary::{Kind, RESERVED_WORDS, ReservedWord};
use symbols::LONGEST_NAME;

// The item of a word that begins with a letter.
pub(crate) fn name_item(text: &[u8]) -> Item
    ensures { result ≡ name_item text.now }
{
    let count = count_of_characters(text);
    if count > LONGEST_NAME {
        return Item::Wrong(Cause::LongName);
    }
    match reserved_word(text, count) {
        Some(word) => Item::Spelled(Kind::Reserved(word), text.len()),
        None => Item::Spelled(Kind::Name, text.len()),
    }
}

// How many characters a name has: its `$` don't count.
fn count_of_characters(text: &[u8]) -> usize
    ensures { result ≡ length (name_of text.now) }
{
    text.iter().filter(|b| **b != b'$').count()
}

// The reserved word with the characters of this text, if there is one. Their number is `count`.
#[tactic(auto, unfolding(crate::specs::Names::reserved_of, crate::specs::Names::reserved_words))]
fn reserved_word(text: &[u8], count: usize) -> Option<ReservedWord>
    requires { count ≡ length (name_of text.now) }
    ensures { result ≡ reserved_of (name_of text.now) }
{
    find_word(&RESERVED_WORDS, text, count)
}

// The entry of a table with the characters of this text, if there is one. Their number is `count`.
fn find_word(table: &[(&[u8], ReservedWord)], text: &[u8], count: usize) -> Option<ReservedWord>
    requires { count ≡ length (name_of text.now) }
    ensures { result ≡ word_in (map (λ entry. (entry.0.now, entry.1)) table.now) (name_of text.now) }
{
    for (characters, word) in table {
        if has_characters(text, count, characters) {
            return Some(*word);
        }
    }
    None
}

// Whether the characters of a text are these. Their number is `count`.
#[tactic(auto, using(crate::proofs::NamesLemmas::other_length))]
fn has_characters(text: &[u8], count: usize, characters: &[u8]) -> bool
    requires { count ≡ length (name_of text.now) }
    ensures { result ≡ bytes_eq characters.now (name_of text.now) }
{
    if characters.len() != count {
        return false;
    }
    let mut place = 0;
    for b in text {
        if *b != b'$' {
            if place == characters.len() || characters[place] != b.to_ascii_uppercase() {
                return false;
            }
            place += 1;
        }
    }
    place == characters.len()
}
