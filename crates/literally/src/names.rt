//! Names as keys of the map of definitions.

ghost use Rattle.std.specs.Prelude.{◌≡◌, ◌≢◌, ◌<◌, ◌≤◌, length, drop, slice_index};
ghost use Rattle.std.specs.List.{flat_map};
ghost use Rattle.std.specs.Str.{bytes_eq};
ghost use Rattle.std.specs.Cmp.{partial_equiv_from_equiv};
ghost use Rattle.std.specs.Cmp.Lexicographic.{on_texts_equal};
ghost use Rattle.std.specs.Hash as fed;
ghost use Rattle.symbols.specs.Names.{name_of};
ghost use Rattle.literally.specs.internal.Keys.{name_respects};

use std::hash::{Hash, Hasher};

/// A name, known by the bytes of its word. Names are equal if their characters are: `$` is ignored, and a small
/// letter is read as its capital.
#[derive(Clone, Copy)]
pub(crate) struct Name<'a> {
    pub(crate) text: &'a [u8],
}

impl<'a> PartialEq for Name<'a> {
    ghost eq = { λ a b. bytes_eq (name_of a.text.now) (name_of b.text.now) };

    ghost laws = { partial_equiv_from_equiv (on_texts_equal (λ a. name_of a.text.now)) };

    fn eq(&self, other: &Name<'a>) -> bool {
        have_equal_characters(self.text, other.text)
    }
}

impl<'a> Eq for Name<'a> {
    ghost laws = { on_texts_equal (λ a. name_of a.text.now) };
}

impl<'a> Hash for Name<'a> {
    ghost hash_input = { λ a. flat_map fed.u8 (name_of a.text.now) };

    ghost respects_eq = { λ a b. name_respects a.text.now b.text.now };

    fn hash<H: Hasher>(&self, state: &mut H) {
        for b in self.text {
            if *b != b'$' {
                state.write_u8(b.to_ascii_uppercase());
            }
        }
    }
}

// Whether two words are the same name.
fn have_equal_characters(text: &[u8], other: &[u8]) -> bool
    ensures { result ≡ bytes_eq (name_of text.now) (name_of other.now) }
{
    let mut place = 0;
    for b in text {
        if *b != b'$' {
            place = next_character(other, place);
            if place == other.len() || other[place].to_ascii_uppercase() != b.to_ascii_uppercase() {
                return false;
            }
            place += 1;
        }
    }
    next_character(other, place) == other.len()
}

// The place of the next character of a name that counts, from a place on, or the end of its word.
fn next_character(text: &[u8], from: usize) -> usize
    requires { from ≤ length text.now }
    ensures range { result ≤ length text.now }
    ensures same { name_of (drop result text.now) ≡ name_of (drop from text.now) }
    ensures significant { result < length text.now → slice_index text.now result ≢ 36 }
{
    for i in from..text.len() {
        if text[i] != b'$' {
            return i;
        }
    }
    text.len()
}
