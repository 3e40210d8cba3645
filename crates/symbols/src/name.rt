//! Names.

ghost use Rattle.std.specs.Prelude.{◌≡◌, ◌↔◌, ◌<◌, [], ◌∷◌, length, IsTrue, IsSome, IfSome, MatchOption};
ghost use Rattle.symbols.specs.Names.{is_name, is_name_character, name_of};

use std::fmt;
use std::marker::Model;

/// How many characters a name may have.
pub const LONGEST_NAME: usize = 31;

/// A name: a capital letter, and then at most 30 capital letters and digits. It borrows nothing from a
/// source.
#[derive(Clone, Copy, Debug, PartialEq, Eq, Hash)]
pub struct Name {
    bytes: [u8; 31],
    count: u8,
}

impl Model for Name {
    ghost use Rattle.std.specs.Prelude.{◌≡◌, ℕ, List, ◌-◌, ◌++◌, IsTrue, take, length, replicate};
    ghost use Rattle.symbols.specs.Names.{is_name};

    ghost Value = { List ℕ };

    ghost view = { λ a. take a.count a.bytes };

    ghost invariant = { λ a. record {
      counted : length (take a.count a.bytes) ≡ a.count;
      rest_is_zero : a.bytes ≡ take a.count a.bytes ++ replicate (31 - a.count) 0;
      valid : IsTrue (is_name (take a.count a.bytes));
    } };

    ghost inverse = { λ v. record { bytes = v ++ replicate (31 - length v) 0; count = length v } };
}

// Whether a byte is a capital letter or a digit.
fn is_character(byte: u8) -> bool
    ensures { result ≡ is_name_character byte }
{
    byte.is_ascii_uppercase() || byte.is_ascii_digit()
}

// The first character of a name, and the text after it.
fn first_character(text: &[u8]) -> Option<(u8, &[u8])>
    ensures first { MatchOption result
        (name_of text.now ≡ []) (λ f. name_of text.now ≡ f.0 ∷ name_of f.1.now) }
    ensures shorter { IfSome result (λ found. length found.1.now < length text.now) }
{
    let mut rest = text;
    while let [b'$', after @ ..] = rest {
        rest = after;
    }
    match rest {
        [first, after @ ..] => Some((first.to_ascii_uppercase(), after)),
        [] => None,
    }
}

impl Name {
    /// The name that a word of a source is, from the bytes of the word.
    pub fn from_text(text: &[u8]) -> Option<Name>
        ensures same { IfSome result (λ name. name ≡ name_of text.now) }
        ensures valid { IsSome result ↔ IsTrue (is_name (name_of text.now)) }
    {
        let mut bytes = [0; 31];
        let mut count: u8 = 0;
        let mut rest = text;
        while let Some((character, after)) = first_character(rest) {
            if count == 31 || !is_character(character) {
                return None;
            }
            bytes[count as usize] = character;
            count += 1;
            rest = after;
        }
        if bytes[0].is_ascii_uppercase() {
            Some(Name { bytes, count })
        } else {
            None
        }
    }

    /// The characters of the name.
    pub fn as_slice(&self) -> &[u8]
        ensures same { result.now ≡ self.now }
        ensures valid { IsTrue (is_name self.now) }
    {
        &self.bytes[..self.count as usize]
    }
}

impl fmt::Display for Name {
    ghost use Rattle.std.specs.Prelude.{Some};

    ghost output = { λ name. Some name };

    fn fmt<W: fmt::Write>(&self, f: &mut fmt::Formatter<W>) -> fmt::Result {
        match str::from_utf8(self.as_slice()) {
            Ok(text) => f.write_str(text),
            Err(_) => Err(fmt::Error),
        }
    }
}
