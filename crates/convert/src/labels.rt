//! Labels of a DO: the names, each with a colon, that stand directly before it.

ghost use Rattle.std.specs.Prelude.{◌≡◌, take, reverse};
ghost use Rattle.convert.specs.Labels.{has_label, is_colon, is_label_of, is_text_of};
ghost use Rattle.convert.specs.Numbers.{is_name};

use crate::class::{Class, Seen};
use symbols::Name;
use words::Mark;

/// The first words, this many or all.
#[tactic(auto, using(crate::proofs::Taken::all_words))]
pub(crate) fn front_words<'s, 'a>(words: &'s [Seen<'a>], count: usize) -> &'s [Seen<'a>]
    ensures { result.now ≡ take count words.now }
{
    if words.len() > count {
        &words[..count]
    } else {
        words
    }
}

/// Whether a word with this text is one of the labels at the end of words. `$` does not count, and letters are of either case.
pub(crate) fn is_label_of(words: &[Seen], text: &[u8]) -> bool
    ensures { result ≡ is_label_of words.now text.now }
{
    match Name::from_text(text) {
        Some(name) => has_label(name, words),
        None => false,
    }
}

// Whether a name is one of the labels at the end of words.
fn has_label(name: Name, words: &[Seen]) -> bool
    ensures { result ≡ has_label name (reverse words.now) }
{
    let mut rest = words;
    while let [more @ .., label, colon] = rest {
        if !is_colon(colon.class) || !is_name(label.class) {
            return false;
        }
        if is_text_of(name, label.word.text) {
            return true;
        }
        rest = more;
    }
    false
}

/// Whether a word with this text is this name.
pub(crate) fn is_text_of(name: Name, text: &[u8]) -> bool
    ensures { result ≡ is_text_of name text.now }
{
    match Name::from_text(text) {
        Some(other) => other == name,
        None => false,
    }
}

fn is_colon(class: Class) -> bool
    ensures { result ≡ is_colon class }
{
    match class {
        Class::Mark(Mark::Colon) => true,
        _ => false,
    }
}

/// Whether a word is a name.
pub(crate) fn is_name(class: Class) -> bool
    ensures { result ≡ is_name class }
{
    match class {
        Class::Name => true,
        _ => false,
    }
}
