//! Texts of words.

ghost use Rattle.std.specs.Prelude.{◌≡◌};
ghost use Rattle.convert.specs.Texts.{between, end_after, start_of, text_of};

use crate::class::Seen;

/// The bytes of a text between two places, none if they are no such.
pub(crate) fn between(source: &[u8], from: usize, to: usize) -> &[u8]
    ensures { result.now ≡ between source.now from to }
{
    if from <= to && to <= source.len() {
        &source[from..to]
    } else {
        &[]
    }
}

/// Where the first of words begins.
pub(crate) fn start_of(words: &[Seen]) -> usize
    ensures { result ≡ start_of words.now }
{
    match words {
        [seen, ..] => seen.word.start as usize,
        [] => 0,
    }
}

/// Where the last of words ends.
pub(crate) fn end_of(words: &[Seen]) -> usize
    ensures { result ≡ end_after 0 words.now }
{
    let mut end = 0;
    let mut rest = words;
    while let [seen, more @ ..] = rest {
        end = seen.word.start as usize + seen.word.text.len();
        rest = more;
    }
    end
}

/// The text from the first of words to the last.
pub(crate) fn text_of<'a>(source: &'a [u8], words: &[Seen]) -> &'a [u8]
    ensures { result.now ≡ text_of source.now words.now }
{
    between(source, start_of(words), end_of(words))
}
