//! Changes of a text.

ghost use Rattle.std.specs.Prelude.{◌≡◌, ◌++◌, IfOk};
ghost use Rattle.words.specs.Characters.{is_word_byte};
ghost use Rattle.convert.specs.Edits.{apart, changes_of, last_after, spliced};

use crate::texts::between;
use std::alloc::{AllocError, Global};

/// A change of a text: the bytes from `from` up to `to`, counted from 0, are replaced by others.
#[derive(Drop)]
pub struct Edit {
    pub from: usize,
    pub to: usize,
    pub text: Vec<u8>,
}

/// Whether a byte continues a name or a number: a letter, a digit or `$`.
pub(crate) fn is_word_byte(b: u8) -> bool
    ensures { result ≡ is_word_byte b }
{
    b.is_ascii_alphabetic() || b.is_ascii_digit() || b == b'$'
}

// Adds a piece after a byte, apart from it if both would be of one word.
fn write_piece(last: u8, piece: &[u8], text: &mut Vec<u8>) -> Result<(), AllocError>
    ensures { IfOk result (λ _. text.new.items ≡ text.old.items ++ apart last piece.now) }
{
    if let [first, ..] = piece
        && is_word_byte(last)
        && is_word_byte(*first)
    {
        text.push(b' ')?;
    }
    text.extend_from_slice(piece)
}

// The last byte of a piece, or the one before it.
fn last_after(last: u8, piece: &[u8]) -> u8
    ensures { result ≡ last_after last piece.now }
{
    if piece.is_empty() {
        last
    } else {
        piece[piece.len() - 1]
    }
}

/// A text with changes made. Where two pieces of it would run into one word, they are set apart by a blank.
pub(crate) fn splice(alloc: Global, source: &[u8], edits: &[Edit]) -> Result<Vec<u8>, AllocError>
    ensures { IfOk result (λ text. text.items ≡ spliced source.now (changes_of edits.now)) }
{
    let mut text = Vec::new(alloc);
    let mut last = b' ';
    let mut place = 0;
    let mut rest = edits;
    while let [edit, more @ ..] = rest {
        let kept = between(source, place, edit.from);
        write_piece(last, kept, &mut text)?;
        last = last_after(last, kept);
        write_piece(last, edit.text.as_slice(), &mut text)?;
        last = last_after(last, edit.text.as_slice());
        place = edit.to;
        rest = more;
    }
    write_piece(last, between(source, place, source.len()), &mut text)?;
    Ok(text)
}
