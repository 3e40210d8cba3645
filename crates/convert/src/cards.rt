//! Texts of punched cards.

ghost use Rattle.std.specs.Prelude.{◌≡◌, map, IfOk};
ghost use Rattle.std.specs.List.{join_with_byte};
ghost use Rattle.convert.specs.Cards.{card, carded};

use crate::columns::{body, front};
use crate::lines::{lines_of, plain, return_of};
use std::alloc::{AllocError, Global};

const COLUMNS_OF_TEXT: usize = 72;

/// A text with its lines cut to at most 72 columns. Form feeds, zeros and what follows a ^Z are removed too.
pub(crate) fn carded(alloc: Global, source: &[u8]) -> Result<Vec<u8>, AllocError>
    ensures { IfOk result (λ text. text.items ≡ carded source.now) }
{
    let plain = plain(alloc, source)?;
    let lines = lines_of(alloc, plain.as_slice())?;
    join_cards(alloc, lines.as_slice())
}

// The text of cards.
fn join_cards(alloc: Global, lines: &[&[u8]]) -> Result<Vec<u8>, AllocError>
    ensures { IfOk result (λ text. text.items
        ≡ join_with_byte 10 (map card (map (λ line. line.now) lines.now))) }
{
    let mut text = Vec::new(alloc);
    let mut rest = lines;
    while let [line, more @ ..] = rest {
        text.extend_from_slice(front(body(line), COLUMNS_OF_TEXT))?;
        text.extend_from_slice(return_of(line))?;
        if !more.is_empty() {
            text.push(b'\n')?;
        }
        rest = more;
    }
    Ok(text)
}
