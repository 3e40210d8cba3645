//! Strings and comments.

ghost use Rattle.std.specs.Prelude.{◌≡◌, ◌≤◌, false, length, IfOk};
ghost use Rattle.words.specs.Strings.{string_end, comment_end};

use crate::characters::{is_comment_byte, is_printable};
use crate::items::Cause;

// How many bytes of a text a string takes, whose opening quote stands before the text.
pub(crate) fn string_end(text: &[u8]) -> Result<usize, Cause>
    ensures end { result ≡ string_end false text.now }
    ensures range { IfOk result (λ taken. taken ≤ length text.now) }
{
    let mut quoted = false;
    for (i, b) in text.iter().enumerate() {
        if *b == b'\'' {
            quoted = !quoted;
        } else if quoted {
            return Ok(i);
        } else if !is_printable(*b) {
            return Err(Cause::BadCharacter);
        }
    }
    if quoted {
        Ok(text.len())
    } else {
        Err(Cause::NotClosed)
    }
}

// How many bytes of a text a comment takes, whose opening `/*` stands before the text.
pub(crate) fn comment_end(text: &[u8]) -> Result<usize, Cause>
    ensures end { result ≡ comment_end false text.now }
    ensures range { IfOk result (λ taken. taken ≤ length text.now) }
{
    let mut starred = false;
    for (i, b) in text.iter().enumerate() {
        if starred && *b == b'/' {
            return Ok(i + 1);
        }
        if !is_comment_byte(*b) {
            return Err(Cause::BadCharacter);
        }
        starred = *b == b'*';
    }
    Err(Cause::NotClosed)
}
