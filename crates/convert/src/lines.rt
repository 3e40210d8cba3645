//! Lines of old sources.

ghost use Rattle.std.specs.Prelude.{◌≡◌, ◌≤◌, ◌==◌, ◌||◌, ◌+◌, ◌-◌, ◌++◌, [], ◌∷◌, get_or, length, map, IfOk};
ghost use Rattle.convert.specs.Lines.{fed_gap, is_control, is_unbroken, lines_of, lines_of_file, plain, return_of};
ghost use Rattle.convert.specs.internal.Feeds.{waiting};

use crate::edit::is_word_byte;
use std::alloc::{AllocError, Global};

const END_OF_TEXT: u8 = 26;

const FORM_FEED: u8 = 12;

/// A text up to the first ^Z, without form feeds and zeros. A form feed still parts two words.
pub fn plain(alloc: Global, source: &[u8]) -> Result<Vec<u8>, AllocError>
    ensures plain { IfOk result (λ text. text.items ≡ plain source.now) }
    ensures shorter { IfOk result (λ text. length text.items ≤ length source.now) }
{
    let mut text = Vec::new(alloc);
    let mut last = b' ';
    let mut fed = false;
    let mut rest = source;
    while let [byte, more @ ..] = rest {
        if *byte == END_OF_TEXT {
            return Ok(text);
        }
        rest = more;
        if *byte == FORM_FEED {
            fed = true;
            continue;
        }
        if *byte != 0 {
            add_byte(last, fed, *byte, &mut text)?;
            last = *byte;
            fed = false;
        }
    }
    Ok(text)
}

// Adds a byte `c` after another, apart if both would be of one word and a form feed stood between them.
fn add_byte(last: u8, fed: bool, c: u8, text: &mut Vec<u8>) -> Result<(), AllocError>
    ensures added { IfOk result (λ _. text.new.items ≡ text.old.items ++ (fed_gap fed last c ++ c ∷ [])) }
    ensures few { IfOk result (λ _. length text.new.items ≤ length text.old.items + (1 + waiting fed)) }
{
    if fed && is_word_byte(last) && is_word_byte(c) {
        text.push(b' ')?;
    }
    text.push(c)?;
    Ok(())
}

/// The lines of a text, without the line feeds between them.
pub(crate) fn lines_of(alloc: Global, text: &[u8]) -> Result<Vec<&[u8]>, AllocError>
    ensures { IfOk result (λ lines. map (λ line. line.now) lines.items ≡ lines_of text.now) }
{
    text.split(|byte| *byte == b'\n').collect(alloc)
}

/// The lines of a file that is included: a line feed at its end ends the last one.
pub(crate) fn lines_of_file(alloc: Global, text: &[u8]) -> Result<Vec<&[u8]>, AllocError>
    ensures { IfOk result (λ lines. map (λ line. line.now) lines.items ≡ lines_of_file text.now) }
{
    if !text.is_empty() && text[text.len() - 1] == b'\n' {
        lines_of(alloc, &text[..text.len() - 1])
    } else {
        lines_of(alloc, text)
    }
}

/// Whether a text has returns, but no line feeds, and so is one line.
pub(crate) fn is_unbroken(text: &[u8]) -> bool
    ensures { result ≡ is_unbroken text.now }
{
    text.contains(&b'\r') && !text.contains(&b'\n')
}

/// Whether a line has controls.
pub(crate) fn is_control(line: &[u8]) -> bool
    ensures { result ≡ is_control line.now }
{
    match line {
        [first, ..] => *first == b'$',
        [] => false,
    }
}

/// The return at the end of a line, if there is one.
pub(crate) fn return_of(line: &[u8]) -> &'static [u8]
    ensures { result.now ≡ return_of line.now }
{
    if ends_with_return(line) { b"\r" } else { &[] }
}

/// Whether a line has a return at its end.
pub(crate) fn ends_with_return(line: &[u8]) -> bool
    ensures { result ≡ (get_or line.now (length line.now - 1) 0 == 13) }
{
    !line.is_empty() && line[line.len() - 1] == b'\r'
}
