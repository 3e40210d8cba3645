//! Comments in which another begins.

ghost use Rattle.std.specs.Prelude.{◌≡◌, ◌++◌, map, IfOk};
ghost use Rattle.convert.specs.declared.comments.Within.TheVariants.{Program};
ghost use Rattle.convert.specs.Comments.{after_byte, after_bytes, after_end, after_inside, after_line, after_outside, begins_inner, comment_note, comment_notes, comment_notes_from, is_inner};

use crate::advice::Advice;
use crate::assembly::{Place, PlacedNote};
use crate::lines::{is_control, lines_of};
use std::alloc::{AllocError, Global};

/// Where a byte stands, by those before it.
#[derive(Clone, Copy)]
pub enum Within {
    /// Outside of strings and comments.
    Program,
    /// There, after a slash.
    Slash,
    /// In a string.
    Quotes,
    /// In a comment.
    Comment,
    /// There, after an asterisk.
    Asterisk,
    /// There, after a slash.
    InnerSlash,
    /// There, after `/*`.
    Inner,
}

/// Adds what is told of comments in the text of a file.
pub(crate) fn note_comments(
    alloc: Global,
    advice: &Advice,
    file: usize,
    text: &[u8],
    notes: &mut Vec<PlacedNote>,
) -> Result<(), AllocError>
    ensures { IfOk result (λ _. notes.new.items
        ≡ notes.old.items ++ comment_notes advice.now file text.now) }
{
    let lines = lines_of(alloc, text)?;
    note_lines(advice, file, lines.as_slice(), notes)
}

// Adds what is told of comments in the lines of a file, counted from 1.
fn note_lines(
    advice: &Advice,
    file: usize,
    lines: &[&[u8]],
    notes: &mut Vec<PlacedNote>,
) -> Result<(), AllocError>
    ensures { IfOk result (λ _. notes.new.items ≡ notes.old.items
        ++ comment_notes_from advice.now file 1 Program (map (λ line. line.now) lines.now)) }
{
    let mut within = Within::Program;
    let mut number = 1;
    let mut rest = lines;
    while let [line, more @ ..] = rest {
        let place = Place { file, line: number };
        note_line(advice, place, within, line, notes)?;
        within = after_line(within, line);
        number += 1;
        rest = more;
    }
    Ok(())
}

// Adds what is told of a line.
fn note_line(
    advice: &Advice,
    place: Place,
    within: Within,
    line: &[u8],
    notes: &mut Vec<PlacedNote>,
) -> Result<(), AllocError>
    ensures { IfOk result (λ _. notes.new.items
        ≡ notes.old.items ++ comment_note advice.now place within line.now) }
{
    if is_control(line) || !begins_inner(within, line) {
        return Ok(());
    }
    let text = advice.inner_comment;
    notes.push(PlacedNote::new(place, text))?;
    Ok(())
}

// Where the line after a line begins. One with controls is passed over.
fn after_line(within: Within, line: &[u8]) -> Within
    ensures { result ≡ after_line within line.now }
{
    if is_control(line) {
        within
    } else {
        after_bytes(within, line)
    }
}

// Whether a comment begins in another on a line.
fn begins_inner(within: Within, line: &[u8]) -> bool
    ensures { result ≡ begins_inner within line.now }
{
    let mut within = within;
    let mut rest = line;
    while let [byte, more @ ..] = rest {
        if is_inner(within) && *byte != b'/' {
            return true;
        }
        within = after_byte(within, *byte);
        rest = more;
    }
    is_inner(within)
}

fn after_bytes(within: Within, line: &[u8]) -> Within
    ensures { result ≡ after_bytes within line.now }
{
    let mut within = within;
    let mut rest = line;
    while let [byte, more @ ..] = rest {
        within = after_byte(within, *byte);
        rest = more;
    }
    after_end(within)
}

fn after_byte(within: Within, byte: u8) -> Within
    ensures { result ≡ after_byte within byte }
{
    match within {
        Within::Slash if byte == b'*' => Within::Comment,
        Within::InnerSlash if byte == b'*' => Within::Inner,
        Within::Asterisk | Within::Inner if byte == b'/' => Within::Program,
        Within::Quotes if byte == b'\'' => Within::Program,
        Within::Quotes => Within::Quotes,
        Within::Program | Within::Slash => after_outside(byte),
        _ => after_inside(byte),
    }
}

// After a byte outside of strings and comments.
fn after_outside(byte: u8) -> Within
    ensures { result ≡ after_outside byte }
{
    match byte {
        b'/' => Within::Slash,
        b'\'' => Within::Quotes,
        _ => Within::Program,
    }
}

// After a byte of a comment that does not end it.
fn after_inside(byte: u8) -> Within
    ensures { result ≡ after_inside byte }
{
    match byte {
        b'*' => Within::Asterisk,
        b'/' => Within::InnerSlash,
        _ => Within::Comment,
    }
}

// After the end of a line. A string ends there.
fn after_end(within: Within) -> Within
    ensures { result ≡ after_end within }
{
    match within {
        Within::Program | Within::Slash | Within::Quotes => Within::Program,
        _ => Within::Comment,
    }
}

fn is_inner(within: Within) -> bool
    ensures { result ≡ is_inner within }
{
    match within {
        Within::Inner => true,
        _ => false,
    }
}
