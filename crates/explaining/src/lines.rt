//! Lines of sources, as they are shown.

use crate::page::{MARGIN, Page, Piece};

// The most bytes of a line that are shown.
const SHOWN: usize = 100;

// How many bytes before the word at fault are shown of a long line.
const BEFORE: usize = 50;

// Where the line of this number begins, counted from 1.
fn start_of(text: &[u8], line: u32) -> usize {
    let mut number = 1_u32;
    for (at, byte) in text.iter().enumerate() {
        if number == line {
            return at;
        }
        if *byte == b'\n' {
            number = number.saturating_add(1);
        }
    }
    text.len()
}

/// A line without the carriage return that ends it.
pub(crate) fn without_return(line: &[u8]) -> &[u8] {
    match line {
        [before @ .., b'\r'] => before,
        _ => line,
    }
}

// The line that begins at a place, without its end.
fn line_at(text: &[u8], start: usize) -> &[u8] {
    let rest = text.get(start..).unwrap_or(&[]);
    for (at, byte) in rest.iter().enumerate() {
        if *byte == b'\n' {
            return without_return(rest.get(..at).unwrap_or(rest));
        }
    }
    without_return(rest)
}

/// The line of this number, counted from 1, without its end.
pub(crate) fn numbered_line(text: &[u8], number: u32) -> &[u8] {
    line_at(text, start_of(text, number))
}

/// The part of a line before a place of a text.
pub(crate) fn line_before(text: &[u8], place: usize) -> &[u8] {
    let before = text.get(..place).unwrap_or(&[]);
    let mut start = 0;
    for (at, byte) in before.iter().enumerate() {
        if *byte == b'\n' {
            start = at.saturating_add(1);
        }
    }
    before.get(start..).unwrap_or(&[])
}

/// Whether a line has a quote without another.
pub(crate) fn has_lone_quote(line: &[u8]) -> bool {
    let mut is_lone = false;
    for byte in line {
        is_lone = is_lone != (*byte == b'\'');
    }
    is_lone
}

/// Whether the beginning of a line has blanks alone.
pub(crate) fn is_blank(beginning: &[u8]) -> bool {
    beginning.iter().all(u8::is_ascii_whitespace)
}

/// Whether the beginning of a line is a number: of digits and blanks alone, and not of blanks alone.
pub(crate) fn is_number(beginning: &[u8]) -> bool {
    let mut has_digit = false;
    for byte in beginning {
        match *byte {
            b'0'..=b'9' => has_digit = true,
            b' ' | b'\t' => {}
            _ => return false,
        }
    }
    has_digit
}

// Shows the number of a line, and the line: all of a short one, else the part around a column. Below it comes a mark of
// that column, if one is wanted.
fn show(page: &mut Page, number: u32, line: &[u8], column: usize, is_marked: bool) {
    let from = column
        .saturating_sub(BEFORE)
        .min(line.len().saturating_sub(SHOWN));
    let to = from.saturating_add(SHOWN).min(line.len());
    let between = if from > 0 { " | .. " } else { " | " };
    page.pieces(&[
        Piece::Number(number),
        Piece::Text(between),
        Piece::Shown(line.get(from..to).unwrap_or(&[])),
        Piece::Text(if to < line.len() { " ..\n" } else { "\n" }),
    ]);
    if is_marked {
        page.pieces(&[
            Piece::Text(MARGIN),
            Piece::BlanksOf(number),
            Piece::Blanks(between.as_bytes()),
            Piece::Blanks(line.get(from..column).unwrap_or(&[])),
            Piece::Text("^\n"),
        ]);
    }
}

/// Shows the line of this number, counted from 1.
pub(crate) fn show_line(page: &mut Page, text: &[u8], number: u32) {
    page.pieces(&[Piece::Text(MARGIN)]);
    show(page, number, numbered_line(text, number), 0, false);
}

/// Shows the line of this number, counted from 1, of a file of this name.
pub(crate) fn show_line_of(page: &mut Page, file: &[u8], text: &[u8], number: u32) {
    page.pieces(&[Piece::Text(MARGIN), Piece::Shown(file), Piece::Text(" ")]);
    show(page, number, numbered_line(text, number), 0, false);
}

/// Shows the line of this number, and a mark below the byte at a place of the text. The mark is left out where the place
/// is not on that line.
pub(crate) fn show_place(page: &mut Page, text: &[u8], number: u32, place: usize) {
    let start = start_of(text, number);
    let line = line_at(text, start);
    let column = place.saturating_sub(start);
    page.pieces(&[Piece::Text(MARGIN)]);
    show(
        page,
        number,
        line,
        column,
        place >= start && column < line.len(),
    );
}
