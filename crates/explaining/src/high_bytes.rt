//! Bytes that are no characters of ASCII.

use crate::lines::line_before;
use crate::page::{MARGIN, Page, Piece};

/// Where a byte is: outside strings and comments, or in one of these.
#[derive(Clone, Copy, PartialEq, Eq)]
pub(crate) enum Within {
    Source,
    Text,
    Comment,
}

// What is said of a byte that begins no character of UTF-8.
const NO_ASCII: &str = "is no character of ASCII: write one";

// What is said of the first byte of a character of UTF-8 that is not listed below.
const OF_UTF8: &str =
    "begins a character of UTF-8: write ASCII; iconv -f utf-8 -t ascii//TRANSLIT does most";

// What to write for the character of UTF-8 at the beginning of bytes.
fn cure_of_character(bytes: &[u8], within: Within) -> &'static str {
    match bytes {
        [0xEF, 0xBB, 0xBF, ..] => "begins the mark of a text of UTF-8: delete its three bytes",
        [0xE2, 0x80, 0x98 | 0x99, ..] if within == Within::Text => {
            "begins a curved quote: in a string write ''"
        }
        [0xE2, 0x80, 0x98 | 0x99, ..] => "begins a curved quote: write '",
        [0xE2, 0x80, 0x9C | 0x9D, ..] if within == Within::Source => {
            "begins a curved quote: write ', which stands around a string"
        }
        [0xE2, 0x80, 0x9C | 0x9D, ..] => "begins a curved quote: write \"",
        [0xE2, 0x80, 0x90..=0x95, ..] | [0xE2, 0x88, 0x92, ..] => "begins a dash: write -",
        [0xC2, 0xA0, ..] => "begins a blank that is none of ASCII: write a blank",
        _ => OF_UTF8,
    }
}

// What is said of a byte: a sentence, or what it is without its high bit.
#[derive(Clone, Copy)]
enum Said {
    Sentence(&'static str),
    HighBit(u8),
}

// What is said of a byte that is no part of a character of UTF-8.
fn said_alone(byte: u8) -> Said {
    let low = byte % 128;
    if low.is_ascii_graphic() {
        Said::HighBit(low)
    } else {
        Said::Sentence(NO_ASCII)
    }
}

// What is said of a byte at a place of a text: by the whole text if that is one of UTF-8, or of UTF-16 by its beginning.
fn said_of_byte(text: &[u8], place: usize, byte: u8, within: Within) -> Said {
    match text {
        _ if byte.is_ascii() => Said::Sentence("is none of these"),
        [0xFF, 0xFE, ..] | [0xFE, 0xFF, ..] if place == 0 => Said::Sentence(
            "begins a text of UTF-16: iconv -f utf-16 -t ascii//TRANSLIT makes it one of ASCII",
        ),
        _ if std::str::from_utf8(text).is_ok() => {
            Said::Sentence(cure_of_character(text.get(place..).unwrap_or(&[]), within))
        }
        _ => said_alone(byte),
    }
}

// Adds what is said of a byte, and the end of its sentence.
fn add_said(page: &mut Page, said: Said) {
    match said {
        Said::Sentence(sentence) => page.pieces(&[Piece::Text(sentence), Piece::Text(".\n")]),
        Said::HighBit(low) => page.pieces(&[
            Piece::Text(
                "is no character of ASCII: without the high bit, which WordStar sets, it is ",
            ),
            Piece::Shown(&[low]),
            Piece::Text(".\n"),
        ]),
    }
}

/// Adds where a byte is that may not stand at its place, on a line of this number, and what to write for it.
pub(crate) fn add_wrong_byte(
    page: &mut Page,
    text: &[u8],
    place: usize,
    line: u32,
    within: Within,
) {
    let shown = text.get(place..place.saturating_add(1)).unwrap_or(&[]);
    if let [byte] = shown {
        let column = line_before(text, place).len().saturating_add(1);
        page.pieces(&[
            Piece::Text(MARGIN),
            Piece::Text("The byte "),
            Piece::Shown(shown),
            Piece::Text(" in line "),
            Piece::Number(line),
            Piece::Text(", column "),
            Piece::Number(column.min(4_294_967_295) as u32),
            Piece::Text(" "),
        ]);
        add_said(page, said_of_byte(text, place, *byte, within));
    }
}
