//! Numbers that stand before or after the lines of a text, and are no part of the source.

use crate::lines::{line_before, without_return};

// What to do about numbers before lines. Where a line has its number alone, a tab after it, or blanks before it, it takes GNU's
// sed.
const BEFORE_BLANKS: &str =
    "Numbers of an editor before the lines: take them away with sed -e 's/^[0-9]* //'";

const BEFORE_OTHERS: &str =
    "Numbers of an editor before the lines: take them away with GNU's sed -e 's/^[0-9]*[ \\t]\\{0,1\\}//'";

const AFTER_BLANKS: &str =
    "Numbers of an editor before the lines: take them away with GNU's sed -e 's/^ *[0-9]*[ \\t]\\{0,1\\}//'";

// What to do about the numbers of cards.
const ON_CARDS: &str = "Card numbers in columns 73 to 80: use plm convert --cards";

// How many columns of a card have source, and how many have its number.
const COLUMNS_OF_SOURCE: usize = 72;

const COLUMNS_OF_NUMBER: usize = 8;

// How many lines are to have numbers.
const LEAST: u32 = 2;

// What stands before the source of a line, or after it.
#[derive(Clone, Copy, PartialEq, Eq)]
enum Part {
    // Nothing but blanks.
    Empty,
    // A number, and before the source a blank after it.
    Number,
    // A number before the source, with a tab or nothing after it.
    OtherNumber,
    // A number before the source, with blanks before it.
    ShiftedNumber,
    // Anything else.
    Other,
}

// How many lines have each part.
#[derive(Clone, Copy)]
struct Count {
    numbers: u32,
    other_numbers: u32,
    shifted_numbers: u32,
    others: u32,
}

impl Count {
    // No lines.
    fn new() -> Count {
        Count {
            numbers: 0,
            other_numbers: 0,
            shifted_numbers: 0,
            others: 0,
        }
    }

    // Counts a line with this part.
    fn add(&mut self, part: Part) {
        match part {
            Part::Empty => {}
            Part::Number => self.numbers = self.numbers.saturating_add(1),
            Part::OtherNumber => self.other_numbers = self.other_numbers.saturating_add(1),
            Part::ShiftedNumber => self.shifted_numbers = self.shifted_numbers.saturating_add(1),
            Part::Other => self.others = self.others.saturating_add(1),
        }
    }

    // Whether enough lines have numbers, and none has anything else.
    fn is_numbered(&self) -> bool {
        let numbered = self
            .numbers
            .saturating_add(self.other_numbers)
            .saturating_add(self.shifted_numbers);
        self.others == 0 && numbered >= LEAST
    }
}

// Whether a byte is a blank, or comes from the end of a file of CP/M.
fn is_empty_byte(byte: u8) -> bool {
    byte == 0 || byte == 26 || byte.is_ascii_whitespace()
}

// Whether bytes are none but such.
fn is_empty(bytes: &[u8]) -> bool {
    for byte in bytes {
        if !is_empty_byte(*byte) {
            return false;
        }
    }
    true
}

// The number with which a line begins, with the blanks before it and a byte or nothing after it.
#[derive(Clone, Copy)]
struct Front {
    has_blank: bool,
    has_digit: bool,
    end: Option<u8>,
}

// What a line begins with.
fn front_of(line: &[u8]) -> Front {
    let mut front = Front {
        has_blank: false,
        has_digit: false,
        end: None,
    };
    for byte in line {
        match *byte {
            b'0'..=b'9' => front.has_digit = true,
            b' ' if !front.has_digit => front.has_blank = true,
            end => {
                front.end = Some(end);
                return front;
            }
        }
    }
    front
}

// What stands before the source of a line.
fn part_before(line: &[u8]) -> Part {
    if is_empty(line) {
        return Part::Empty;
    }
    let front = front_of(line);
    match front.end {
        _ if !front.has_digit => Part::Other,
        Some(b' ' | b'\t') | None if front.has_blank => Part::ShiftedNumber,
        Some(b' ') => Part::Number,
        Some(b'\t') | None => Part::OtherNumber,
        Some(_) => Part::Other,
    }
}

// Whether the columns after the source are those of a card: letters or none, and a number.
fn is_card_number(columns: &[u8]) -> bool {
    let mut has_digit = false;
    let mut is_ended = false;
    for byte in columns {
        match *byte {
            b'0'..=b'9' if !is_ended => has_digit = true,
            b'A'..=b'Z' if !has_digit => {}
            b' ' => is_ended = has_digit,
            _ => return false,
        }
    }
    has_digit
}

// What stands after the source of a line that is on a card.
fn part_after(line: &[u8]) -> Part {
    let columns = line.get(COLUMNS_OF_SOURCE..).unwrap_or(&[]);
    if is_empty(columns) {
        Part::Empty
    } else if columns.len() <= COLUMNS_OF_NUMBER && is_card_number(columns) {
        Part::Number
    } else {
        Part::Other
    }
}

// The part of a line that is asked for.
fn part_of(line: &[u8], is_before: bool) -> Part {
    let line = without_return(line);
    if is_before {
        part_before(line)
    } else {
        part_after(line)
    }
}

// How many lines of a text have each part, before their source or after it.
fn count_parts(text: &[u8], is_before: bool) -> Count {
    let mut count = Count::new();
    let mut start = 0_usize;
    for (at, byte) in text.iter().enumerate() {
        if *byte == b'\n' {
            count.add(part_of(text.get(start..at).unwrap_or(&[]), is_before));
            start = at.saturating_add(1);
        }
    }
    count.add(part_of(text.get(start..).unwrap_or(&[]), is_before));
    count
}

/// What to do about numbers before the lines of a text, if each line has one but for empty ones.
pub(crate) fn cure_before(text: &[u8]) -> Option<&'static str> {
    let count = count_parts(text, true);
    if !count.is_numbered() {
        None
    } else if count.shifted_numbers > 0 {
        Some(AFTER_BLANKS)
    } else if count.other_numbers > 0 {
        Some(BEFORE_OTHERS)
    } else {
        Some(BEFORE_BLANKS)
    }
}

/// What to do about the numbers of cards, if each line of a text that is longer than the source on a card has one there.
pub(crate) fn cure_after(text: &[u8]) -> Option<&'static str> {
    if count_parts(text, false).is_numbered() {
        Some(ON_CARDS)
    } else {
        None
    }
}

/// Whether a place of a text is in a column of its line after the source of a card.
pub(crate) fn is_after_source(text: &[u8], place: usize) -> bool {
    line_before(text, place).len() >= COLUMNS_OF_SOURCE
}
