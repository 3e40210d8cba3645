//! Listings that a compiler of PL/M-80 printed.

ghost use Rattle.std.specs.Prelude.{◌≡◌, ◌∷◌, ◌++◌, [], false, map, None, IfOk};
ghost use Rattle.std.specs.List.{list_all};
ghost use Rattle.convert.specs.Assembly.{line_of_source};
ghost use Rattle.convert.specs.Listings.{form_of, has_columns, has_marks, is_end, is_mark, is_number, is_printed, listed, listed_body, listed_text, listing_note, listing_notes_from};

use crate::advice::Advice;
use crate::assembly::{PlacedNote, line_of_source};
use crate::columns::{after, body, front};
use crate::lines::return_of;
use std::alloc::{AllocError, Global};

const COLUMNS: usize = 14;

const COLUMNS_OF_NUMBERS: usize = 8;

/// What a line of a listing is.
#[derive(Clone, Copy)]
pub enum Listed {
    /// A line of the source, after 14 columns.
    Source,
    /// What is left of the line before, after 14 columns.
    Rest,
    /// A line that the compiler printed of its own.
    Printed,
    /// None of these.
    Unknown,
}

/// The source in the lines of a listing. Each line stays, so that the numbers of lines do; what follows the source does not.
pub(crate) fn join_listed(alloc: Global, lines: &[&[u8]]) -> Result<Vec<u8>, AllocError>
    ensures { IfOk result (λ text. text.items ≡ listed_text (map (λ line. line.now) lines.now)) }
{
    let mut text = Vec::new(alloc);
    let mut rest = lines;
    while let [line, more @ ..] = rest {
        if is_end(line) {
            return Ok(text);
        }
        add_listed(line, &mut text)?;
        if !more.is_empty() {
            text.push(b'\n')?;
        }
        rest = more;
    }
    Ok(text)
}

// Adds the text that a line gives.
#[tactic(auto, unfolding(crate::specs::Listings::listed))]
fn add_listed(line: &[u8], text: &mut Vec<u8>) -> Result<(), AllocError>
    ensures { IfOk result (λ _. text.new.items ≡ text.old.items ++ listed line.now) }
{
    text.extend_from_slice(listed_body(body(line)))?;
    text.extend_from_slice(return_of(line))
}

/// Adds what is told of the lines of a listing, counted from 1.
pub(crate) fn note_listing(
    advice: &Advice,
    lines: &[&[u8]],
    notes: &mut Vec<PlacedNote>,
) -> Result<(), AllocError>
    ensures { IfOk result (λ _. notes.new.items
        ≡ notes.old.items ++ listing_notes_from advice.now 1 (map (λ line. line.now) lines.now)) }
{
    let mut number = 1;
    let mut rest = lines;
    while let [line, more @ ..] = rest {
        if is_end(line) {
            return Ok(());
        }
        note_listed(advice, number, form_of(body(line)), notes)?;
        number += 1;
        rest = more;
    }
    Ok(())
}

// Adds what is told of a line of a number.
fn note_listed(
    advice: &Advice,
    number: usize,
    form: Listed,
    notes: &mut Vec<PlacedNote>,
) -> Result<(), AllocError>
    ensures { IfOk result (λ _. notes.new.items ≡ notes.old.items ++ listing_note advice.now number form) }
{
    match form {
        Listed::Source => Ok(()),
        Listed::Rest => tell(number, advice.goes_on, notes),
        Listed::Printed => Ok(()),
        Listed::Unknown => tell(number, advice.no_line, notes),
    }
}

/// Adds a note on a line of a number.
pub(crate) fn tell(
    number: usize,
    text: &'static str,
    notes: &mut Vec<PlacedNote>,
) -> Result<(), AllocError>
    ensures { IfOk result (λ _. notes.new.items
        ≡ notes.old.items ++ (record { place = line_of_source number; text = text.entry; number = None }) ∷ []) }
{
    let place = line_of_source(number);
    notes.push(PlacedNote::new(place, text))?;
    Ok(())
}

// The source in a line, which has no return at its end.
fn listed_body(line: &[u8]) -> &[u8]
    ensures { result.now ≡ listed_body (form_of line.now) line.now }
{
    match form_of(line) {
        Listed::Source => after(line, COLUMNS),
        Listed::Rest => after(line, COLUMNS),
        Listed::Printed => &[],
        Listed::Unknown => line,
    }
}

// What a line is.
fn form_of(line: &[u8]) -> Listed
    ensures { result ≡ form_of line.now }
{
    if is_printed(line) {
        return Listed::Printed;
    }
    if !has_columns(line) {
        return Listed::Unknown;
    }
    if front(line, COLUMNS).contains(&b'-') {
        Listed::Rest
    } else {
        Listed::Source
    }
}

// Whether the compiler printed a line of its own.
fn is_printed(line: &[u8]) -> bool
    ensures { result ≡ is_printed line.now }
{
    line.starts_with(b"PL/M-80 COMPILER")
        || (line.starts_with(b"ISIS-II PL/M-80 ")
            || (line.starts_with(b"OBJECT MODULE PLACED IN ")
                || (line.starts_with(b"NO OBJECT MODULE ")
                    || (line.starts_with(b"COMPILER INVOKED BY:") || line.starts_with(b"*** ")))))
}

// Whether a line ends the source: there is no source from it on.
#[tactic(auto, unfolding(crate::specs::Listings::is_end))]
fn is_end(line: &[u8]) -> bool
    ensures { result ≡ is_end line.now }
{
    line.starts_with(b"MODULE INFORMATION:")
        || (line.starts_with(b"CROSS-REFERENCE LISTING") || line.starts_with(b"SYMBOL LISTING"))
}

// Whether the first columns of a line have what a compiler prints there.
fn has_columns(line: &[u8]) -> bool
    ensures { result ≡ has_columns line.now }
{
    has_numbers(front(line, COLUMNS_OF_NUMBERS))
        && has_marks(after(front(line, COLUMNS), COLUMNS_OF_NUMBERS))
}

// Whether columns have numbers alone.
fn has_numbers(columns: &[u8]) -> bool
    ensures { result ≡ list_all is_number columns.now }
{
    columns.iter().all(is_number)
}

fn is_number(byte: &u8) -> bool
    ensures { result ≡ is_number byte.now }
{
    *byte == b' ' || (*byte == b'-' || byte.is_ascii_digit())
}

// Whether columns have the marks of a line alone.
fn has_marks(columns: &[u8]) -> bool
    ensures { result ≡ has_marks false columns.now }
{
    let mut included = false;
    let mut rest = columns;
    while let [byte, more @ ..] = rest {
        if !is_mark(included, *byte) {
            return false;
        }
        included = *byte == b'=';
        rest = more;
    }
    true
}

// A digit is a mark where it follows an equals sign.
fn is_mark(included: bool, byte: u8) -> bool
    ensures { result ≡ is_mark included byte }
{
    byte == b' ' || (byte == b'-' || (byte == b'=' || (included && byte.is_ascii_digit())))
}
