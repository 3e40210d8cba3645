//! The record of an object file at which its fault is.

use crate::explanation::Seen;
use crate::kept_files::kept_bytes;
use crate::kinds::is_text;
use crate::page::{MARGIN, Page, Piece, digits_of};
use crate::sentences::said_of;
use host::Failure;
use object_commands::read;
use std::alloc::Global;

// What Intel's tools put into a record of each type: a line for each.
const CONTENTS: &str = "\
02 the header of a module
04 the end of a module
06 content
08 line numbers
0E the end of the file
10 the names of modules
12 local symbols
16 public names
18 external names
20 external references
22 relocation
24 intersegment references
26 the places of modules in a library
28 the names of modules in a library
2A the public names of a library
2C the header of a library
2E named commons
";

// The type of the record that ends a file.
const END: u8 = 0x0E;

// How often the bytes of a file are halved at most.
const HALVINGS: u32 = 32;

// A record of a file: which one it is, from 1; how many bytes stand before it; its type, and that of the record before it, or 0.
#[derive(Clone, Copy)]
struct Place {
    number: u32,
    before: usize,
    kind: u8,
    earlier: u8,
}

// Whether the first bytes of a file have another fault than that they end too early.
fn is_faulty(alloc: Global, bytes: &[u8], count: usize) -> bool {
    let (front, _) = bytes.split_at(count.min(bytes.len()));
    match read(alloc, front) {
        Err(Failure::Fault(fault)) => fault.number() != "O1",
        _ => false,
    }
}

// The least number of bytes at the front of a file that have such a fault, where the file has one.
fn first_faulty(alloc: Global, bytes: &[u8]) -> usize {
    let mut sound: usize = 0;
    let mut faulty = bytes.len();
    for _ in 0..HALVINGS {
        if faulty.saturating_sub(sound) < 2 {
            break;
        }
        let middle = sound.saturating_add(faulty.saturating_sub(sound) / 2);
        if is_faulty(alloc, bytes, middle) {
            faulty = middle;
        } else {
            sound = middle;
        }
    }
    faulty
}

// The first record of a file that ends after this number of bytes or later, or what follows the last record.
fn record_at(bytes: &[u8], count: usize) -> Option<Place> {
    let mut place = Place {
        number: 0,
        before: 0,
        kind: 0,
        earlier: 0,
    };
    let mut rest = bytes;
    for _ in bytes {
        if place.earlier == END {
            return Some(place);
        }
        let [kind, low, high, ..] = rest else {
            return None;
        };
        place.number = place.number.saturating_add(1);
        place.kind = *kind;
        let length = 3 + *low as usize + 256 * (*high as usize);
        if place.before.saturating_add(length) >= count {
            return Some(place);
        }
        place.earlier = *kind;
        place.before = place.before.saturating_add(length);
        rest = rest.get(length..).unwrap_or(&[]);
    }
    None
}

// What Intel's tools put into a record of a type.
fn content_of(kind: u8) -> Option<&'static str> {
    said_of(CONTENTS, &digits_of(kind))
}

// Adds which record it is, and what Intel's tools put there.
fn add_place(page: &mut Page, place: Place) {
    let before = u32::try_from(place.before).unwrap_or(u32::MAX);
    if place.earlier == END {
        page.line(&[
            Piece::Text("The end of file record ends after "),
            Piece::Number(before),
            Piece::Text(" bytes, and more follows"),
        ]);
        return;
    }
    let digits = digits_of(place.kind);
    page.pieces(&[
        Piece::Text(MARGIN),
        Piece::Text("Record "),
        Piece::Number(place.number),
        Piece::Text(", after "),
        Piece::Number(before),
        Piece::Text(" bytes, has the type "),
        Piece::Shown(&digits),
        Piece::Text("H"),
    ]);
    if let Some(content) = content_of(place.kind) {
        page.pieces(&[Piece::Text(": "), Piece::Text(content)]);
    }
    page.pieces(&[Piece::Text("\n")]);
}

/// Adds at which record of an object file its fault is. A text has no records.
pub(crate) fn add_faulty_record(page: &mut Page, seen: &Seen, name: &str) {
    if let Some(bytes) = kept_bytes(seen.files, name)
        && !is_text(bytes)
        && is_faulty(seen.alloc, bytes, bytes.len())
        && let Some(place) = record_at(bytes, first_faulty(seen.alloc, bytes))
    {
        add_place(page, place);
    }
}
