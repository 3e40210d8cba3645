//! From which line of an old source that of a fault comes, as tables of lines tell it.

use crate::explanation::Seen;
use crate::kept_files::{KeptFile, kept_bytes};
use crate::lines::{numbered_line, without_return};
use crate::page::{Page, Piece};
use crate::told::Told;

// A row of a table: the name of a file, and the digits of the number of a line there.
#[derive(Clone, Copy)]
struct Row<'a> {
    file: &'a [u8],
    line: &'a [u8],
}

// What a table says of a line.
#[derive(Clone, Copy)]
enum Origin<'a> {
    // The table can't be read.
    Unread,
    // The file is no table of lines.
    NoTable,
    // It is the table of a text with `count` lines, and of no other.
    Other { count: usize },
    // The row of the line.
    From(Row<'a>),
}

// What a line of a table says, if it is a row: the name of a file, a blank, and a number that counts from 1.
fn row_of(line: &[u8]) -> Option<Row<'_>> {
    let mut blank = None;
    for (at, byte) in line.iter().enumerate() {
        if *byte == b' ' {
            blank = Some(at);
        }
    }
    let (file, after) = line.split_at(blank?.min(line.len()));
    match after {
        [_, b'0', ..] | [_] | [] => None,
        [_, number @ ..] if !file.is_empty() && number.iter().all(u8::is_ascii_digit) => {
            Some(Row { file, line: number })
        }
        _ => None,
    }
}

// How many rows a table has; nothing where one of its lines is no row, or the last has no end.
fn count_rows(table: &[u8]) -> Option<usize> {
    let mut count = 0_usize;
    let mut start = 0_usize;
    for (at, byte) in table.iter().enumerate() {
        if *byte == b'\n' {
            row_of(without_return(table.get(start..at).unwrap_or(&[])))?;
            start = at.saturating_add(1);
            count = count.saturating_add(1);
        }
    }
    if start == table.len() {
        Some(count)
    } else {
        None
    }
}

// How many lines a text has, without the last if that is empty.
fn count_lines(text: &[u8]) -> usize {
    let mut count = 0_usize;
    for byte in text {
        if *byte == b'\n' {
            count = count.saturating_add(1);
        }
    }
    match text {
        [] | [.., b'\n'] => count,
        _ => count.saturating_add(1),
    }
}

// What the table of a name says of the line of a fault in a text.
fn origin_by<'f>(files: &'f [KeptFile], name: &str, told: Told, text: &[u8]) -> Origin<'f> {
    let Some(table) = kept_bytes(files, name) else {
        return Origin::Unread;
    };
    match (count_rows(table), row_of(numbered_line(table, told.line))) {
        (Some(count), _) if count != count_lines(text) => Origin::Other { count },
        (Some(_), Some(row)) => Origin::From(row),
        _ => Origin::NoTable,
    }
}

// Whether one of these tables has a row for the line of a fault.
fn is_any_from(files: &[KeptFile], names: &[&str], told: Told, text: &[u8]) -> bool {
    for name in names {
        if let Origin::From(_) = origin_by(files, name, told, text) {
            return true;
        }
    }
    false
}

// Adds what the table of a name says of the line of a fault.
fn add_origin<'x>(page: &mut Page, name: &'x str, origin: Origin<'x>, told: Told<'x>, text: &[u8]) {
    let name = Piece::Shown(name.as_bytes());
    match origin {
        Origin::Unread => page.sentence(&[name, Piece::Text(" can't be read")]),
        Origin::NoTable => page.sentence(&[name, Piece::Text(" is no table of lines")]),
        Origin::Other { count } => page.sentence(&[
            name,
            Piece::Text(" is not the table of "),
            Piece::Shown(told.place.as_bytes()),
            Piece::Text(": it ends with line "),
            Piece::Number(count.min(4_294_967_295) as u32),
            Piece::Text(", and the file with line "),
            Piece::Number(count_lines(text).min(4_294_967_295) as u32),
        ]),
        Origin::From(row) => page.sentence(&[
            Piece::Text("From "),
            Piece::Shown(row.file),
            Piece::Text(" line "),
            Piece::Shown(row.line),
            Piece::Text(", by "),
            name,
        ]),
    }
}

/// Adds where the line of a fault in a text comes from, by each table that has as many lines as the text. Also says which
/// files can't be read, and which are no tables. If no table has as many lines as the text, that is said too.
pub(crate) fn add_origins(page: &mut Page, seen: &Seen, told: Told, text: &[u8]) {
    let is_any = is_any_from(seen.files, seen.tables, told, text);
    for name in seen.tables {
        match origin_by(seen.files, name, told, text) {
            Origin::Other { .. } if is_any => {}
            origin => add_origin(page, name, origin, told, text),
        }
    }
}
