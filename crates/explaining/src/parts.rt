//! The parts of a program in memory, and how they are told.

use crate::page::{Page, Piece};
use object_commands::MEMORY_SIZE;

/// A part of a program: its name, with a word before it or none, the first of its addresses, and the one after its last.
#[derive(Clone, Copy)]
pub(crate) struct Part<'n> {
    pub(crate) before: &'static str,
    pub(crate) name: &'n str,
    pub(crate) start: u32,
    pub(crate) end: u32,
}

/// Adds a line for each part that has addresses, with how many they are.
pub(crate) fn add_lines(page: &mut Page, parts: &[Part]) {
    for part in parts {
        let size = part.end.saturating_sub(part.start);
        if size > 0 {
            page.line(&[
                Piece::Addresses {
                    start: part.start,
                    end: part.end,
                },
                Piece::Text(" "),
                Piece::Text(part.before),
                Piece::Text(part.name),
                Piece::Text(", "),
                Piece::Number(size),
                Piece::Text(if size == 1 { " byte" } else { " bytes" }),
            ]);
        }
    }
}

/// Adds which parts pass the end of memory.
pub(crate) fn add_passing(page: &mut Page, parts: &[Part]) {
    for part in parts {
        if part.end > MEMORY_SIZE as u32 {
            page.sentence(&[
                Piece::Text("The "),
                Piece::Text(part.before),
                Piece::Text(part.name),
                Piece::Text(" passes FFFF"),
            ]);
        }
    }
}

/// Adds which of others a part meets, and at which addresses.
pub(crate) fn add_meetings_of<'x>(page: &mut Page, part: Part<'x>, others: &'x [Part<'x>]) {
    for other in others {
        let start = part.start.max(other.start);
        let end = part.end.min(other.end);
        if start < end {
            page.sentence(&[
                Piece::Text("The "),
                Piece::Text(part.before),
                Piece::Text(part.name),
                Piece::Text(" and the "),
                Piece::Text(other.before),
                Piece::Text(other.name),
                Piece::Text(" meet at "),
                Piece::Addresses { start, end },
            ]);
        }
    }
}

/// Adds which parts meet, and where.
pub(crate) fn add_meetings<'x>(page: &mut Page, parts: &'x [Part<'x>]) {
    let mut rest = parts;
    while let [part, more @ ..] = rest {
        add_meetings_of(page, *part, more);
        rest = more;
    }
}
