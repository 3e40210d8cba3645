//! Objects read from a reader, walked over, and loaded into a memory and run there, and pieces read from Intel HEX.

ghost use Rattle.mem80.specs.Pieces.{AreWritable};

use crate::events::{print_events, word_of};
use crate::page::Page;
use crate::readers::BrokenReader;
use cpu8080::Machine;
use hex80::{read_hex, write_hex};
use host::Failure;
use locate::{Plan, locate};
use mem80::{Memory, Piece};
use objmod::{ObjectModule, Segment, read, read_from, walk};
use ports::Script;
use std::alloc::Global;
use std::io::Read;

/// The object A of `docs/formats.md`: CALL S and HLT, where S is an external name.
pub const CALLING: [u8; 51] = [
    0x02, 0x09, 0x00, 0x01, 0x41, 0x00, 0x00, 0x01, 0x04, 0x00, 0x03, 0xAB, 0x18, 0x04, 0x00, 0x01,
    0x53, 0x00, 0x90, 0x06, 0x08, 0x00, 0x01, 0x00, 0x00, 0xCD, 0x00, 0x00, 0x76, 0xAE, 0x20, 0x06,
    0x00, 0x03, 0x00, 0x00, 0x01, 0x00, 0xD6, 0x04, 0x05, 0x00, 0x01, 0x01, 0x00, 0x00, 0xF5, 0x0E,
    0x01, 0x00, 0xF1,
];

/// The same object merged with B, which has S as a public name.
pub const MERGED: [u8; 57] = [
    0x02, 0x09, 0x00, 0x01, 0x41, 0x00, 0x00, 0x01, 0x09, 0x00, 0x03, 0xA6, 0x16, 0x07, 0x00, 0x01,
    0x04, 0x00, 0x01, 0x53, 0x00, 0x8A, 0x06, 0x0D, 0x00, 0x01, 0x00, 0x00, 0xCD, 0x04, 0x00, 0x76,
    0x3E, 0x08, 0xD3, 0x04, 0xC9, 0xBF, 0x22, 0x04, 0x00, 0x03, 0x01, 0x00, 0xD6, 0x04, 0x05, 0x00,
    0x01, 0x01, 0x00, 0x00, 0xF5, 0x0E, 0x01, 0x00, 0xF1,
];

// MVI A,low of S; OUT 0; MVI A,high of S; OUT 0; HLT, merged with a module aligned at a page, whose first byte is S.
const HALVES_MERGED: [u8; 72] = [
    0x02, 0x09, 0x00, 0x01, 0x43, 0x00, 0x00, 0x01, 0x01, 0x01, 0x01, 0xAD, 0x16, 0x07, 0x00, 0x01,
    0x00, 0x01, 0x01, 0x53, 0x00, 0x8D, 0x06, 0x0D, 0x00, 0x01, 0x00, 0x00, 0x3E, 0x00, 0xD3, 0x00,
    0x3E, 0x01, 0xD3, 0x00, 0x76, 0x53, 0x22, 0x04, 0x00, 0x01, 0x01, 0x00, 0xD8, 0x22, 0x04, 0x00,
    0x02, 0x05, 0x00, 0xD3, 0x06, 0x05, 0x00, 0x01, 0x00, 0x01, 0xC9, 0x2A, 0x04, 0x05, 0x00, 0x01,
    0x01, 0x00, 0x00, 0xF5, 0x0E, 0x01, 0x00, 0xF1,
];

// A text, and what is said of it.
struct Row {
    what: &'static str,
    text: &'static str,
}

// Texts of Intel HEX; the first two are the bytes of the merge at 100H.
const TEXTS: [Row; 8] = [
    Row {
        what: "as it is written",
        text: ":09010000CD0401763E08D304C9C8\n:00000001FF\n",
    },
    Row {
        what: "carriage returns, and no end of the last line",
        text: ":09010000CD0401763E08D304C9C8\r\n:00000001FF",
    },
    Row {
        what: "a later address first",
        text: ":0102000055A8\n:09010000CD0401763E08D304C9C8\n:00000001FF\n",
    },
    Row {
        what: "lower case",
        text: ":09010000cd0401763e08d304c9c8\n:00000001FF\n",
    },
    Row {
        what: "a line after the end line",
        text: ":00000001FF\n:09010000CD0401763E08D304C9C8\n",
    },
    Row {
        what: "another sum",
        text: ":09010000CD0401763E08D304C9C9\n:00000001FF\n",
    },
    Row {
        what: "no end line",
        text: ":09010000CD0401763E08D304C9C8\n",
    },
    Row {
        what: "a line twice",
        text: ":09010000CD0401763E08D304C9C8\n:09010000CD0401763E08D304C9C8\n:00000001FF\n",
    },
];

// Prints the lengths of an object, and where it starts.
fn print_lengths(page: &mut Page, object: &ObjectModule) {
    page.number("code ", u64::from(object.length(Segment::Code)));
    page.number(", data ", u64::from(object.length(Segment::Data)));
    page.number(", stack ", u64::from(object.length(Segment::Stack)));
    page.text("\n");
    if let Some(start) = object.start() {
        page.word("start ", start);
        page.text("\n");
    }
}

// Prints an object with one external name, and one run and one fix in its code.
fn print_object(page: &mut Page, object: &ObjectModule) {
    print_lengths(page, object);
    if let [name] = object.externals() {
        page.text("external ");
        page.value(name);
        page.text("\n");
    }
    if let [run] = object.runs(Segment::Code) {
        page.word("", run.offset());
        page.text(":");
        page.bytes(run.bytes());
        page.text("\n");
    }
    if let [fix] = object.fixes(Segment::Code) {
        page.word("fixed at ", fix.offset);
        page.text("\n");
    }
}

// Prints what a reader gives.
fn print_read<R: Read>(page: &mut Page, from: &mut R) {
    match read_from(page.alloc(), from) {
        Ok(object) => print_object(page, &object),
        Err(Failure::Fault(fault)) => page.line("", fault.number()),
        Err(Failure::Memory) => page.line("", "MEMORY"),
    }
}

// An object, one that is cut off, and one whose reader fails.
fn print_readers(page: &mut Page) {
    let mut whole = CALLING.as_slice();
    print_read(page, &mut whole);
    let mut shorter = &CALLING[..50];
    print_read(page, &mut shorter);
    let mut broken = BrokenReader {
        bytes: &CALLING[..12],
    };
    print_read(page, &mut broken);
}

// Prints the parts of an object that is walked over, an external name, a content, and a fix of it, and that there are no more.
fn print_walk(page: &mut Page) {
    let Ok(mut walk) = walk(page.alloc(), &CALLING) else {
        return page.note(false);
    };
    for _ in 0..2 {
        page.text("walk:");
        if let Some(name) = walk.next_external() {
            page.text(" external ");
            page.text(std::str::from_utf8(name).unwrap_or(""));
        }
        if let Some(content) = walk.next_content() {
            page.word(" content at ", content.offset);
            page.number(" of ", content.bytes.len() as u64);
        }
        if let Some(fix) = walk.next_fix() {
            page.word(" fix at ", fix.offset);
        }
        page.text("\n");
    }
}

// Places an object as usual, and loads it over other bytes.
fn loaded(alloc: Global, bytes: &[u8]) -> Option<Memory> {
    let object = read(alloc, bytes).ok()?;
    let absolute = locate(alloc, &object, &Plan::usual()).ok()?;
    let mut memory = Memory::new(alloc).ok()?;
    for address in 0xFF..0x10A_u16 {
        memory.set(address, 0x11);
    }
    absolute.load(&mut memory);
    Some(memory)
}

// Prints the bytes from 0FFH to 109H of an object that is loaded, how its run from 100H on ends, and its events.
fn print_loaded(page: &mut Page, bytes: &[u8]) {
    let Some(memory) = loaded(page.alloc(), bytes) else {
        return page.note(false);
    };
    page.text("loaded:");
    for address in 0xFF..0x10A_u16 {
        page.byte(" ", memory.get(address));
    }
    let mut machine = Machine::new(memory, Script::new(page.alloc()), 0x100);
    let end = word_of(machine.run(100));
    page.line("\nrun: ", end);
    print_events(page, machine.ports().events());
}

// Prints the text that is written for the pieces of another.
fn print_text(page: &mut Page, pieces: &[Piece])
    requires { AreWritable pieces.now }
{
    let mut text: Vec<u8> = Vec::new(page.alloc());
    let is_written = write_hex(page.alloc(), pieces, &mut text).is_ok();
    page.note(is_written);
    match std::str::from_utf8(text.as_slice()) {
        Ok(text) => page.text(text),
        Err(_) => page.note(false),
    }
}

// Prints pieces of memory.
fn print_pieces(page: &mut Page, pieces: &[Piece]) {
    for piece in pieces {
        page.word("", piece.start);
        page.text(":");
        page.bytes(piece.bytes.as_slice());
        page.text("\n");
    }
}

// Prints the pieces of a text and what is written for them, or its fault.
fn print_row(page: &mut Page, row: &Row) {
    page.text(row.what);
    page.text(": ");
    match read_hex(page.alloc(), row.text.as_bytes()) {
        Ok(pieces) => {
            print_pieces(page, pieces.as_slice());
            print_text(page, pieces.as_slice());
        }
        Err(Failure::Fault(fault)) => page.line("", fault.number()),
        Err(Failure::Memory) => page.line("", "MEMORY"),
    }
}

/// Prints objects that are read, walked over, loaded and run, and the pieces of texts.
pub fn print_objects(page: &mut Page) {
    print_readers(page);
    print_walk(page);
    print_loaded(page, &MERGED);
    print_loaded(page, &HALVES_MERGED);
    for row in &TEXTS {
        print_row(page, row);
    }
}
