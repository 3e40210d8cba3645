//! The document of the routines: their registers, what they take and their listings.

use crate::arguments::Arguments;
use crate::calls::{Tally, tally_of};
use crate::page::Page;
use asm8080::{Code, CodeBytes, Fault};
use host::{Failure, Files};
use isa8080::decode;
use runtime8080::{Routine, emit_routine};
use std::alloc::Global;

// A routine, and what is said of it.
struct Row {
    routine: Routine,
    name: &'static str,
    takes: &'static str,
    gives: &'static str,
    changes: &'static str,
    // How many steps a call takes at most, by the contract of `emit_routine`.
    promised: &'static str,
    // The random arguments.
    random: &'static str,
    // The bits of a random second argument that are not 0.
    mask: u16,
}

const ROWS: [Row; 9] = [
    Row {
        routine: Routine::Multiply,
        name: "Multiply",
        takes: "HL and DE",
        gives: "HL: HL times DE, modulo 65536",
        changes: "A, B, C, D, E, H, L and the flags",
        promised: "107",
        random: "words",
        mask: 0xFFFF,
    },
    Row {
        routine: Routine::Divide,
        name: "Divide",
        takes: "HL and DE",
        gives: "HL: HL divided by DE; DE: the remainder; where DE is 0 the call returns, with no promised values",
        changes: "A, B, C, D, E, H, L and the flags",
        promised: "156",
        random: "words",
        mask: 0xFFFF,
    },
    Row {
        routine: Routine::ShiftLeftByte,
        name: "Shift a BYTE to the left",
        takes: "A, and the count in E",
        gives: "A: A shifted by the count, zeros shifted in; 0 where the count is 8 or more",
        changes: "A, D, E and the flags",
        promised: "36",
        random: "counts to 15",
        mask: 0xF,
    },
    Row {
        routine: Routine::ShiftRightByte,
        name: "Shift a BYTE to the right",
        takes: "A, and the count in E",
        gives: "A: A shifted by the count, zeros shifted in; 0 where the count is 8 or more",
        changes: "A, D, E and the flags",
        promised: "43",
        random: "counts to 15",
        mask: 0xF,
    },
    Row {
        routine: Routine::ShiftLeftAddress,
        name: "Shift an ADDRESS to the left",
        takes: "HL, and the count in A",
        gives: "HL: HL shifted by the count, zeros shifted in; 0 where the count is 16 or more",
        changes: "A, E, H, L and the flags",
        promised: "6 + 4n for a count of n, and never over 66",
        random: "counts to 31",
        mask: 0x1F,
    },
    Row {
        routine: Routine::ShiftRightAddress,
        name: "Shift an ADDRESS to the right",
        takes: "HL, and the count in A",
        gives: "HL: HL shifted by the count, zeros shifted in; 0 where the count is 16 or more",
        changes: "A, H, L and the flags",
        promised: "8 + 4n for a count of n, and never over 38",
        random: "counts to 31",
        mask: 0x1F,
    },
    Row {
        routine: Routine::RotateLeft,
        name: "Rotate a BYTE to the left",
        takes: "A, and the count in E, modulo 8",
        gives: "A: A rotated",
        changes: "A, D, E and the flags",
        promised: "29",
        random: "counts to 255",
        mask: 0xFF,
    },
    Row {
        routine: Routine::RotateRight,
        name: "Rotate a BYTE to the right",
        takes: "A, and the count in E, modulo 8",
        gives: "A: A rotated",
        changes: "A, D, E and the flags",
        promised: "29",
        random: "counts to 255",
        mask: 0xFF,
    },
    Row {
        routine: Routine::Move,
        name: "Move",
        takes: "the count in BC, the source in DE and the destination in HL",
        gives: "nothing in registers; the bytes are copied from the first on, at addresses that go on from 65535 to 0; where the blocks overlap a byte may be copied again; a count of 0 copies nothing",
        changes: "A, B, C, D, E, H, L and the flags",
        promised: "8 + 7n for n bytes",
        random: "blocks of 0 to 63 bytes",
        mask: 0xFFFF,
    },
];

// The file that has the document.
const DOCUMENT: &str = "runtime.md";

const HEAD: &str = "\
# Routines

What the 8080 cannot do in one instruction, as code that a program calls. This document is made by the program
`tables` (`bench/runtime --document`); the merge gate compares it with its copy in `crates/tables/data`.

The code of a module has those that it calls at its end, each once (`docs/code.md`). Numbers are unsigned.
Each routine is called at its first byte. It pushes nothing: its stack is the return address alone, two bytes, and SP is
after the call what it was before. These two bytes lie outside the routine and, for Move, outside both blocks, and Move's
destination does not overlap the routine. Registers that are not named as changed stay as they were.

Steps are instructions executed, with the CALL and the return, and not clock states. What a routine gives and changes, and the
steps that are promised, are proved of every call (`Returns` in `crates/runtime8080/specs/internal/Routines.antt`). The other steps were
counted: of 400 calls with each pair of 20 words, the edges; of 10,000 calls with random arguments; and, by bytes, of 10,000
more whose DE is below 256. Addresses in the listings count from the first byte: where a routine lies elsewhere, its address is
added to the word of each jump.
";

// Prints a fact of a routine.
fn print_fact(page: &mut Page, name: &str, fact: &str) {
    page.text("- ");
    page.text(name);
    page.line(": ", fact);
}

// Prints a number of a routine, where its name has two parts.
fn print_number(page: &mut Page, name: &str, more: &str, number: u64) {
    page.text("- ");
    page.text(name);
    page.text(more);
    page.number(": ", number);
    page.text("\n");
}

// The code of a routine alone.
fn code_of(alloc: Global, routine: Routine) -> Result<CodeBytes, Failure<Fault>> {
    emit_routine(Code::new(alloc), routine)?.finish()
}

// The byte at an offset.
fn byte_at(bytes: &[u8], offset: usize) -> u8 {
    bytes.get(offset).copied().unwrap_or(0)
}

// Prints the instruction at an offset, and answers its length.
fn print_at(page: &mut Page, bytes: &[u8], offset: usize) -> usize {
    let second = byte_at(bytes, offset.saturating_add(1));
    let third = byte_at(bytes, offset.saturating_add(2));
    match decode([byte_at(bytes, offset), second, third]) {
        Some((instr, size)) => {
            page.word("    ", (offset % 65_536) as u16);
            page.text("  ");
            page.value(&instr);
            page.text("\n");
            size as usize
        }
        None => {
            page.note(false);
            1
        }
    }
}

// Prints the instructions.
fn print_listing(page: &mut Page, bytes: &[u8]) {
    let mut next = 0;
    for offset in 0..bytes.len() {
        if offset == next {
            next = offset.saturating_add(print_at(page, bytes, offset));
        }
    }
}

// Prints the steps of calls with random arguments, the mean with two digits after the point.
fn print_steps(page: &mut Page, more: &str, tally: &Tally) {
    let mean = tally.total / (tally.calls / 100).max(1);
    print_number(page, "Least steps", more, tally.least);
    page.text("- Mean steps");
    page.text(more);
    page.number(": ", mean / 100);
    page.number(".", mean / 10 % 10);
    page.number("", mean % 10);
    page.text("\n");
    print_number(page, "Greatest steps", more, tally.greatest);
}

// Prints the steps of calls: at the edges, with random arguments, and, where that matters, with random ones with a byte in DE.
fn print_tallies(page: &mut Page, row: &Row, code: &CodeBytes) {
    let edges = tally_of(
        page,
        code,
        &mut Arguments::new(row.routine, false, row.mask),
    );
    print_number(page, "Greatest steps at edges", "", edges.greatest);
    print_fact(page, "Random arguments", row.random);
    let random = tally_of(page, code, &mut Arguments::new(row.routine, true, row.mask));
    print_steps(page, "", &random);
    if row.routine == Routine::Multiply || row.routine == Routine::Divide {
        let narrow = tally_of(page, code, &mut Arguments::new(row.routine, true, 0xFF));
        print_steps(page, " by bytes", &narrow);
    }
}

// Prints what is said of a routine.
fn print_facts(page: &mut Page, row: &Row) {
    page.text("\n## ");
    page.text(row.name);
    page.text("\n\n");
    print_fact(page, "Takes", row.takes);
    print_fact(page, "Gives", row.gives);
    print_fact(page, "Changes", row.changes);
    print_fact(page, "Promised steps, at most", row.promised);
}

// Prints the section of a routine: what is said of it, and its code.
fn print_routine(page: &mut Page, row: &Row) {
    let Ok(code) = code_of(page.alloc(), row.routine) else {
        return page.note(false);
    };
    print_facts(page, row);
    print_number(page, "Bytes", "", code.bytes().len() as u64);
    print_tallies(page, row, &code);
    page.text("\n");
    print_listing(page, code.bytes());
}

/// Prints that the document is kept as a file, or else the document.
pub fn print_routines<F: Files>(files: &mut F, page: &mut Page) {
    let mut document = Page::new(page.alloc());
    document.text(HEAD);
    for row in &ROWS {
        print_routine(&mut document, row);
    }
    match files.read_file(DOCUMENT) {
        Ok(kept) if document.has(kept.as_slice()) => {
            page.text("the routines are as runtime.md has them\n");
        }
        _ => page.page(&document),
    }
}
