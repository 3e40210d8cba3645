//! Prints the flags of the rows that the manual works out, and what DAA makes of every byte with every carry and auxiliary
//! carry.
//!
//! What it is to print was computed apart from this repository, by a script of forty lines that takes the
//! rules from the 8080 Assembly Language Programming Manual as they stand there: DAA in its two steps, with
//! the high digit judged after the low one was adjusted, where the definition judges both on the byte as it
//! was; the subtraction by a borrow from each digit, where the definition adds the complement; and parity by
//! counting the ones of the byte as text.

use crate::events::word_of;
use crate::page::Page;
use crate::runs::machine_with;
use isa8080::Registers;
use ports::Event;

// Where programs start.
const START: u16 = 0x100;

// LXI SP,F000H; LXI H,0: H is the byte to adjust, and L, which stands at FLAGS in the program, the flag byte before. At
// 106H: PUSH H; POP PSW; DAA; PUSH PSW; POP B; MOV A,B; OUT 0; MOV A,C; OUT 1; INR H; JNZ 106H; HLT.
const DAA: [u8; 23] = [
    0x31, 0x00, 0xF0, 0x21, 0x00, 0x00, 0xE5, 0xF1, 0x27, 0xF5, 0xC1, 0x78, 0xD3, 0x00, 0x79, 0xD3,
    0x01, 0x24, 0xC2, 0x06, 0x01, 0x76, 0x00,
];

// Where the flag byte stands in that program.
const FLAGS: usize = 4;

// A program of a few instructions that ends with HLT, and what it does.
struct Row {
    what: &'static str,
    bytes: [u8; 8],
}

// Rows of the manual: MVI A; what sets the operand and the carry; the operation; HLT.
const ROWS: [Row; 7] = [
    Row {
        what: "ADD D with A=6C, D=2E",
        bytes: [0x3E, 0x6C, 0x16, 0x2E, 0x82, 0x76, 0x00, 0x00],
    },
    Row {
        what: "ADC C with A=42, C=3D, CY=1",
        bytes: [0x3E, 0x42, 0x0E, 0x3D, 0x37, 0x89, 0x76, 0x00],
    },
    Row {
        what: "SUB A with A=3E",
        bytes: [0x3E, 0x3E, 0x97, 0x76, 0x00, 0x00, 0x00, 0x00],
    },
    Row {
        what: "SBB L with A=04, L=02, CY=1",
        bytes: [0x3E, 0x04, 0x2E, 0x02, 0x37, 0x9D, 0x76, 0x00],
    },
    Row {
        what: "CMP E with A=02, E=05",
        bytes: [0x3E, 0x02, 0x1E, 0x05, 0xBB, 0x76, 0x00, 0x00],
    },
    Row {
        what: "INR A with A=FF, CY=1",
        bytes: [0x3E, 0xFF, 0x37, 0x3C, 0x76, 0x00, 0x00, 0x00],
    },
    Row {
        what: "DAD H with HL=8000, Z=0",
        bytes: [0x21, 0x00, 0x80, 0x29, 0x76, 0x00, 0x00, 0x00],
    },
];

// Prints the bytes that were written, two a column and sixteen columns a line.
fn print_table(page: &mut Page, events: &[Event]) {
    for (place, event) in events.iter().enumerate() {
        page.byte("", event.value);
        if event.port == 1 {
            page.text(if place % 32 == 31 { "\n" } else { " " });
        }
    }
}

// Runs a row's program, and prints the registers that it set.
fn print_row(page: &mut Page, row: &Row) {
    match machine_with(page.alloc(), START, &row.bytes, false) {
        Ok(mut machine) => {
            let end = word_of(machine.run(10));
            let Registers { a, h, flags, .. } = machine.registers();
            page.text(row.what);
            page.byte(": A=", a);
            page.byte(" H=", h);
            page.byte(" flags=", flags.byte());
            page.line(", ", end);
        }
        Err(_) => page.note(false),
    }
}

// Runs DAA for every byte, with the carries of a flag byte, and prints the table.
fn print_flags(page: &mut Page, flags: u8) {
    let mut program = DAA;
    program[FLAGS] = flags;
    match machine_with(page.alloc(), START, &program, false) {
        Ok(mut machine) => {
            let end = word_of(machine.run(10_000));
            page.byte("DAA of 00 to FF, flags ", flags);
            page.line(" before: ", end);
            print_table(page, machine.ports().events());
        }
        Err(_) => page.note(false),
    }
}

/// Prints the rows, and then a table for each pair of carries.
pub fn print_adjusting(page: &mut Page) {
    for row in &ROWS {
        print_row(page, row);
    }
    for flags in [0x00, 0x01, 0x10, 0x11] {
        print_flags(page, flags);
    }
}
