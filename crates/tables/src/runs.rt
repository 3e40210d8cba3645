//! Programs on the machine: how they end, where, and what they did at the ports.

use crate::events::{print_events, word_of, word_of_step};
use crate::faulty::FaultyPorts;
use crate::page::Page;
use cpu8080::{DecodeTable, Machine};
use isa8080::{Registers, decode};
use mem80::{Memory, Memory80Fault};
use ports::Script;
use std::alloc::Global;

/// Puts bytes into memory, from an address on.
pub fn put_bytes(memory: &mut Memory, start: u16, bytes: &[u8]) {
    let mut address = start;
    for byte in bytes {
        memory.set(address, *byte);
        address = address.wrapping_add(1);
    }
}

/// A machine that starts at an address, where these bytes stand, over ports of a script with no inputs. It may know what it decoded by a
/// table.
pub fn machine_with(
    alloc: Global,
    start: u16,
    bytes: &[u8],
    has_table: bool,
) -> Result<Machine<Script>, Memory80Fault> {
    let mut memory = Memory::new(alloc)?;
    put_bytes(&mut memory, start, bytes);
    if has_table {
        let table = DecodeTable::new(alloc)?;
        Ok(Machine::with_table(memory, Script::new(alloc), start, table))
    } else {
        Ok(Machine::new(memory, Script::new(alloc), start))
    }
}

// What is done with a machine: a number of steps are run, or one is carried out.
enum Move {
    Run(u64),
    Step,
}

// A program that starts at an address, where its bytes stand, what is done with a machine that has it, and the address of a byte that is
// printed after that.
#[derive(Drop)]
struct Row<'a> {
    start: u16,
    bytes: &'a [u8],
    moves: &'a [Move],
    address: u16,
}

// MVI A,1; OUT 0; LXI H,101H; INR M; MOV A,M; CPI 3; JNZ 100H; HLT: it changes its own first instruction.
const CHANGES_ITSELF: [u8; 16] = [
    0x3E, 0x01, 0xD3, 0x00, 0x21, 0x01, 0x01, 0x34, 0x7E, 0xFE, 0x03, 0xC2, 0x00, 0x01, 0x76, 0x00,
];

// MVI A,1; LXI H,0; MVI M,2; JMP FFFFH: from the last address on, so that the first one has what A is given, which the program changes.
const FROM_THE_LAST: [u8; 10] = [0x3E, 0x01, 0x21, 0x00, 0x00, 0x36, 0x02, 0xC3, 0xFF, 0xFF];

// LHLD 120H; INX H; SHLD 130H; LXI H,103H; MVI M,2BH; JMP 100H: it makes the INX a DCX, in the middle of three instructions
// that a table knows as one line.
const CHANGES_A_LINE: [u8; 15] = [
    0x2A, 0x20, 0x01, 0x23, 0x22, 0x30, 0x01, 0x21, 0x03, 0x01, 0x36, 0x2B, 0xC3, 0x00, 0x01,
];

// The same line, which goes on at the first address.
const LINE_PAST_THE_END: [u8; 7] = [0x2A, 0x20, 0x01, 0x23, 0x22, 0x30, 0x01];

// The first program, whose 15 steps are carried out at once, and then some after others; an instruction that stands at the last address and
// goes on at the first one, before and after that one was written to; a line before and after it was changed; and one past the end.
static ROWS: [Row<'static>; 5] = [
    Row {
        start: 0x100,
        bytes: &CHANGES_ITSELF,
        moves: &[Move::Run(15)],
        address: 0x101,
    },
    Row {
        start: 0x100,
        bytes: &CHANGES_ITSELF,
        moves: &[
            Move::Run(0),
            Move::Run(14),
            Move::Step,
            Move::Step,
            Move::Run(1),
        ],
        address: 0x101,
    },
    Row {
        start: 0xFFFF,
        bytes: &FROM_THE_LAST,
        moves: &[Move::Step, Move::Run(3), Move::Step],
        address: 0,
    },
    Row {
        start: 0x100,
        bytes: &CHANGES_A_LINE,
        moves: &[Move::Run(7), Move::Run(2)],
        address: 0x130,
    },
    Row {
        start: 0xFFFB,
        bytes: &LINE_PAST_THE_END,
        moves: &[Move::Run(7), Move::Run(2)],
        address: 0x130,
    },
];

// Prints words, and the registers that tell where a machine is.
fn print_state(page: &mut Page, words: &str, registers: Registers) {
    let Registers { a, sp, pc, .. } = registers;
    page.text(words);
    page.byte(": A=", a);
    page.word(" SP=", sp);
    page.word(" PC=", pc);
    page.text("\n");
}

// Does something with a machine after another, and prints where it is after each.
fn print_moves(page: &mut Page, machine: &mut Machine<Script>, moves: &[Move]) {
    for one in moves {
        let word = match one {
            Move::Run(limit) => word_of(machine.run(*limit)),
            Move::Step => word_of_step(machine.step()),
        };
        print_state(page, word, machine.registers());
    }
}

// Prints what a machine does, with a table or without, and what it leaves.
fn print_machine(page: &mut Page, row: &Row, has_table: bool) {
    match machine_with(page.alloc(), row.start, row.bytes, has_table) {
        Ok(mut machine) => {
            print_moves(page, &mut machine, row.moves);
            print_events(page, machine.ports().events());
            page.word("", row.address);
            page.byte(": ", machine.memory().get(row.address));
            page.text("\n");
        }
        Err(_) => page.note(false),
    }
}

// Codes that are none of the 8080's stop the machine and change nothing.
fn print_undocumented(page: &mut Page) {
    for code in 0..=255_u8 {
        if decode([code, 0, 0]).is_none() {
            let row = Row {
                start: 0x100,
                bytes: &[code],
                moves: &[Move::Run(9), Move::Step],
                address: 0x100,
            };
            print_machine(page, &row, false);
            print_machine(page, &row, true);
        }
    }
}

// IN 1; MOV B,A; IN 1; MOV C,A; MOV A,B; SUB C; OUT 5; HLT.
const READS_TWICE: [u8; 11] = [
    0xDB, 0x01, 0x47, 0xDB, 0x01, 0x4F, 0x78, 0x91, 0xD3, 0x05, 0x76,
];

// Prints how this program ends on ports whose second read fails, and what the same machine does once its ports work again.
fn print_port_fault(page: &mut Page) {
    let Ok(mut memory) = Memory::new(page.alloc()) else {
        return page.note(false);
    };
    put_bytes(&mut memory, 0x100, &READS_TWICE);
    let ports = FaultyPorts::with_two_inputs(page.alloc());
    let mut machine = Machine::new(memory, ports, 0x100);
    for _ in 0..2 {
        let end = machine.run(100);
        print_state(page, word_of(end), machine.registers());
        print_events(page, machine.ports().script.events());
        page.number("failures: ", machine.ports().failed);
        page.text("\n");
    }
}

/// Prints what some programs do.
pub fn print_runs(page: &mut Page) {
    for row in &ROWS {
        print_machine(page, row, false);
        print_machine(page, row, true);
    }
    print_port_fault(page);
    print_undocumented(page);
}
