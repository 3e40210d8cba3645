//! A program that is executed over ports and from a memory of one's own, and whether it may run where its variable is placed.

use crate::events::{print_events, word_of};
use crate::faulty::FaultyPorts;
use crate::page::Page;
use cpu8080::DecodeTable;
use mem80::{Memory, Memory80Fault, Range};
use placing::{ModulePlacement, Placement, lawful};
use ports::Script;
use std::alloc::{AllocError, Global};
use tool::{Built, Plan, Source, build, execute, execute_with};

// Sends a byte that was there before, and the difference of two that come in.
const SOURCE: Source<'static> = Source {
    name: "a.plm",
    text: b"M: DO; DECLARE A BYTE; OUTPUT(0) = A; OUTPUT(5) = INPUT(1) - INPUT(1); END M;",
};

// More steps than the program takes.
const LIMIT: u64 = 1000;

// A memory in which the variable has a value.
fn memory_with_variable(alloc: Global) -> Result<Memory, Memory80Fault> {
    let mut memory = Memory::new(alloc)?;
    memory.set(0x4000, 0x4D);
    Ok(memory)
}

// What the program does from that memory, over a script whose port 1 gives 9 and then 4.
fn print_executed(page: &mut Page, built: &Built) {
    let mut script = Script::new(page.alloc());
    page.note(script.push_input(1, 9).is_ok());
    page.note(script.push_input(1, 4).is_ok());
    match memory_with_variable(page.alloc()) {
        Ok(memory) => {
            let (end, machine) = execute(built, memory, script, LIMIT);
            page.line("executed: ", word_of(end));
            print_events(page, machine.ports().events());
        }
        Err(_) => page.note(false),
    }
}

// What it does from that memory over the same bytes where the second read fails, on a machine with a table.
fn print_executed_with(page: &mut Page, built: &Built, table: DecodeTable) {
    let ports = FaultyPorts::with_two_inputs(page.alloc());
    match memory_with_variable(page.alloc()) {
        Ok(memory) => {
            let (end, machine) = execute_with(built, memory, ports, table, LIMIT);
            page.line("executed with a table: ", word_of(end));
            print_events(page, machine.ports().script.events());
            page.number("failures: ", machine.ports().failed);
            page.text("\n");
        }
        Err(_) => page.note(false),
    }
}

// The program with its variable at an address, its code from 0100H to 011FH, and its stack from F000H to F3FFH.
fn placed_at(alloc: Global, address: u16) -> Result<Placement, AllocError> {
    let module = ModulePlacement {
        objects: vec![in alloc; address]?,
        lists: Vec::new(alloc),
    };
    let code = Range {
        start: 0x100,
        len: 32,
    };
    let stack = Range {
        start: 0xF000,
        len: 1024,
    };
    let modules = vec![in alloc; module]?;
    Ok(Placement::new(modules, code, stack))
}

// Whether the program may run with its variable at an address.
fn print_lawful(page: &mut Page, built: &Built, address: u16) {
    match placed_at(page.alloc(), address) {
        Ok(placement) => {
            page.word("a variable at ", address);
            let is_lawful = lawful(built.program(), &placement);
            page.line(": ", if is_lawful { "lawful" } else { "not lawful" });
        }
        Err(_) => page.note(false),
    }
}

// Addresses before, in and after the code, and so of the stack.
const ADDRESSES: [u16; 8] = [
    0x00FF, 0x0100, 0x011F, 0x0120, 0xEFFF, 0xF000, 0xF3FF, 0xF400,
];

/// Prints what the program does, and where its variable may lie.
pub fn print_execution(page: &mut Page) {
    let Ok(built) = build(page.alloc(), &[SOURCE], &Plan::usual()) else {
        return page.note(false);
    };
    print_executed(page, &built);
    match DecodeTable::new(page.alloc()) {
        Ok(table) => print_executed_with(page, &built, table),
        Err(_) => page.note(false),
    }
    for address in ADDRESSES {
        print_lawful(page, &built, address);
    }
}
