//! Calls of a routine on the machine, whose steps are counted.

use crate::arguments::Arguments;
use crate::page::Page;
use crate::runs::put_bytes;
use asm8080::CodeBytes;
use cpu8080::Machine;
use mem80::{Memory, Memory80Fault};
use ports::Script;
use runtime8080::Routine;
use std::alloc::Global;

// Where the program stands that calls the routine, the routine, and the arguments of all calls, six bytes each.
const DRIVER: u16 = 0x800;

const ROUTINE: u16 = 0x840;

const TABLE: u16 = 0x900;

// LXI SP,900H; POP D; POP H; POP PSW; CALL 840H; JMP 803H.
const CALLS: [u8; 12] = [
    0x31, 0x00, 0x09, 0xD1, 0xE1, 0xF1, 0xCD, 0x40, 0x08, 0xC3, 0x03, 0x08,
];

// The same with POP B.
const MOVES: [u8; 12] = [
    0x31, 0x00, 0x09, 0xD1, 0xE1, 0xC1, 0xCD, 0x40, 0x08, 0xC3, 0x03, 0x08,
];

// Where the machine is after a call.
const AFTER: u16 = 0x809;

// No routine takes as many steps.
const TOO_MANY: u64 = 10_000;

/// The steps of some calls, each with its CALL and its return.
#[derive(Drop)]
pub struct Tally {
    /// How many calls there were.
    pub calls: u64,
    /// The least steps of one.
    pub least: u64,
    /// The greatest steps of one.
    pub greatest: u64,
    /// The steps of all.
    pub total: u64,
}

// Puts words at an address, one after another.
fn put_words(memory: &mut Memory, start: u16, words: &[u16]) {
    let mut address = start;
    for word in words {
        put_bytes(memory, address, &word.to_le_bytes());
        address = address.wrapping_add(2);
    }
}

// Puts code at its place, and adds the place to each word that is fixed.
fn put_code(memory: &mut Memory, code: &CodeBytes) {
    put_bytes(memory, ROUTINE, code.bytes());
    for fix in code.fixes() {
        let place = ROUTINE.wrapping_add(fix.offset);
        let low = memory.get(place);
        let high = memory.get(place.wrapping_add(1));
        let word = u16::from_le_bytes([low, high]).wrapping_add(ROUTINE);
        put_words(memory, place, &[word]);
    }
}

// A memory with all that calls need.
fn memory_of(
    alloc: Global,
    code: &CodeBytes,
    arguments: &mut Arguments,
) -> Result<Memory, Memory80Fault> {
    let mut memory = Memory::new(alloc)?;
    let driver = if arguments.routine == Routine::Move {
        &MOVES
    } else {
        &CALLS
    };
    put_bytes(&mut memory, DRIVER, driver);
    put_code(&mut memory, code);
    let mut place = TABLE;
    for _ in 0..arguments.count {
        put_words(&mut memory, place, &arguments.next_words());
        place = place.wrapping_add(6);
    }
    Ok(memory)
}

// Carries out the next call, and answers its steps.
fn steps_of_call(machine: &mut Machine<Script>) -> u64 {
    machine.run(3);
    for steps in 0..TOO_MANY {
        if machine.registers().pc == AFTER {
            machine.run(1);
            return steps;
        }
        machine.step();
    }
    TOO_MANY
}

/// The steps of the calls of a routine with some arguments.
pub fn tally_of(page: &mut Page, code: &CodeBytes, arguments: &mut Arguments) -> Tally {
    let mut tally = Tally {
        calls: 0,
        least: TOO_MANY,
        greatest: 0,
        total: 0,
    };
    let Ok(memory) = memory_of(page.alloc(), code, arguments) else {
        page.note(false);
        return tally;
    };
    let mut machine = Machine::new(memory, Script::new(page.alloc()), DRIVER);
    machine.run(1);
    for _ in 0..arguments.count {
        let steps = steps_of_call(&mut machine);
        tally.calls = tally.calls.saturating_add(1);
        tally.least = tally.least.min(steps);
        tally.greatest = tally.greatest.max(steps);
        tally.total = tally.total.saturating_add(steps);
    }
    tally
}
