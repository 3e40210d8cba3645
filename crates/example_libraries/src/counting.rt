//! An 8080 with devices of one's own: a program that counts is put in memory and run, and what it printed is shown.

ghost use Rattle.std.specs.Prelude.{◌+◌, ◌*◌, ◌<◌, length};
ghost use Rattle.mem80.specs.declared.memory.TheConstants.{MEMORY_SIZE};

use crate::devices::{COUNTER, Devices, PRINTER};
use anyhow::Result;
use cpu8080::{End, Machine};
use isa8080::{Condition, Instr, Operation, encode};
use mem80::Memory;

// Where the program starts, and where it halts.
const START: u16 = 0x100;

const HALT: u16 = 0x10E;

// Prints the counter's values as digits, until it gives 10.
const PROGRAM: [Instr; 7] = [
    Instr::In(COUNTER),
    Instr::AccumulateImmediate(Operation::Compare, 10),
    Instr::JumpIf(Condition::Zero, HALT),
    Instr::AccumulateImmediate(Operation::Add, b'0'),
    Instr::Out(PRINTER),
    Instr::Jmp(START),
    Instr::Hlt,
];

// Puts a program into memory, one instruction after another.
fn put_program(memory: &mut Memory, start: u16, program: &[Instr])
    requires { start + 3 * length program.now < MEMORY_SIZE }
{
    let mut address = start;
    for instr in program {
        let (bytes, size) = encode(*instr);
        memory.load(address, &bytes);
        address += size as u16;
    }
}

// How a run ended, in a word.
fn word_of(end: End) -> &'static str {
    match end {
        End::Halted => "halted",
        End::Illegal => "stopped at an illegal code",
        End::PortFault => "stopped at a port that failed",
        End::Limit => "still running",
    }
}

// Prints what the printer printed, how much happened at the ports, and how the run ended.
fn print_end(rt: &HostRuntime, devices: &Devices, end: End) -> Result<()> {
    println!(rt; "printed: {}", devices.paper())?;
    println!(rt; "events: {}", devices.log().len())?;
    println!(rt; "the machine has {}", word_of(end))?;
    Ok(())
}

/// Runs the program, and prints what it printed.
pub fn print_count(rt: &HostRuntime) -> Result<()> {
    let mut memory = Memory::new(rt.alloc())?;
    put_program(&mut memory, START, &PROGRAM);
    let mut machine = Machine::new(memory, Devices::new(rt.alloc()), START);
    let end = machine.run(1000);
    print_end(rt, machine.ports(), end)
}
