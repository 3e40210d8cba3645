//! Instructions named by what they do, and the halves of a word.

ghost use Rattle.std.specs.Prelude.{◌≡◌, OnOk};
ghost use Rattle.steps8080.specs.internal.Instructions.{clear_a, copy, high, load, low, set, with_memory, with_register};
ghost use Rattle.steps8080.specs.internal.Step.{Adds, extension_steps, repeat_steps};

use crate::step::Steps;
use isa8080::{Instr, Operand, Operation, Register};
use std::alloc::AllocError;

/// Copies a register into another one.
pub fn copy(to: Register, from: Register) -> Instr
    ensures { result ≡ copy to from }
{
    Instr::Mov(to, Operand::Of(from))
}

/// Loads a register from the byte at the address in HL.
pub fn load(to: Register) -> Instr
    ensures { result ≡ load to }
{
    Instr::Mov(to, Operand::M)
}

/// Sets a register to a number.
pub fn set(register: Register, number: u8) -> Instr
    ensures { result ≡ set register number }
{
    Instr::Mvi(Operand::Of(register), number)
}

/// An operation on A with a register.
pub fn with_register(operation: Operation, register: Register) -> Instr
    ensures { result ≡ with_register operation register }
{
    Instr::Accumulate(operation, Operand::Of(register))
}

/// An operation on A with the byte at the address in HL.
pub fn with_memory(operation: Operation) -> Instr
    ensures { result ≡ with_memory operation }
{
    Instr::Accumulate(operation, Operand::M)
}

/// Sets A to 0.
pub fn clear_a() -> Instr
    ensures { result ≡ clear_a }
{
    with_register(Operation::ExclusiveOr, Register::A)
}

/// The low byte of a word.
pub fn low(word: u16) -> u8
    ensures { result ≡ low word }
{
    (word % 256) as u8
}

/// The high byte of a word.
pub fn high(word: u16) -> u8
    ensures { result ≡ high word }
{
    (word / 256) as u8
}

/// Adds an instruction `count` times.
pub fn repeat(instruction: Instr, count: u16, steps: &mut Steps) -> Result<(), AllocError>
    ensures { OnOk result (Adds steps.old steps.new (repeat_steps instruction count)) }
{
    for _ in 0..count {
        steps.plain(instruction)?;
    }
    Ok(())
}

/// Puts the byte in A into HL, zero-extended.
pub fn plan_extension(steps: &mut Steps) -> Result<(), AllocError>
    ensures { OnOk result (Adds steps.old steps.new extension_steps) }
{
    steps.plain(copy(Register::L, Register::A))?;
    steps.plain(set(Register::H, 0))
}
