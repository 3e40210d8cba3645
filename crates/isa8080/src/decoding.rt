//! From bytes to the instruction that they begin with (8080 Assembly Language Programming Manual, appendix
//! "Instruction summary"). A code has three octal digits: the first gives one of four groups, the middle one,
//! here the row, is mostly that of a register, a pair or a condition, the last one the kind.
#![tactic(auto, using(crate::proofs::DecodingLemmas::reads))]

ghost use Rattle.std.specs.Prelude.{◌≡◌, ◌≢◌, ◌+◌, ◌*◌, ◌%◌, ◌<◌, ◌≤◌, ◌↔◌, IsNone, Contains, slice_index};
ghost use Rattle.isa8080.specs.State.{word};
ghost use Rattle.isa8080.specs.Code.{condition_code, first_instruction, operand_code, operation_code, pair_code, register_code, restart_number, stack_code, undocumented};
ghost use Rattle.isa8080.specs.internal.Reading.{Reads};

use crate::instr::{
    Condition, IndexPair, Instr, Operand, Operation, Pair, Register, Restart, StackPair,
};

/// The instruction that these bytes begin with, and its length. The bytes after it don't matter. `None` is
/// for a first byte that no instruction has.
#[tactic(auto, using(crate::proofs::DecodingLemmas::of_three_bytes))]
pub fn decode(bytes: [u8; 3]) -> Option<(Instr, u8)>
    ensures instruction { result ≡ first_instruction bytes }
    ensures none { IsNone result ↔ Contains undocumented (slice_index bytes 0) }
{
    let code = bytes[0];
    match code / 0x40 {
        0 => first_group(code, bytes[1], bytes[2]),
        1 => move_group(code, bytes[1], bytes[2]),
        2 => accumulate_group(code, bytes[1], bytes[2]),
        _ => last_group(code, bytes[1], bytes[2]),
    }
}

// The codes 00H to 3FH: loads, stores, counters and rotates.
fn first_group(code: u8, low: u8, high: u8) -> Option<(Instr, u8)>
    requires { code < 0x40 }
    ensures { Reads code low high result }
{
    let row = code / 8;
    let is_even = row % 2 == 0;
    match code % 8 {
        0 if row == 0 => Some((Instr::Nop, 1)),
        0 => None,
        1 if is_even => Some((Instr::Lxi(pair(row / 2), joined(low, high)), 3)),
        1 => Some((Instr::Dad(pair(row / 2)), 1)),
        2 => indirect(row, low, high),
        3 if is_even => Some((Instr::Inx(pair(row / 2)), 1)),
        3 => Some((Instr::Dcx(pair(row / 2)), 1)),
        4 => Some((Instr::Inr(operand(row)), 1)),
        5 => Some((Instr::Dcr(operand(row)), 1)),
        6 => Some((Instr::Mvi(operand(row), low), 2)),
        _ => accumulator_and_carry(row, low, high),
    }
}

// The codes of the first group whose last digit is 2: loads and stores.
fn indirect(row: u8, low: u8, high: u8) -> Option<(Instr, u8)>
    requires { row < 8 }
    ensures { Reads (8 * row + 2) low high result }
{
    let address = joined(low, high);
    match row {
        0 => Some((Instr::Stax(IndexPair::IndexBc), 1)),
        1 => Some((Instr::Ldax(IndexPair::IndexBc), 1)),
        2 => Some((Instr::Stax(IndexPair::IndexDe), 1)),
        3 => Some((Instr::Ldax(IndexPair::IndexDe), 1)),
        4 => Some((Instr::Shld(address), 3)),
        5 => Some((Instr::Lhld(address), 3)),
        6 => Some((Instr::Sta(address), 3)),
        _ => Some((Instr::Lda(address), 3)),
    }
}

// The codes of the first group whose last digit is 7: instructions on the accumulator or the carry alone.
fn accumulator_and_carry(row: u8, low: u8, high: u8) -> Option<(Instr, u8)>
    requires { row < 8 }
    ensures { Reads (8 * row + 7) low high result }
{
    match row {
        0 => Some((Instr::Rlc, 1)),
        1 => Some((Instr::Rrc, 1)),
        2 => Some((Instr::Ral, 1)),
        3 => Some((Instr::Rar, 1)),
        4 => Some((Instr::Daa, 1)),
        5 => Some((Instr::Cma, 1)),
        6 => Some((Instr::Stc, 1)),
        _ => Some((Instr::Cmc, 1)),
    }
}

// The codes 40H to 7FH: a move from the operand of the last digit to that of the row, and a halt if both
// are memory.
fn move_group(code: u8, low: u8, high: u8) -> Option<(Instr, u8)>
    requires from { 0x40 ≤ code }
    requires to { code < 0x80 }
    ensures { Reads code low high result }
{
    match (operand(code / 8 % 8), operand(code % 8)) {
        (Operand::Of(register), source) => Some((Instr::Mov(register, source), 1)),
        (Operand::M, Operand::Of(register)) => Some((Instr::MovToMemory(register), 1)),
        (Operand::M, Operand::M) => Some((Instr::Hlt, 1)),
    }
}

// The codes 80H to BFH: an operation with the accumulator.
fn accumulate_group(code: u8, low: u8, high: u8) -> Option<(Instr, u8)>
    requires from { 0x80 ≤ code }
    requires to { code < 0xC0 }
    ensures { Reads code low high result }
{
    let operation = operation(code / 8 % 8);
    Some((Instr::Accumulate(operation, operand(code % 8)), 1))
}

// The codes C0H to FFH: jumps, calls, returns, the stack, ports and operations with a byte.
fn last_group(code: u8, low: u8, high: u8) -> Option<(Instr, u8)>
    requires { 0xC0 ≤ code }
    ensures { Reads code low high result }
{
    let row = code / 8 % 8;
    let is_even = row % 2 == 0;
    match code % 8 {
        0 => Some((Instr::ReturnIf(condition(row)), 1)),
        1 if is_even => Some((Instr::Pop(stack_pair(row / 2)), 1)),
        1 => return_group(row, low, high),
        2 => Some((Instr::JumpIf(condition(row), joined(low, high)), 3)),
        3 => port_group(row, low, high),
        4 => Some((Instr::CallIf(condition(row), joined(low, high)), 3)),
        5 if is_even => Some((Instr::Push(stack_pair(row / 2)), 1)),
        5 if row == 1 => Some((Instr::Call(joined(low, high)), 3)),
        5 => None,
        6 => Some((Instr::AccumulateImmediate(operation(row), low), 2)),
        _ => Some((Instr::Rst(restart(row)), 1)),
    }
}

// The codes of the last group with a last digit of 1 and an odd row.
fn return_group(row: u8, low: u8, high: u8) -> Option<(Instr, u8)>
    requires odd { row % 2 ≡ 1 }
    requires small { row < 8 }
    ensures { Reads (0xC0 + 8 * row + 1) low high result }
{
    match row {
        1 => Some((Instr::Ret, 1)),
        3 => None,
        5 => Some((Instr::Pchl, 1)),
        _ => Some((Instr::Sphl, 1)),
    }
}

// The codes of the last group whose last digit is 3: JMP, ports, exchanges and interrupts.
fn port_group(row: u8, low: u8, high: u8) -> Option<(Instr, u8)>
    requires { row < 8 }
    ensures { Reads (0xC0 + 8 * row + 3) low high result }
{
    match row {
        0 => Some((Instr::Jmp(joined(low, high)), 3)),
        1 => None,
        2 => Some((Instr::Out(low), 2)),
        3 => Some((Instr::In(low), 2)),
        4 => Some((Instr::Xthl, 1)),
        5 => Some((Instr::Xchg, 1)),
        6 => Some((Instr::Di, 1)),
        _ => Some((Instr::Ei, 1)),
    }
}

// The 16-bit value with these bytes.
fn joined(low: u8, high: u8) -> u16
    ensures { result ≡ word high low }
{
    256 * high as u16 + low as u16
}

fn register(code: u8) -> Register
    requires below { code < 8 }
    requires other { code ≢ 6 }
    ensures { register_code result ≡ code }
{
    match code {
        0 => Register::B,
        1 => Register::C,
        2 => Register::D,
        3 => Register::E,
        4 => Register::H,
        5 => Register::L,
        _ => Register::A,
    }
}

fn operand(code: u8) -> Operand
    requires { code < 8 }
    ensures { operand_code result ≡ code }
{
    if code == 6 {
        Operand::M
    } else {
        Operand::Of(register(code))
    }
}

fn pair(code: u8) -> Pair
    requires { code < 4 }
    ensures { pair_code result ≡ code }
{
    match code {
        0 => Pair::Bc,
        1 => Pair::De,
        2 => Pair::Hl,
        _ => Pair::Sp,
    }
}

fn stack_pair(code: u8) -> StackPair
    requires { code < 4 }
    ensures { stack_code result ≡ code }
{
    match code {
        0 => StackPair::StackBc,
        1 => StackPair::StackDe,
        2 => StackPair::StackHl,
        _ => StackPair::Psw,
    }
}

fn condition(code: u8) -> Condition
    requires { code < 8 }
    ensures { condition_code result ≡ code }
{
    match code {
        0 => Condition::NotZero,
        1 => Condition::Zero,
        2 => Condition::NoCarry,
        3 => Condition::Carry,
        4 => Condition::ParityOdd,
        5 => Condition::ParityEven,
        6 => Condition::Plus,
        _ => Condition::Minus,
    }
}

fn operation(code: u8) -> Operation
    requires { code < 8 }
    ensures { operation_code result ≡ code }
{
    match code {
        0 => Operation::Add,
        1 => Operation::AddWithCarry,
        2 => Operation::Subtract,
        3 => Operation::SubtractWithBorrow,
        4 => Operation::And,
        5 => Operation::ExclusiveOr,
        6 => Operation::Or,
        _ => Operation::Compare,
    }
}

fn restart(number: u8) -> Restart
    requires { number < 8 }
    ensures { restart_number result ≡ number }
{
    match number {
        0 => Restart::N0,
        1 => Restart::N1,
        2 => Restart::N2,
        3 => Restart::N3,
        4 => Restart::N4,
        5 => Restart::N5,
        6 => Restart::N6,
        _ => Restart::N7,
    }
}
