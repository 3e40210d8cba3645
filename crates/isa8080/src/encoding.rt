//! From an instruction to its bytes (8080 Assembly Language Programming Manual, appendix "Instruction
//! summary").

ghost use Rattle.std.specs.Prelude.{◌≡◌, ℕ, ◌-◌, ◌<◌, ◌≤◌, Some, List, [], ◌∷◌, ◌++◌, length, replicate};
ghost use Rattle.isa8080.specs.State.{high_byte, low_byte};
ghost use Rattle.isa8080.specs.Code.{bytes_of, condition_code, first_instruction, index_code, operand_code, operation_code, pair_code, register_code, restart_number, stack_code};

use crate::instr::{
    Condition, IndexPair, Instr, Operand, Operation, Pair, Register, Restart, StackPair,
};

/// The bytes of an instruction and their number, from 1 to 3; the places after them are 0. Whatever bytes
/// follow, they are read as the instruction again.
#[tactic(auto, using(crate::proofs::EncodingLemmas::read_back))]
pub fn encode(instr: Instr) -> ([u8; 3], u8)
    ensures bytes { result.0 ≡ bytes_of instr ++ replicate (3 - result.1) 0 }
    ensures size { result.1 ≡ length (bytes_of instr) }
    ensures at_least { 1 ≤ result.1 }
    ensures at_most { result.1 ≤ 3 }
    ensures read_back { (after : List ℕ)
        → first_instruction (bytes_of instr ++ after) ≡ Some (instr, result.1) }
{
    encoded(instr)
}

// The table of the instructions' codes.
fn encoded(instr: Instr) -> ([u8; 3], u8)
    ensures bytes { result.0 ≡ bytes_of instr ++ replicate (3 - result.1) 0 }
    ensures size { result.1 ≡ length (bytes_of instr) }
    ensures at_least { 1 ≤ result.1 }
    ensures at_most { result.1 ≤ 3 }
{
    match instr {
        Instr::Nop => one(0x00),
        Instr::Lxi(pair, word) => three(0x01 + 16 * pair_code(pair), word),
        Instr::Stax(pair) => one(0x02 + 16 * index_code(pair)),
        Instr::Ldax(pair) => one(0x0A + 16 * index_code(pair)),
        Instr::Shld(word) => three(0x22, word),
        Instr::Lhld(word) => three(0x2A, word),
        Instr::Sta(word) => three(0x32, word),
        Instr::Lda(word) => three(0x3A, word),
        Instr::Inx(pair) => one(0x03 + 16 * pair_code(pair)),
        Instr::Dcx(pair) => one(0x0B + 16 * pair_code(pair)),
        Instr::Dad(pair) => one(0x09 + 16 * pair_code(pair)),
        Instr::Inr(operand) => one(0x04 + 8 * operand_code(operand)),
        Instr::Dcr(operand) => one(0x05 + 8 * operand_code(operand)),
        Instr::Mvi(operand, byte) => two(0x06 + 8 * operand_code(operand), byte),
        Instr::Rlc => one(0x07),
        Instr::Rrc => one(0x0F),
        Instr::Ral => one(0x17),
        Instr::Rar => one(0x1F),
        Instr::Daa => one(0x27),
        Instr::Cma => one(0x2F),
        Instr::Stc => one(0x37),
        Instr::Cmc => one(0x3F),
        Instr::Mov(register, operand) => {
            one(0x40 + 8 * register_code(register) + operand_code(operand))
        }
        Instr::MovToMemory(register) => one(0x70 + register_code(register)),
        Instr::Hlt => one(0x76),
        Instr::Accumulate(operation, operand) => {
            one(0x80 + 8 * operation_code(operation) + operand_code(operand))
        }
        Instr::AccumulateImmediate(operation, byte) => {
            two(0xC6 + 8 * operation_code(operation), byte)
        }
        Instr::ReturnIf(condition) => one(0xC0 + 8 * condition_code(condition)),
        Instr::JumpIf(condition, word) => three(0xC2 + 8 * condition_code(condition), word),
        Instr::CallIf(condition, word) => three(0xC4 + 8 * condition_code(condition), word),
        Instr::Ret => one(0xC9),
        Instr::Jmp(word) => three(0xC3, word),
        Instr::Call(word) => three(0xCD, word),
        Instr::Rst(number) => one(0xC7 + 8 * restart_number(number)),
        Instr::Pop(pair) => one(0xC1 + 16 * stack_code(pair)),
        Instr::Push(pair) => one(0xC5 + 16 * stack_code(pair)),
        Instr::Out(port) => two(0xD3, port),
        Instr::In(port) => two(0xDB, port),
        Instr::Xthl => one(0xE3),
        Instr::Xchg => one(0xEB),
        Instr::Pchl => one(0xE9),
        Instr::Sphl => one(0xF9),
        Instr::Di => one(0xF3),
        Instr::Ei => one(0xFB),
    }
}

// The code of an instruction of one byte.
fn one(code: u8) -> ([u8; 3], u8)
    ensures bytes { result.0 ≡ code ∷ 0 ∷ 0 ∷ [] }
    ensures size { result.1 ≡ 1 }
{
    ([code, 0, 0], 1)
}

// The code of an instruction with a byte.
fn two(code: u8, byte: u8) -> ([u8; 3], u8)
    ensures bytes { result.0 ≡ code ∷ byte ∷ 0 ∷ [] }
    ensures size { result.1 ≡ 2 }
{
    ([code, byte, 0], 2)
}

// The code of an instruction with a 16-bit value, low byte first.
fn three(code: u8, word: u16) -> ([u8; 3], u8)
    ensures bytes { result.0 ≡ code ∷ low_byte word ∷ high_byte word ∷ [] }
    ensures size { result.1 ≡ 3 }
{
    ([code, (word % 256) as u8, (word / 256) as u8], 3)
}

fn register_code(register: Register) -> u8
    ensures code { result ≡ register_code register }
    ensures small { result < 8 }
{
    match register {
        Register::B => 0,
        Register::C => 1,
        Register::D => 2,
        Register::E => 3,
        Register::H => 4,
        Register::L => 5,
        Register::A => 7,
    }
}

fn operand_code(operand: Operand) -> u8
    ensures code { result ≡ operand_code operand }
    ensures small { result < 8 }
{
    match operand {
        Operand::Of(register) => register_code(register),
        Operand::M => 6,
    }
}

fn pair_code(pair: Pair) -> u8
    ensures code { result ≡ pair_code pair }
    ensures small { result < 4 }
{
    match pair {
        Pair::Bc => 0,
        Pair::De => 1,
        Pair::Hl => 2,
        Pair::Sp => 3,
    }
}

fn index_code(pair: IndexPair) -> u8
    ensures code { result ≡ index_code pair }
    ensures small { result < 2 }
{
    match pair {
        IndexPair::IndexBc => 0,
        IndexPair::IndexDe => 1,
    }
}

fn stack_code(pair: StackPair) -> u8
    ensures code { result ≡ stack_code pair }
    ensures small { result < 4 }
{
    match pair {
        StackPair::StackBc => 0,
        StackPair::StackDe => 1,
        StackPair::StackHl => 2,
        StackPair::Psw => 3,
    }
}

fn condition_code(condition: Condition) -> u8
    ensures code { result ≡ condition_code condition }
    ensures small { result < 8 }
{
    match condition {
        Condition::NotZero => 0,
        Condition::Zero => 1,
        Condition::NoCarry => 2,
        Condition::Carry => 3,
        Condition::ParityOdd => 4,
        Condition::ParityEven => 5,
        Condition::Plus => 6,
        Condition::Minus => 7,
    }
}

fn operation_code(operation: Operation) -> u8
    ensures code { result ≡ operation_code operation }
    ensures small { result < 8 }
{
    match operation {
        Operation::Add => 0,
        Operation::AddWithCarry => 1,
        Operation::Subtract => 2,
        Operation::SubtractWithBorrow => 3,
        Operation::And => 4,
        Operation::ExclusiveOr => 5,
        Operation::Or => 6,
        Operation::Compare => 7,
    }
}

fn restart_number(number: Restart) -> u8
    ensures code { result ≡ restart_number number }
    ensures small { result < 8 }
{
    match number {
        Restart::N0 => 0,
        Restart::N1 => 1,
        Restart::N2 => 2,
        Restart::N3 => 3,
        Restart::N4 => 4,
        Restart::N5 => 5,
        Restart::N6 => 6,
        Restart::N7 => 7,
    }
}
