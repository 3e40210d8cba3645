//! Instructions as an assembler writes them: the mnemonic, and after a space the operands with commas
//! between. Bytes have two hexadecimal digits, and 16-bit values four.

ghost use Rattle.std.specs.Prelude.{◌≡◌, ◌++◌, codes};
ghost use Rattle.std.specs.Fmt.{WritesOnOk};
ghost use Rattle.isa8080.specs.Text.{byte_digits, condition_name, immediate_name, index_name, operand_name, operation_name, pair_name, register_name, restart_digit, stack_name, word_digits};

use crate::instr::{
    Condition, IndexPair, Instr, Operand, Operation, Pair, Register, Restart, StackPair,
};
use std::fmt;

/// The text of the instruction, as `MVI A,08` or `JNZ 0100`.
impl fmt::Display for Instr {
    ghost use Rattle.std.specs.Prelude.{Some};
    ghost use Rattle.isa8080.specs.Text.{text_of};

    ghost output = { λ instr. Some (text_of instr) };

    fn fmt<W: fmt::Write>(&self, f: &mut fmt::Formatter<W>) -> fmt::Result {
        match *self {
            Instr::Nop => f.write_str("NOP"),
            Instr::Lxi(pair, word) => write_name_and_word(f, "LXI", pair_name(pair), word),
            Instr::Stax(pair) => write_name(f, "STAX", index_name(pair)),
            Instr::Ldax(pair) => write_name(f, "LDAX", index_name(pair)),
            Instr::Shld(word) => write_word(f, "SHLD", word),
            Instr::Lhld(word) => write_word(f, "LHLD", word),
            Instr::Sta(word) => write_word(f, "STA", word),
            Instr::Lda(word) => write_word(f, "LDA", word),
            Instr::Inx(pair) => write_name(f, "INX", pair_name(pair)),
            Instr::Dcx(pair) => write_name(f, "DCX", pair_name(pair)),
            Instr::Dad(pair) => write_name(f, "DAD", pair_name(pair)),
            Instr::Inr(operand) => write_name(f, "INR", operand_name(operand)),
            Instr::Dcr(operand) => write_name(f, "DCR", operand_name(operand)),
            Instr::Mvi(operand, byte) => write_name_and_byte(f, "MVI", operand_name(operand), byte),
            Instr::Rlc => f.write_str("RLC"),
            Instr::Rrc => f.write_str("RRC"),
            Instr::Ral => f.write_str("RAL"),
            Instr::Rar => f.write_str("RAR"),
            Instr::Daa => f.write_str("DAA"),
            Instr::Cma => f.write_str("CMA"),
            Instr::Stc => f.write_str("STC"),
            Instr::Cmc => f.write_str("CMC"),
            Instr::Mov(register, operand) => {
                write_names(f, "MOV", register_name(register), operand_name(operand))
            }
            Instr::MovToMemory(register) => write_names(f, "MOV", "M", register_name(register)),
            Instr::Hlt => f.write_str("HLT"),
            Instr::Accumulate(operation, operand) => {
                write_name(f, operation_name(operation), operand_name(operand))
            }
            Instr::AccumulateImmediate(operation, byte) => {
                write_byte(f, immediate_name(operation), byte)
            }
            Instr::ReturnIf(condition) => write_condition(f, "R", condition),
            Instr::JumpIf(condition, word) => write_condition_and_word(f, "J", condition, word),
            Instr::CallIf(condition, word) => write_condition_and_word(f, "C", condition, word),
            Instr::Ret => f.write_str("RET"),
            Instr::Jmp(word) => write_word(f, "JMP", word),
            Instr::Call(word) => write_word(f, "CALL", word),
            Instr::Rst(number) => write_name(f, "RST", restart_name(number)),
            Instr::Pop(pair) => write_name(f, "POP", stack_name(pair)),
            Instr::Push(pair) => write_name(f, "PUSH", stack_name(pair)),
            Instr::Out(port) => write_byte(f, "OUT", port),
            Instr::In(port) => write_byte(f, "IN", port),
            Instr::Xthl => f.write_str("XTHL"),
            Instr::Xchg => f.write_str("XCHG"),
            Instr::Pchl => f.write_str("PCHL"),
            Instr::Sphl => f.write_str("SPHL"),
            Instr::Di => f.write_str("DI"),
            Instr::Ei => f.write_str("EI"),
        }
    }
}

// A byte as two digits.
fn write_byte_digits<W: fmt::Write>(f: &mut fmt::Formatter<W>, byte: u8) -> fmt::Result
    ensures { WritesOnOk W.write_str_gives f.old result (byte_digits byte) f.new }
{
    write!(f, "{byte:02X}")
}

// A 16-bit value as four.
fn write_word_digits<W: fmt::Write>(f: &mut fmt::Formatter<W>, word: u16) -> fmt::Result
    ensures { WritesOnOk W.write_str_gives f.old result (word_digits word) f.new }
{
    write_byte_digits(f, (word / 256) as u8)?;
    write_byte_digits(f, (word % 256) as u8)
}

// A mnemonic and the name of an operand.
fn write_name<W: fmt::Write>(f: &mut fmt::Formatter<W>, mnemonic: &str, name: &str) -> fmt::Result
    ensures { WritesOnOk W.write_str_gives f.old result (mnemonic.now ++ codes " " ++ name.now) f.new }
{
    f.write_str(mnemonic)?;
    f.write_str(" ")?;
    f.write_str(name)
}

// A mnemonic and the names of two operands.
fn write_names<W: fmt::Write>(
    f: &mut fmt::Formatter<W>,
    mnemonic: &str,
    first: &str,
    second: &str,
) -> fmt::Result
    ensures { WritesOnOk W.write_str_gives f.old result
        (mnemonic.now ++ codes " " ++ first.now ++ codes "," ++ second.now) f.new }
{
    write_name(f, mnemonic, first)?;
    f.write_str(",")?;
    f.write_str(second)
}

// A mnemonic and a byte.
fn write_byte<W: fmt::Write>(f: &mut fmt::Formatter<W>, mnemonic: &str, byte: u8) -> fmt::Result
    ensures { WritesOnOk W.write_str_gives f.old result (mnemonic.now ++ codes " " ++ byte_digits byte) f.new }
{
    f.write_str(mnemonic)?;
    f.write_str(" ")?;
    write_byte_digits(f, byte)
}

// A mnemonic and a 16-bit value.
fn write_word<W: fmt::Write>(f: &mut fmt::Formatter<W>, mnemonic: &str, word: u16) -> fmt::Result
    ensures { WritesOnOk W.write_str_gives f.old result (mnemonic.now ++ codes " " ++ word_digits word) f.new }
{
    f.write_str(mnemonic)?;
    f.write_str(" ")?;
    write_word_digits(f, word)
}

// A mnemonic, the name of an operand and a byte.
fn write_name_and_byte<W: fmt::Write>(
    f: &mut fmt::Formatter<W>,
    mnemonic: &str,
    name: &str,
    byte: u8,
) -> fmt::Result
    ensures { WritesOnOk W.write_str_gives f.old result
        (mnemonic.now ++ codes " " ++ name.now ++ codes "," ++ byte_digits byte) f.new }
{
    write_name(f, mnemonic, name)?;
    f.write_str(",")?;
    write_byte_digits(f, byte)
}

// A mnemonic, the name of an operand and a 16-bit value.
fn write_name_and_word<W: fmt::Write>(
    f: &mut fmt::Formatter<W>,
    mnemonic: &str,
    name: &str,
    word: u16,
) -> fmt::Result
    ensures { WritesOnOk W.write_str_gives f.old result
        (mnemonic.now ++ codes " " ++ name.now ++ codes "," ++ word_digits word) f.new }
{
    write_name(f, mnemonic, name)?;
    f.write_str(",")?;
    write_word_digits(f, word)
}

// A mnemonic that ends with the letters of a condition.
fn write_condition<W: fmt::Write>(
    f: &mut fmt::Formatter<W>,
    mnemonic: &str,
    condition: Condition,
) -> fmt::Result
    ensures { WritesOnOk W.write_str_gives f.old result (mnemonic.now ++ condition_name condition) f.new }
{
    f.write_str(mnemonic)?;
    f.write_str(condition_name(condition))
}

// Such a mnemonic and a 16-bit value.
fn write_condition_and_word<W: fmt::Write>(
    f: &mut fmt::Formatter<W>,
    mnemonic: &str,
    condition: Condition,
    word: u16,
) -> fmt::Result
    ensures { WritesOnOk W.write_str_gives f.old result
        (mnemonic.now ++ condition_name condition ++ codes " " ++ word_digits word) f.new }
{
    write_condition(f, mnemonic, condition)?;
    f.write_str(" ")?;
    write_word_digits(f, word)
}

fn condition_name(condition: Condition) -> &'static str
    ensures { result.now ≡ condition_name condition }
{
    match condition {
        Condition::NotZero => "NZ",
        Condition::Zero => "Z",
        Condition::NoCarry => "NC",
        Condition::Carry => "C",
        Condition::ParityOdd => "PO",
        Condition::ParityEven => "PE",
        Condition::Plus => "P",
        Condition::Minus => "M",
    }
}

fn register_name(register: Register) -> &'static str
    ensures { result.now ≡ register_name register }
{
    match register {
        Register::B => "B",
        Register::C => "C",
        Register::D => "D",
        Register::E => "E",
        Register::H => "H",
        Register::L => "L",
        Register::A => "A",
    }
}

fn operand_name(operand: Operand) -> &'static str
    ensures { result.now ≡ operand_name operand }
{
    match operand {
        Operand::Of(register) => register_name(register),
        Operand::M => "M",
    }
}

fn pair_name(pair: Pair) -> &'static str
    ensures { result.now ≡ pair_name pair }
{
    match pair {
        Pair::Bc => "B",
        Pair::De => "D",
        Pair::Hl => "H",
        Pair::Sp => "SP",
    }
}

fn index_name(pair: IndexPair) -> &'static str
    ensures { result.now ≡ index_name pair }
{
    match pair {
        IndexPair::IndexBc => "B",
        IndexPair::IndexDe => "D",
    }
}

fn stack_name(pair: StackPair) -> &'static str
    ensures { result.now ≡ stack_name pair }
{
    match pair {
        StackPair::StackBc => "B",
        StackPair::StackDe => "D",
        StackPair::StackHl => "H",
        StackPair::Psw => "PSW",
    }
}

fn restart_name(number: Restart) -> &'static str
    ensures { result.now ≡ restart_digit number }
{
    match number {
        Restart::N0 => "0",
        Restart::N1 => "1",
        Restart::N2 => "2",
        Restart::N3 => "3",
        Restart::N4 => "4",
        Restart::N5 => "5",
        Restart::N6 => "6",
        Restart::N7 => "7",
    }
}

// With a register or with memory.
fn operation_name(operation: Operation) -> &'static str
    ensures { result.now ≡ operation_name operation }
{
    match operation {
        Operation::Add => "ADD",
        Operation::AddWithCarry => "ADC",
        Operation::Subtract => "SUB",
        Operation::SubtractWithBorrow => "SBB",
        Operation::And => "ANA",
        Operation::ExclusiveOr => "XRA",
        Operation::Or => "ORA",
        Operation::Compare => "CMP",
    }
}

// With the byte after the code.
fn immediate_name(operation: Operation) -> &'static str
    ensures { result.now ≡ immediate_name operation }
{
    match operation {
        Operation::Add => "ADI",
        Operation::AddWithCarry => "ACI",
        Operation::Subtract => "SUI",
        Operation::SubtractWithBorrow => "SBI",
        Operation::And => "ANI",
        Operation::ExclusiveOr => "XRI",
        Operation::Or => "ORI",
        Operation::Compare => "CPI",
    }
}
