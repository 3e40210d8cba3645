//! The instruction set of the 8080: its registers and flags, its instructions, and their codes.
#![tactic(auto)]

mod decoding;
mod encoding;
mod instr;
mod print;
mod registers;

pub use decoding::decode;
pub use encoding::encode;
pub use instr::{
    Condition, IndexPair, Instr, Operand, Operation, Pair, Register, Restart, StackPair,
};
pub use registers::{Flags, RegisterFile, Registers, Status};
