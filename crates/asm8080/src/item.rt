//! What code is made of before it has a place.

use isa8080::{Condition, Instr, Pair};
use object_modules::Target;

/// An instruction that ends in a 16-bit value, without the value.
#[derive(Clone, Copy)]
pub enum WordForm {
    /// LXI.
    LoadPair(Pair),
    /// SHLD.
    StoreHl,
    /// LHLD.
    LoadHl,
    /// STA.
    StoreA,
    /// LDA.
    LoadA,
    /// JMP.
    Jump,
    /// JNZ, JZ, JNC, JC, JPO, JPE, JP or JM.
    JumpWhere(Condition),
    /// CALL.
    CallTo,
    /// CNZ, CZ, CNC, CC, CPO, CPE, CP or CM.
    CallWhere(Condition),
}

/// A 16-bit value: a number, or one that depends on where something will lie.
#[derive(Clone, Copy)]
pub enum Reference {
    /// The place of a label, by its number.
    AtLabel(u32),
    /// A number of bytes after the origin of a target's offsets, modulo 65536.
    AtTarget(Target, u16),
    /// A number, which nothing moves.
    AtNumber(u16),
}

/// An instruction, data between instructions, or the place of a label.
#[derive(Clone, Copy)]
pub enum Item {
    /// An instruction whose bytes are known.
    Plain(Instr),
    /// An instruction with its word.
    WithWord(WordForm, Reference),
    /// A byte of data.
    Byte(u8),
    /// A word of data, low byte first.
    Address(Reference),
    /// A number of bytes that stay unset.
    Gap(u16),
    /// The place of a label, by its number.
    Mark(u32),
}
