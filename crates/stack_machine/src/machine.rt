//! A machine, and the remaining work of an instruction.

use crate::calls::Calls;
use crate::end::SourceEnd;
use crate::values::Values;
use declared::Frames;
use mem80::Memory;

/// A machine without its ports: which instruction is the next one, the module that runs, the room on the stack, the
/// budget of turns, jumps and calls, and what it works on.
#[derive(Drop)]
pub struct StackMachine<'a> {
    pub at: usize,
    pub number_of_module: usize,
    pub room: u16,
    pub budget: u64,
    pub values: Values,
    pub calls: Calls,
    pub memory: Memory,
    pub frames: Frames<'a>,
}

/// The remaining work of an instruction.
#[derive(Clone, Copy)]
pub enum Remaining {
    /// Nothing: the machine continues.
    Nothing,
    /// Nothing: the program stops.
    Stop(SourceEnd),
    /// The read of a port.
    Input(u8),
    /// The write of the value on top to a port.
    Output(u8),
}
