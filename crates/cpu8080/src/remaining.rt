//! What a machine has still to do.

/// What is left to do of an instruction once it has worked on the registers and the memory.
#[derive(Clone, Copy)]
pub enum Remaining {
    /// The instruction is done.
    Nothing,
    /// To halt.
    Halt,
    /// To stop at a code that is not one of the 8080's.
    IllegalCode,
    /// To read a port.
    Input,
    /// To write a port.
    Output,
}
