//! The routines that code may call.

/// What the 8080 can't do in one instruction.
#[derive(Clone, Copy)]
pub enum Routine {
    /// HL becomes HL times DE, modulo 65536.
    Multiply,
    /// HL becomes HL divided by DE, and DE the remainder. A division by 0 returns too, with no particular
    /// values.
    Divide,
    /// A is shifted to the left by the count in E; from 8 on it becomes 0.
    ShiftLeftByte,
    /// A is shifted to the right by the count in E; from 8 on it becomes 0.
    ShiftRightByte,
    /// HL is shifted to the left by the count in A; from 16 on it becomes 0.
    ShiftLeftAddress,
    /// HL is shifted to the right by the count in A; from 16 on it becomes 0.
    ShiftRightAddress,
    /// A is rotated to the left by the count in E, modulo 8.
    RotateLeft,
    /// A is rotated to the right by the count in E, modulo 8.
    RotateRight,
    /// BC bytes are copied from the address in DE to that in HL.
    Move,
}
