//! Why a run goes outside.

/// Why a run goes outside what the language defines.
#[derive(Clone, Copy, Debug)]
pub enum Reason {
    /// A division by 0.
    Divide,
    /// An access to a byte that is not declared.
    Byte,
    /// A write to a constant.
    Constant,
    /// The room on the stack is less than the charge.
    Stack,
}
