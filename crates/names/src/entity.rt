//! What names stand for.

use trees::UnaryFunction;

/// What a declaration makes a name stand for. Objects, procedures and labels are numbered from 0 each, in the order of
/// the text; parameters are objects, numbered where DECLARE declares them. The labels of a list of statements follow
/// each other, and are numbered before those of the lists within it.
#[derive(Clone, Copy, PartialEq, Eq)]
pub enum Entity {
    /// A variable or a parameter.
    Object(u32),
    Procedure(u32),
    Label(u32),
    /// The name of a LITERALLY definition.
    Definition,
}

/// The procedures that are known without a declaration.
#[derive(Clone, Copy, PartialEq, Eq)]
pub enum BuiltIn {
    Input,
    Output,
    /// A function of one value.
    Unary(UnaryFunction),
    Length,
    Last,
    Size,
    /// SHL
    ShiftLeft,
    /// SHR
    ShiftRight,
    /// ROL
    RotateLeft,
    /// ROR
    RotateRight,
    Move,
}

/// What a use of a name is bound to.
#[derive(Clone, Copy, PartialEq, Eq)]
pub enum Binding {
    /// A declaration.
    Declared(Entity),
    /// A built-in procedure.
    BuiltInName(BuiltIn),
    /// The name after GOTO is not a label that is known there.
    UnknownLabel,
}
