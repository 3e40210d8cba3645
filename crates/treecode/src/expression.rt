//! Expressions as numbered nodes.

ghost use Rattle.std.specs.Prelude.{◌≡◌};

use crate::lists::Range;
use crate::reference::{Reference, Target};
use crate::traits::Traits;
use trees::{BinaryOperator, ScalarType, UnaryFunction, UnaryOperator};
use typed_trees::ShiftFunction;

/// The number of an expression in its module. Each part of an expression has a lower number than the whole.
#[derive(Clone, Copy)]
pub struct ExpressionNumber {
    pub index: u32,
}

/// The form of an expression. Its type is one of its traits.
#[derive(Clone, Copy)]
pub enum ExpressionForm {
    /// A number.
    Number(u16),
    /// The value of a scalar.
    Value(Reference),
    /// The address of an object or a part of it.
    Location(Reference),
    /// The address of a constant list, as an offset from the start of the code segment.
    List(u16),
    /// A conversion: to BYTE it takes the low byte, to ADDRESS it zero-extends.
    Conversion(ExpressionNumber),
    /// `(target := value)`
    Assignment {
        target: Target,
        value: ExpressionNumber,
    },
    /// An operator with one operand, which has the type of the result.
    Unary {
        operator: UnaryOperator,
        operand: ExpressionNumber,
    },
    /// An operator with two operands of the same type.
    Binary {
        operands: ScalarType,
        operator: BinaryOperator,
        left: ExpressionNumber,
        right: ExpressionNumber,
    },
    /// A call of a procedure with a result, by its number in the module. The arguments are in the module's table of
    /// arguments, each of the type of its parameter.
    Call {
        procedure: u32,
        arguments: Range,
    },
    /// LOW, HIGH or DOUBLE.
    Function {
        function: UnaryFunction,
        operand: ExpressionNumber,
    },
    /// A shift or rotation by a BYTE. The value has the type of the result.
    Shift {
        function: ShiftFunction,
        value: ExpressionNumber,
        count: ExpressionNumber,
    },
    /// INPUT of a port.
    Input(u8),
}

/// An expression: its form and its traits.
#[derive(Clone, Copy)]
pub struct Expression {
    pub form: ExpressionForm,
    pub traits: Traits,
}
