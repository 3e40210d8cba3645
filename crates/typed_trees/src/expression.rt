//! Typed expressions: names resolved, each with its type, each conversion written out. Objects, procedures and constant
//! lists are named by their numbers in the tables of the module.

use crate::parts::{NumberOrigin, ShiftFunction};
use crate::word::Word;
use trees::{BinaryOperator, ScalarType, UnaryFunction, UnaryOperator};

/// An expression.
#[cycle(expression)]
pub enum TypedExpression {
    /// A number of a type.
    Number {
        scalar: ScalarType,
        value: Word,
        origin: NumberOrigin,
    },
    /// The value of a scalar.
    Value {
        scalar: ScalarType,
        reference: Box<TypedReference>,
    },
    /// The location of an object or of a part of it.
    Location(Box<TypedReference>),
    /// The location of a constant list.
    List(u32),
    /// To BYTE the low byte, to ADDRESS with zeros added.
    Conversion {
        scalar: ScalarType,
        inner: Box<TypedExpression>,
    },
    /// `(target := value)`
    Assignment {
        target: Box<TypedTarget>,
        value: Box<TypedExpression>,
    },
    /// An operator with one operand, whose type is that of the result.
    Unary {
        scalar: ScalarType,
        operator: UnaryOperator,
        operand: Box<TypedExpression>,
    },
    /// An operator with two operands of one type.
    Binary {
        operands: ScalarType,
        operator: BinaryOperator,
        left: Box<TypedExpression>,
        right: Box<TypedExpression>,
    },
    /// A call of a procedure with a result of a type. Each argument is of the type of its parameter.
    Call {
        procedure: u32,
        scalar: ScalarType,
        arguments: Vec<TypedExpression>,
    },
    /// LOW, HIGH or DOUBLE.
    Function {
        function: UnaryFunction,
        operand: Box<TypedExpression>,
    },
    /// A shift or a rotation of a value, whose type is that of the result, by a BYTE.
    Shift {
        scalar: ScalarType,
        function: ShiftFunction,
        value: Box<TypedExpression>,
        count: Box<TypedExpression>,
    },
    /// INPUT of a port.
    Input(u8),
}

/// An object or a part of it: an element, a member of the element, by its position in the structure and its offset
/// there (0 if no member is meant), and an element of the member.
#[cycle(expression)]
pub struct TypedReference {
    pub object: u32,
    pub subscript: TypedSubscript,
    pub member: Option<u32>,
    pub offset: u32,
    pub member_subscript: TypedSubscript,
}

/// A subscript, which is an ADDRESS, with the size of an element and how many there are; or none.
#[cycle(expression)]
pub enum TypedSubscript {
    Absent,
    Present {
        stride: u32,
        count: u32,
        index: Box<TypedExpression>,
    },
}

/// The destination of a value of the type `from`.
#[cycle(expression)]
pub enum TypedTarget {
    /// A scalar of the type `to`, to which the value is converted.
    Stored {
        from: ScalarType,
        to: ScalarType,
        reference: TypedReference,
    },
    /// A port, which takes the low byte.
    Sent {
        from: ScalarType,
        port: u8,
    },
}

impl TypedExpression {
    ghost use Rattle.std.specs.Prelude.{◌≡◌};
    ghost use Rattle.typed_trees.specs.ExpressionTypes.{type_of};
    ghost use Rattle.typed_trees.specs.Views.{expression_view};

    /// The type of its value.
    pub fn scalar(&self) -> ScalarType
        ensures { result ≡ type_of (expression_view self.now) }
    {
        match self {
            TypedExpression::Number { scalar, .. }
            | TypedExpression::Value { scalar, .. }
            | TypedExpression::Conversion { scalar, .. }
            | TypedExpression::Unary { scalar, .. }
            | TypedExpression::Call { scalar, .. }
            | TypedExpression::Shift { scalar, .. } => *scalar,
            TypedExpression::Location(_) | TypedExpression::List(_) => ScalarType::Address,
            TypedExpression::Assignment { target, .. } => target.source(),
            TypedExpression::Binary {
                operands,
                operator,
                ..
            } => type_of_result(*operator, *operands),
            TypedExpression::Function { function, .. } => function.scalar(),
            TypedExpression::Input(_) => ScalarType::Byte,
        }
    }
}

impl TypedTarget {
    ghost use Rattle.std.specs.Prelude.{◌≡◌};
    ghost use Rattle.typed_trees.specs.ExpressionTypes.{type_of_target};
    ghost use Rattle.typed_trees.specs.Views.{target_view};

    /// The type of the value that is stored or sent.
    pub fn source(&self) -> ScalarType
        ensures { result ≡ type_of_target (target_view self.now) }
    {
        match self {
            TypedTarget::Stored { from, .. } | TypedTarget::Sent { from, .. } => *from,
        }
    }
}

ghost use Rattle.std.specs.Prelude.{◌≡◌};
ghost use Rattle.typed_trees.specs.ExpressionTypes.{type_of_result as result_type};

/// The type of the result of an operator for operands of a type.
fn type_of_result(operator: BinaryOperator, operands: ScalarType) -> ScalarType
    ensures { result ≡ result_type operator operands }
{
    match operator {
        BinaryOperator::Equal
        | BinaryOperator::Less
        | BinaryOperator::Greater
        | BinaryOperator::LessOrEqual
        | BinaryOperator::GreaterOrEqual
        | BinaryOperator::Unequal => ScalarType::Byte,
        _ => operands,
    }
}

// Written out, so that these are freed here, and each crate that frees one calls this.
impl Drop for TypedExpression {
    #[cycle(let_go_expression)]
    fn drop(self) {
        match self {
            TypedExpression::Number {
                scalar: _,
                value: _,
                origin: _,
            }
            | TypedExpression::Value {
                scalar: _,
                reference: _,
            }
            | TypedExpression::Location(_)
            | TypedExpression::List(_)
            | TypedExpression::Conversion {
                scalar: _,
                inner: _,
            }
            | TypedExpression::Assignment {
                target: _,
                value: _,
            }
            | TypedExpression::Unary {
                scalar: _,
                operator: _,
                operand: _,
            }
            | TypedExpression::Binary {
                operands: _,
                operator: _,
                left: _,
                right: _,
            }
            | TypedExpression::Call {
                procedure: _,
                scalar: _,
                arguments: _,
            }
            | TypedExpression::Function {
                function: _,
                operand: _,
            }
            | TypedExpression::Shift {
                scalar: _,
                function: _,
                value: _,
                count: _,
            }
            | TypedExpression::Input(_) => {}
        }
    }
}

impl Drop for TypedReference {
    #[cycle(let_go_expression)]
    fn drop(self) {
        let TypedReference {
            object: _,
            subscript: _,
            member: _,
            offset: _,
            member_subscript: _,
        } = self;
    }
}

impl Drop for TypedSubscript {
    #[cycle(let_go_expression)]
    fn drop(self) {
        match self {
            TypedSubscript::Absent
            | TypedSubscript::Present {
                stride: _,
                count: _,
                index: _,
            } => {}
        }
    }
}

impl Drop for TypedTarget {
    #[cycle(let_go_expression)]
    fn drop(self) {
        match self {
            TypedTarget::Stored {
                from: _,
                to: _,
                reference: _,
            }
            | TypedTarget::Sent { from: _, port: _ } => {}
        }
    }
}
