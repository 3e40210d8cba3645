//! Making nodes of typed expressions, with the conversions that they need.

ghost use Rattle.std.specs.Prelude.{◌≡◌, IfOk, Ok};
ghost use Rattle.typed_trees.specs.TypedTrees.{NumberNode, ValueNode, LocationNode, ListNode, AssignmentNode, CallNode};
ghost use Rattle.typed_trees.specs.TypedTrees.{FunctionNode, InputNode};
ghost use Rattle.typing.specs.Nodes.{as_type as converted_to, binary_node, shift_node, target_of as target_for, common_type as common, type_of_operands as operand_type, type_of_shift as shift_type};
ghost use Rattle.typing.specs.internal.Expressions.{unary_node};
ghost use Rattle.typed_trees.specs.Views.{Makes, expression_view, reference_view, target_view, arguments_view};
ghost use Rattle.typing.specs.Constants.{type_of_number as number_type};
ghost use Rattle.typed_expressions.specs.internal.Views.{destination_view};
ghost use Rattle.typing.specs.internal.Results.{Answers};

use crate::known::Destination;
use failure::Failure;
use std::alloc::{AllocError, Global};
use trees::{BinaryOperator, ScalarType, UnaryFunction, UnaryOperator};
use typed_trees::{
    NumberOrigin, ShiftFunction, TypedExpression, TypedReference, TypedTarget, Word,
};
use typing::Fault;

/// The type of a number.
pub(crate) fn type_of_number(value: u16) -> ScalarType
    ensures { result ≡ number_type value }
{
    if value <= 255 {
        ScalarType::Byte
    } else {
        ScalarType::Address
    }
}

// The type to which two types are extended.
fn common_type(left: ScalarType, right: ScalarType) -> ScalarType
    ensures { result ≡ common left right }
{
    match (left, right) {
        (ScalarType::Byte, ScalarType::Byte) => ScalarType::Byte,
        _ => ScalarType::Address,
    }
}

// The type to which the operands of an operator are extended.
fn type_of_operands(operator: BinaryOperator, left: ScalarType, right: ScalarType) -> ScalarType
    ensures { result ≡ operand_type operator left right }
{
    match operator {
        BinaryOperator::Multiply | BinaryOperator::Divide | BinaryOperator::Modulo => {
            ScalarType::Address
        }
        _ => common_type(left, right),
    }
}

// The type of a shift or a rotation of a value of a type.
fn type_of_shift(function: ShiftFunction, value: ScalarType) -> ScalarType
    ensures { result ≡ shift_type function value }
{
    match function {
        ShiftFunction::RotateLeft | ShiftFunction::RotateRight => ScalarType::Byte,
        _ => value,
    }
}

/// A number.
pub(crate) fn number(scalar: ScalarType, value: u16, origin: NumberOrigin) -> TypedExpression
    ensures view { expression_view result ≡ NumberNode scalar value origin }
{
    TypedExpression::Number {
        scalar,
        value: Word { value },
        origin,
    }
}

/// The value of a scalar.
pub(crate) fn value(
    alloc: Global,
    scalar: ScalarType,
    reference: TypedReference,
) -> Result<TypedExpression, Failure<Fault>>
    ensures view { Answers expression_view result (Ok (ValueNode scalar (reference_view reference))) }
{
    let reference = Box::new(alloc, reference)?;
    Ok(TypedExpression::Value { scalar, reference })
}

/// The location of an object or of a part of it.
pub(crate) fn location(
    alloc: Global,
    reference: TypedReference,
) -> Result<TypedExpression, Failure<Fault>>
    ensures view { Answers expression_view result (Ok (LocationNode (reference_view reference))) }
{
    Ok(TypedExpression::Location(Box::new(alloc, reference)?))
}

/// The location of a constant list.
pub(crate) fn list(number: u32) -> TypedExpression
    ensures view { expression_view result ≡ ListNode number }
{
    TypedExpression::List(number)
}

/// The same value as one of a type: with a conversion if it has the other.
pub fn as_type(
    alloc: Global,
    expression: TypedExpression,
    scalar: ScalarType,
) -> Result<TypedExpression, AllocError>
    ensures view { Makes result (converted_to scalar (expression_view expression)) }
{
    match (scalar, expression.scalar()) {
        (ScalarType::Byte, ScalarType::Byte) => Ok(expression),
        (ScalarType::Address, ScalarType::Address) => Ok(expression),
        _ => {
            let inner = Box::new(alloc, expression)?;
            Ok(TypedExpression::Conversion { scalar, inner })
        }
    }
}

/// The same value as one of a type, in a box.
pub(crate) fn boxed_as_type(
    alloc: Global,
    expression: TypedExpression,
    scalar: ScalarType,
) -> Result<Box<TypedExpression>, AllocError>
    ensures view { IfOk result
        (λ made. expression_view made.value ≡ converted_to scalar (expression_view expression)) }
{
    let typed = as_type(alloc, expression, scalar)?;
    Ok(Box::new(alloc, typed)?)
}

/// `(target := value)`
pub(crate) fn assignment(
    alloc: Global,
    target: TypedTarget,
    value: TypedExpression,
) -> Result<TypedExpression, Failure<Fault>>
    ensures view { Answers expression_view result
        (Ok (AssignmentNode (target_view target) (expression_view value))) }
{
    let target = Box::new(alloc, target)?;
    let value = Box::new(alloc, value)?;
    Ok(TypedExpression::Assignment { target, value })
}

/// An operator with one operand.
pub(crate) fn unary(
    alloc: Global,
    operator: UnaryOperator,
    operand: TypedExpression,
) -> Result<TypedExpression, Failure<Fault>>
    ensures view { Answers expression_view result (Ok (unary_node operator (expression_view operand))) }
{
    let scalar = operand.scalar();
    let operand = Box::new(alloc, operand)?;
    Ok(TypedExpression::Unary {
        scalar,
        operator,
        operand,
    })
}

/// An operator with two operands, which are extended as it needs them.
pub(crate) fn binary(
    alloc: Global,
    operator: BinaryOperator,
    left: TypedExpression,
    right: TypedExpression,
) -> Result<TypedExpression, Failure<Fault>>
    ensures view { Answers expression_view result
        (Ok (binary_node operator (expression_view left) (expression_view right))) }
{
    let operands = type_of_operands(operator, left.scalar(), right.scalar());
    let left = boxed_as_type(alloc, left, operands)?;
    let right = boxed_as_type(alloc, right, operands)?;
    Ok(TypedExpression::Binary {
        operands,
        operator,
        left,
        right,
    })
}

/// A call of a procedure with a result of a type. The arguments are of the types of its parameters.
#[tactic(auto, using(typed_trees::specs::declared::expression::TypedExpression::the_lemmas, typed_trees::proofs::Views::argument_rows_are))]
pub(crate) fn call(
    procedure: u32,
    scalar: ScalarType,
    arguments: Vec<TypedExpression>,
) -> TypedExpression
    ensures view { expression_view result ≡ CallNode procedure scalar (arguments_view arguments.items) }
{
    TypedExpression::Call {
        procedure,
        scalar,
        arguments,
    }
}

/// LOW, HIGH or DOUBLE.
pub(crate) fn function(
    alloc: Global,
    function: UnaryFunction,
    operand: TypedExpression,
) -> Result<TypedExpression, Failure<Fault>>
    ensures view { Answers expression_view result (Ok (FunctionNode function (expression_view operand))) }
{
    let operand = Box::new(alloc, operand)?;
    Ok(TypedExpression::Function { function, operand })
}

/// A shift or a rotation of a value by a count.
pub(crate) fn shift(
    alloc: Global,
    function: ShiftFunction,
    value: TypedExpression,
    count: TypedExpression,
) -> Result<TypedExpression, Failure<Fault>>
    ensures view { Answers expression_view result
        (Ok (shift_node function (expression_view value) (expression_view count))) }
{
    let scalar = type_of_shift(function, value.scalar());
    let value = boxed_as_type(alloc, value, scalar)?;
    let count = boxed_as_type(alloc, count, ScalarType::Byte)?;
    Ok(TypedExpression::Shift {
        scalar,
        function,
        value,
        count,
    })
}

/// INPUT of a port.
pub(crate) fn input(port: u8) -> TypedExpression
    ensures view { expression_view result ≡ InputNode port }
{
    TypedExpression::Input(port)
}

/// The target of a value of a type: a scalar, which gets a value of its own type, or a port.
pub fn target_of(destination: Destination, from: ScalarType) -> TypedTarget
    ensures view { target_view result ≡ target_for (destination_view destination) from }
{
    match destination {
        Destination::Variable {
            scalar: to,
            reference,
        } => TypedTarget::Stored {
            from,
            to,
            reference,
        },
        Destination::Port(port) => TypedTarget::Sent { from, port },
    }
}
