//! Expressions with a low byte that is computed in A alone.

ghost use Rattle.std.specs.Prelude.{◌≡◌};
ghost use Rattle.treecode.specs.internal.Nodes.{nodes_of};
ghost use Rattle.treecode.specs.internal.Traits.{has_immediate, is_direct, is_free_of, is_free_with, is_of_low_byte};

use crate::expression::{ExpressionForm, ExpressionNumber};
use crate::known::place_of;
use crate::memory::memory_of;
use crate::module::TreeModule;
use crate::place::Place;
use trees::{BinaryOperator, ByteOfValue, ScalarType};
use typed_trees::ShiftFunction;

// Whether the low byte of an expression of this form is in memory at a known place.
fn is_direct(tree: &TreeModule, form: &ExpressionForm) -> bool
    ensures { result ≡ is_direct (nodes_of tree.now) form.now }
{
    match memory_of(tree, *form) {
        Some(reference) => place_of(tree, &reference).is_some(),
        None => false,
    }
}

// Whether an operator has an instruction with an immediate operand.
fn has_immediate(operator: BinaryOperator) -> bool
    ensures { result ≡ has_immediate operator }
{
    match operator {
        BinaryOperator::Or
        | BinaryOperator::Xor
        | BinaryOperator::And
        | BinaryOperator::Add
        | BinaryOperator::Subtract => true,
        BinaryOperator::Equal
        | BinaryOperator::Less
        | BinaryOperator::Greater
        | BinaryOperator::LessOrEqual
        | BinaryOperator::GreaterOrEqual
        | BinaryOperator::Unequal
        | BinaryOperator::Multiply
        | BinaryOperator::Divide
        | BinaryOperator::Modulo => false,
    }
}

// Whether a shift by a number needs only the low byte of a value of this type.
fn is_of_low_byte(scalar: ScalarType, function: ShiftFunction) -> bool
    ensures { result ≡ is_of_low_byte scalar function }
{
    match (function, scalar) {
        (ShiftFunction::ShiftRight, ScalarType::Address) => false,
        _ => true,
    }
}

// Whether the low byte of an operation is computed in A alone: that of its left operand is, and its right operand is a
// number.
fn is_free_with(tree: &TreeModule, left: ExpressionNumber, right: ExpressionNumber) -> bool
    ensures { result ≡ is_free_with (nodes_of tree.now) left right }
{
    tree.traits(left).is_free && tree.number(right).is_some()
}

/// Whether code that changes only A and the flags can put the low byte of an expression into A. Such expressions are a
/// number, a byte at a known place and INPUT. Over these, so are NOT, `-`, the operators + - AND OR XOR with a number
/// on the right, and shifts of the low byte by a number.
pub(crate) fn is_free(
    tree: &TreeModule,
    scalar: ScalarType,
    known: Option<Place>,
    form: &ExpressionForm,
) -> bool
    ensures { result ≡ is_free_of (nodes_of tree.now) scalar known form.now }
{
    if let Some(place) = known {
        return place.number().is_some();
    }
    match form {
        ExpressionForm::Input(_) => true,
        ExpressionForm::Conversion(operand) | ExpressionForm::Unary { operand, .. } => {
            tree.traits(*operand).is_free
        }
        ExpressionForm::Value(_) => is_direct(tree, form),
        ExpressionForm::Function { function, operand } => match function.byte_taken() {
            ByteOfValue::LowByte => tree.traits(*operand).is_free,
            ByteOfValue::HighByte => is_direct(tree, form),
        },
        ExpressionForm::Binary {
            operator,
            left,
            right,
            ..
        } => has_immediate(*operator) && is_free_with(tree, *left, *right),
        ExpressionForm::Shift {
            function,
            value,
            count,
        } => is_of_low_byte(scalar, *function) && is_free_with(tree, *value, *count),
        ExpressionForm::Number(_)
        | ExpressionForm::Location(_)
        | ExpressionForm::List(_)
        | ExpressionForm::Assignment { .. }
        | ExpressionForm::Call { .. } => false,
    }
}
