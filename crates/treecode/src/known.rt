//! Values that are known as numbers or relocatable addresses.

ghost use Rattle.std.specs.Prelude.{◌≡◌};
ghost use Rattle.std.specs.Option.{option_and_then};
ghost use Rattle.treecode.specs.internal.Known.{converted_place, function_of_place, result_of_known, result_of_place};
ghost use Rattle.treecode.specs.internal.Nodes.{nodes_of};
ghost use Rattle.treecode.specs.internal.Traits.{distance_of, known_at, known_of, place_of_reference};

use crate::expression::{ExpressionForm, ExpressionNumber};
use crate::module::TreeModule;
use crate::place::{Home, Place};
use crate::reference::{Reference, Subscript};
use meaning::{binary, convert, shift, unary, unary_function};
use trees::{BinaryOperator, ScalarType, UnaryFunction};

/// The number of bytes that a subscript, if there is one, adds to an address, modulo 65536, if known.
pub(crate) fn known_distance(tree: &TreeModule, subscript: Option<Subscript>) -> Option<u16>
    ensures { result ≡ distance_of (nodes_of tree.now) subscript }
{
    match subscript {
        Some(subscript) => {
            let index = tree.number(subscript.index)?;
            Some(index.wrapping_mul(subscript.stride))
        }
        None => Some(0),
    }
}

/// The place in memory of an object or a part of it, if that place is known.
pub(crate) fn place_of(tree: &TreeModule, reference: &Reference) -> Option<Place>
    ensures { result ≡ place_of_reference (nodes_of tree.now) reference.now }
{
    let first = known_distance(tree, reference.subscript)?;
    let second = known_distance(tree, reference.member_subscript)?;
    match tree.home(reference.object) {
        Home::Static(place) => Some(place.after(reference.offset).after(first).after(second)),
        Home::Based(_) | Home::Frame(_) => None,
    }
}

// A known value converted to a type. The low byte of a relocatable address is not known.
fn converted(scalar: ScalarType, known: Option<Place>) -> Option<Place>
    ensures { result ≡ option_and_then (converted_place scalar) known }
{
    match (scalar, known?) {
        (_, Place::Number(number)) => Some(Place::Number(convert(scalar, number))),
        (ScalarType::Address, place) => Some(place),
        (ScalarType::Byte, _) => None,
    }
}

// The result of a function of one known value.
fn function_value(function: UnaryFunction, known: Option<Place>) -> Option<Place>
    ensures { result ≡ option_and_then (function_of_place function) known }
{
    match (function.scalar(), known?) {
        (_, Place::Number(number)) => Some(Place::Number(unary_function(function, number))),
        (ScalarType::Address, place) => Some(place),
        (ScalarType::Byte, _) => None,
    }
}

// The result of an operator on two known ADDRESS values.
fn place_value(operator: BinaryOperator, left: Place, right: Place) -> Option<Place>
    ensures { result ≡ result_of_place operator left right }
{
    match (operator, left, right) {
        (BinaryOperator::Add, place, Place::Number(distance))
        | (BinaryOperator::Add, Place::Number(distance), place) => Some(place.after(distance)),
        (BinaryOperator::Subtract, place, Place::Number(distance)) => {
            Some(place.after(0_u16.wrapping_sub(distance)))
        }
        _ => None,
    }
}

// The result of an operator on two known values.
fn binary_value(
    operands: ScalarType,
    operator: BinaryOperator,
    left: Option<Place>,
    right: Option<Place>,
) -> Option<Place>
    ensures { result ≡ result_of_known operands operator left right }
{
    match (left?, right?) {
        (Place::Number(left), Place::Number(right)) => {
            let number = binary(operands, operator, left, right)?;
            Some(Place::Number(number))
        }
        (left, right) => place_value(operator, left, right),
    }
}

// The known value of an expression.
fn known(tree: &TreeModule, number: ExpressionNumber) -> Option<Place>
    ensures { result ≡ known_at (nodes_of tree.now) number }
{
    tree.traits(number).known
}

/// The value of an expression of this type and form, if it is known as a number or a relocatable address. It is exact
/// in that type.
pub(crate) fn known_value(
    tree: &TreeModule,
    scalar: ScalarType,
    form: &ExpressionForm,
) -> Option<Place>
    ensures { result ≡ known_of (nodes_of tree.now) scalar form.now }
{
    match form {
        ExpressionForm::Number(number) => Some(Place::Number(*number)),
        ExpressionForm::Location(reference) => place_of(tree, reference),
        ExpressionForm::List(offset) => Some(Place::Code(*offset)),
        ExpressionForm::Conversion(inner) => converted(scalar, known(tree, *inner)),
        ExpressionForm::Unary { operator, operand } => {
            let operand = tree.number(*operand)?;
            Some(Place::Number(unary(scalar, *operator, operand)))
        }
        ExpressionForm::Binary {
            operands,
            operator,
            left,
            right,
        } => binary_value(
            *operands,
            *operator,
            known(tree, *left),
            known(tree, *right),
        ),
        ExpressionForm::Function { function, operand } => {
            function_value(*function, known(tree, *operand))
        }
        ExpressionForm::Shift {
            function,
            value,
            count,
        } => {
            let value = tree.number(*value)?;
            let count = tree.number(*count)?;
            Some(Place::Number(shift(scalar, *function, value, count)))
        }
        ExpressionForm::Value(_)
        | ExpressionForm::Assignment { .. }
        | ExpressionForm::Call { .. }
        | ExpressionForm::Input(_) => None,
    }
}
