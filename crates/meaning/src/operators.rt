//! Operators on values.

ghost use Rattle.std.specs.Prelude.{◌≡◌, ◌+◌, ◌-◌, ◌*◌, ◌%◌, ◌==◌, if◌then◌else◌, Some, None, ◌/◌};
ghost use Rattle.meaning.specs.Values.{as_type, function_of, is_true, result_of, result_of_one, truth, values_of};

use trees::{BinaryOperator, ScalarType, UnaryFunction, UnaryOperator};

/// How many values a type has.
#[inline(always)]
pub fn values(scalar: ScalarType) -> u32
    ensures { result ≡ values_of scalar }
{
    match scalar {
        ScalarType::Byte => 256,
        ScalarType::Address => 65536,
    }
}

/// A value as one of a type: of an ADDRESS that becomes a BYTE the low byte stays.
#[inline(always)]
pub fn convert(scalar: ScalarType, number: u16) -> u16
    ensures { result ≡ as_type scalar number }
{
    match scalar {
        ScalarType::Byte => number % 256,
        ScalarType::Address => number,
    }
}

/// Whether a condition is true, by its lowest bit.
#[inline(always)]
pub fn holds(number: u16) -> bool
    ensures { result ≡ is_true number }
{
    number % 2 == 1
}

/// NOT and `-` before an operand of a type.
#[inline(always)]
pub fn unary(scalar: ScalarType, operator: UnaryOperator, operand: u16) -> u16
    ensures { result ≡ result_of_one scalar operator operand }
{
    match operator {
        UnaryOperator::Not => complement(scalar, operand),
        UnaryOperator::Negate => difference(scalar, 0, operand),
    }
}

/// LOW, HIGH or DOUBLE of an operand.
#[inline(always)]
pub fn unary_function(function: UnaryFunction, operand: u16) -> u16
    ensures { result ≡ function_of function operand }
{
    match function {
        UnaryFunction::Low => operand % 256,
        UnaryFunction::High => operand / 256,
        UnaryFunction::Double => operand,
    }
}

/// The result of an operator on operands of a type, or `None`: there is no quotient and no remainder by 0.
#[inline(always)]
pub fn binary(operands: ScalarType, operator: BinaryOperator, left: u16, right: u16) -> Option<u16>
    ensures { result ≡ result_of operands operator left right }
{
    match operator {
        BinaryOperator::Or => Some(left | right),
        BinaryOperator::Xor => Some(left ^ right),
        BinaryOperator::And => Some(left & right),
        BinaryOperator::Equal => Some(truth(left == right)),
        BinaryOperator::Less => Some(truth(left < right)),
        BinaryOperator::Greater => Some(truth(left > right)),
        BinaryOperator::LessOrEqual => Some(truth(left <= right)),
        BinaryOperator::GreaterOrEqual => Some(truth(left >= right)),
        BinaryOperator::Unequal => Some(truth(left != right)),
        BinaryOperator::Add => Some(wrapped(operands, left as u32 + right as u32)),
        BinaryOperator::Subtract => Some(difference(operands, left, right)),
        BinaryOperator::Multiply => Some(wrapped(operands, left as u32 * right as u32)),
        BinaryOperator::Divide => quotient(left, right),
        BinaryOperator::Modulo => remainder(left, right),
    }
}

// The result of a comparison.
#[inline(always)]
fn truth(holds: bool) -> u16
    ensures { result ≡ truth holds }
{
    if holds { 255 } else { 0 }
}

// A number as a value of a type.
#[inline(always)]
pub fn wrapped(scalar: ScalarType, number: u32) -> u16
    ensures { result ≡ number % values_of scalar }
{
    match scalar {
        ScalarType::Byte => (number % 256) as u16,
        ScalarType::Address => (number % 65536) as u16,
    }
}

// NOT: each bit of the type changes.
#[inline(always)]
fn complement(scalar: ScalarType, operand: u16) -> u16
    ensures { result ≡ (values_of scalar - 1) - operand }
{
    match scalar {
        ScalarType::Byte => 255_u16.saturating_sub(operand),
        ScalarType::Address => 65535 - operand,
    }
}

// A difference as a value of a type.
#[inline(always)]
fn difference(scalar: ScalarType, left: u16, right: u16) -> u16
    ensures { result ≡ (left + (values_of scalar - right)) % values_of scalar }
{
    wrapped(
        scalar,
        left as u32 + values(scalar).saturating_sub(right as u32),
    )
}

#[inline(always)]
fn quotient(left: u16, right: u16) -> Option<u16>
    ensures { result ≡ (if right == 0 then None else Some (left / right)) }
{
    if right == 0 { None } else { Some(left / right) }
}

#[inline(always)]
fn remainder(left: u16, right: u16) -> Option<u16>
    ensures { result ≡ (if right == 0 then None else Some (left % right)) }
{
    if right == 0 { None } else { Some(left % right) }
}
