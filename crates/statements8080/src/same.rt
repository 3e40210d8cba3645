//! References to the same place, found by a simple comparison.

ghost use Rattle.std.specs.Prelude.{◌≡◌};
ghost use Rattle.statements8080.specs.internal.SamePlaces.{are_same, are_same_leaf, are_same_scalar, are_same_subscript, are_same_subscripts, scalar_at, unconverted};

use exprgen8080::Site;
use treecode::{ExpressionForm, ExpressionNumber, Location, Reference, Subscript};
use trees::ScalarType;

// The location and the type of the scalar that an expression reads, if it reads one without a base and computed
// subscripts.
fn scalar_at(site: &Site<'_>, number: ExpressionNumber) -> Option<(Location, ScalarType)>
    ensures { result ≡ scalar_at site.now number }
{
    match site.expression(number) {
        Some(expression) => match expression.form {
            ExpressionForm::Value(reference) => match site.location_of(&reference) {
                Some(location) => Some((location, expression.traits.scalar)),
                None => None,
            },
            _ => None,
        },
        None => None,
    }
}

// Whether two expressions read the same scalar.
fn are_same_scalar(site: &Site<'_>, left: ExpressionNumber, right: ExpressionNumber) -> bool
    ensures { result ≡ are_same_scalar site.now left right }
{
    let (Some((left, left_type)), Some((right, right_type))) = (
        scalar_at(site, left),
        scalar_at(site, right),
    ) else {
        return false;
    };
    match (left_type, right_type) {
        (ScalarType::Byte, ScalarType::Byte) | (ScalarType::Address, ScalarType::Address) => {
            left == right
        }
        _ => false,
    }
}

// Whether two expressions are the same number or read the same scalar.
fn are_same_leaf(site: &Site<'_>, left: ExpressionNumber, right: ExpressionNumber) -> bool
    ensures { result ≡ are_same_leaf site.now left right }
{
    match (site.number(left), site.number(right)) {
        (Some(left), Some(right)) => left == right,
        _ => are_same_scalar(site, left, right),
    }
}

// An expression without the conversion around it, if there is one.
fn unconverted(site: &Site<'_>, number: ExpressionNumber) -> ExpressionNumber
    ensures { result ≡ unconverted site.now number }
{
    match site.expression(number) {
        Some(expression) => match expression.form {
            ExpressionForm::Conversion(inner) => inner,
            _ => number,
        },
        None => number,
    }
}

// Whether two subscripts are the same number, or read the same scalar, which may be converted.
fn are_same_subscript(site: &Site<'_>, left: Subscript, right: Subscript) -> bool
    ensures { result ≡ are_same_subscript site.now left right }
{
    left.stride == right.stride
        && (are_same_leaf(site, left.index, right.index)
            || are_same_scalar(
                site,
                unconverted(site, left.index),
                unconverted(site, right.index),
            ))
}

// Whether two optional subscripts are the same.
fn are_same_subscripts(site: &Site<'_>, left: Option<Subscript>, right: Option<Subscript>) -> bool
    ensures { result ≡ are_same_subscripts site.now left right }
{
    match (left, right) {
        (None, None) => true,
        (Some(left), Some(right)) => are_same_subscript(site, left, right),
        _ => false,
    }
}

/// Whether two references have the same place, and computing its address changes nothing: both have the same numbers or
/// scalars as subscripts.
pub fn are_same(site: &Site<'_>, left: &Reference, right: &Reference) -> bool
    ensures { result ≡ are_same site.now left.now right.now }
{
    left.object == right.object
        && left.offset == right.offset
        && are_same_subscripts(site, left.subscript, right.subscript)
        && are_same_subscripts(site, left.member_subscript, right.member_subscript)
}
