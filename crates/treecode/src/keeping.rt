//! The registers that code keeps while it puts something into HL.

ghost use Rattle.std.specs.Prelude.{◌≡◌};
ghost use Rattle.treecode.specs.internal.Nodes.{nodes_of};
ghost use Rattle.treecode.specs.internal.Traits.{keeps_of, keeps_of_address, keeps_of_binary, keeps_of_byte, keeps_of_extended, keeps_of_shift, keeps_of_subscript, keeps_of_sum, keeps_of_value, keeps_with_base, number_at, traits_at};

use crate::expression::{ExpressionForm, ExpressionNumber};
use crate::known::place_of;
use crate::memory::memory_of;
use crate::module::TreeModule;
use crate::place::{Home, Location, Place};
use crate::reference::{Reference, Subscript};
use crate::traits::Keeps;
use trees::{BinaryOperator, ScalarType};
use typed_trees::ShiftFunction;

// The registers that the code of a computed subscript keeps. None if there is no subscript, or if it is a number, which
// goes into the offset.
fn keeps_of_subscript(tree: &TreeModule, subscript: Option<Subscript>) -> Option<Keeps>
    ensures { result ≡ keeps_of_subscript (nodes_of tree.now) subscript }
{
    let index = subscript?.index;
    match tree.number(index) {
        Some(_) => None,
        None => Some(tree.traits(index).keeps),
    }
}

// The registers that the code for the sum of up to two computed subscripts keeps. A sum of two needs DE for one of
// them.
fn keeps_of_sum(first: Option<Keeps>, second: Option<Keeps>) -> Keeps
    ensures { result ≡ keeps_of_sum first second }
{
    match (first, second) {
        (Some(first), Some(second)) => Keeps {
            a: first.a && second.a,
            de: false,
        },
        (Some(keeps), None) | (None, Some(keeps)) => keeps,
        (None, None) => Keeps::both(),
    }
}

// The registers that the code keeps which adds the address in a base to the computed subscripts, if there are any.
// These are in DE meanwhile. A base in a frame is loaded through A.
fn keeps_with_base(base: Location, is_computed: bool, keeps: Keeps) -> Keeps
    ensures { result ≡ keeps_with_base base is_computed keeps }
{
    let is_static = match base {
        Location::Static(_) => true,
        Location::Frame { .. } => false,
    };
    Keeps {
        a: keeps.a && is_static,
        de: keeps.de && !is_computed,
    }
}

/// The registers that the code putting the address of an object or a part of it into HL keeps.
pub fn keeps_of_address(tree: &TreeModule, reference: &Reference) -> Keeps
    ensures { result ≡ keeps_of_address (nodes_of tree.now) reference.now }
{
    let first = keeps_of_subscript(tree, reference.subscript);
    let second = keeps_of_subscript(tree, reference.member_subscript);
    let keeps = keeps_of_sum(first, second);
    match tree.home(reference.object) {
        Home::Static(_) | Home::Frame(_) => keeps,
        Home::Based(base) => {
            let is_computed = first.is_some() || second.is_some();
            keeps_with_base(base, is_computed, keeps)
        }
    }
}

// The registers that the code for the value of a scalar keeps. A word at a place that is not known is loaded through A.
fn keeps_of_value(tree: &TreeModule, scalar: ScalarType, reference: &Reference) -> Keeps
    ensures { result ≡ keeps_of_value (nodes_of tree.now) scalar reference.now }
{
    let keeps = keeps_of_address(tree, reference);
    match scalar {
        ScalarType::Byte => keeps,
        ScalarType::Address => Keeps {
            a: place_of(tree, reference).is_some(),
            de: keeps.de,
        },
    }
}

// The registers that the code putting the low byte of an expression into HL, zero-extended, keeps. A byte that is not
// in memory is loaded through A.
fn keeps_of_byte(tree: &TreeModule, form: &ExpressionForm) -> Keeps
    ensures { result ≡ keeps_of_byte (nodes_of tree.now) form.now }
{
    match memory_of(tree, *form) {
        Some(reference) => keeps_of_address(tree, &reference),
        None => Keeps::none(),
    }
}

// The registers that the code of an operand as an ADDRESS keeps. `form` is the form of the whole expression.
fn keeps_of_extended(tree: &TreeModule, form: &ExpressionForm, operand: ExpressionNumber) -> Keeps
    ensures { result
        ≡ keeps_of_extended (nodes_of tree.now) form.now (traits_at (nodes_of tree.now) operand) }
{
    let traits = tree.traits(operand);
    match traits.scalar {
        ScalarType::Byte => keeps_of_byte(tree, form),
        ScalarType::Address => traits.keeps,
    }
}

// The registers that the code of an operator on two ADDRESS values keeps. If one operand is a number, or is known and
// added, they are those that the code of the other one keeps.
fn keeps_of_binary(
    tree: &TreeModule,
    operator: BinaryOperator,
    left: ExpressionNumber,
    right: ExpressionNumber,
) -> Keeps
    ensures { result ≡ keeps_of_binary (nodes_of tree.now) operator left right }
{
    let first = tree.traits(left);
    let second = tree.traits(right);
    match operator {
        BinaryOperator::Add if second.known.is_some() => first.keeps,
        BinaryOperator::Add if first.known.is_some() => second.keeps,
        BinaryOperator::Multiply if tree.number(right).is_some() => first.keeps,
        BinaryOperator::Multiply if tree.number(left).is_some() => second.keeps,
        BinaryOperator::Subtract if tree.number(right).is_some() => first.keeps,
        _ => Keeps::none(),
    }
}

// The registers that the code of a shift of an ADDRESS keeps. For a shift left by less than 8, they are those that the
// code of the value keeps.
fn keeps_of_shift(
    tree: &TreeModule,
    function: ShiftFunction,
    value: ExpressionNumber,
    count: ExpressionNumber,
) -> Keeps
    ensures { result
        ≡ keeps_of_shift (nodes_of tree.now) function value (number_at (nodes_of tree.now) count) }
{
    match (function, tree.number(count)) {
        (ShiftFunction::ShiftLeft, Some(count)) if count < 8 => tree.traits(value).keeps,
        _ => Keeps::none(),
    }
}

/// The registers that the code putting the value of an expression into HL keeps, by its type and form.
pub(crate) fn keeps_of(
    tree: &TreeModule,
    scalar: ScalarType,
    known: Option<Place>,
    form: &ExpressionForm,
) -> Keeps
    ensures { result ≡ keeps_of (nodes_of tree.now) scalar known form.now }
{
    if known.is_some() {
        return Keeps::both();
    }
    match (form, scalar) {
        (ExpressionForm::Value(reference), _) => keeps_of_value(tree, scalar, reference),
        (ExpressionForm::Location(reference), _) => keeps_of_address(tree, reference),
        (ExpressionForm::Conversion(operand), ScalarType::Address)
        | (ExpressionForm::Function { operand, .. }, ScalarType::Address) => {
            keeps_of_extended(tree, form, *operand)
        }
        (ExpressionForm::Conversion(_) | ExpressionForm::Function { .. }, ScalarType::Byte) => {
            keeps_of_byte(tree, form)
        }
        (
            ExpressionForm::Binary {
                operator,
                left,
                right,
                ..
            },
            ScalarType::Address,
        ) => keeps_of_binary(tree, *operator, *left, *right),
        (
            ExpressionForm::Shift {
                function,
                value,
                count,
            },
            ScalarType::Address,
        ) => keeps_of_shift(tree, *function, *value, *count),
        _ => Keeps::none(),
    }
}
