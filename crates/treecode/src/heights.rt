//! Heights of expressions, as the stack charge counts them; they saturate at 65,535.

ghost use Rattle.std.specs.Prelude.{◌≡◌};
ghost use Rattle.treecode.specs.internal.Nodes.{nodes_of};
ghost use Rattle.treecode.specs.internal.Traits.{height_at, height_of_argument, height_of_call, height_of_form, height_of_reference, height_of_subscript, height_of_target};

use crate::expression::{ExpressionForm, ExpressionNumber};
use crate::lists::Range;
use crate::module::TreeModule;
use crate::reference::{Reference, Subscript, Target};

// The height of an expression.
fn height(tree: &TreeModule, number: ExpressionNumber) -> u16
    ensures { result ≡ height_at (nodes_of tree.now) number }
{
    tree.traits(number).height
}

// The height of a subscript; 0 if absent.
fn height_of_subscript(tree: &TreeModule, subscript: Option<Subscript>) -> u16
    ensures { result ≡ height_of_subscript (nodes_of tree.now) subscript }
{
    match subscript {
        Some(subscript) => height(tree, subscript.index),
        None => 0,
    }
}

// The height of an object or a part of it.
fn height_of_reference(tree: &TreeModule, reference: &Reference) -> u16
    ensures { result ≡ height_of_reference (nodes_of tree.now) reference.now }
{
    height_of_subscript(tree, reference.subscript)
        .max(height_of_subscript(tree, reference.member_subscript))
        .saturating_add(1)
}

/// The height of a target.
pub(crate) fn height_of_target(tree: &TreeModule, target: &Target) -> u16
    ensures { result ≡ height_of_target (nodes_of tree.now) target.now }
{
    match target {
        Target::Stored { reference, .. } => height_of_reference(tree, reference),
        Target::Sent { .. } => 1,
    }
}

// The height of an argument; 0 if absent.
fn height_of_argument(tree: &TreeModule, argument: Option<ExpressionNumber>) -> u16
    ensures { result ≡ height_of_argument (nodes_of tree.now) argument }
{
    match argument {
        Some(argument) => height(tree, argument),
        None => 0,
    }
}

/// The height of a call with these arguments.
#[tactic(auto, using(crate::proofs::HighestArguments::highest_next))]
pub(crate) fn height_of_call(tree: &TreeModule, arguments: Range) -> u16
    ensures { result ≡ height_of_call (nodes_of tree.now) arguments }
{
    let mut highest: u16 = 0;
    for index in 0..arguments.count {
        highest = highest.max(height_of_argument(tree, tree.argument(arguments, index)));
    }
    u16::try_from(arguments.count)
        .unwrap_or(u16::MAX)
        .saturating_add(highest)
        .saturating_add(1)
}

/// The height of an expression of this form.
pub(crate) fn height_of(tree: &TreeModule, form: &ExpressionForm) -> u16
    ensures { result ≡ height_of_form (nodes_of tree.now) form.now }
{
    match form {
        ExpressionForm::Number(_) | ExpressionForm::List(_) => 1,
        ExpressionForm::Value(reference) | ExpressionForm::Location(reference) => {
            height_of_reference(tree, reference)
        }
        ExpressionForm::Conversion(inner) => height(tree, *inner),
        ExpressionForm::Assignment { target, value } => height_of_target(tree, target)
            .max(height(tree, *value))
            .saturating_add(1),
        ExpressionForm::Unary { operand, .. } => height(tree, *operand).saturating_add(1),
        ExpressionForm::Binary { left, right, .. } => height(tree, *left)
            .max(height(tree, *right))
            .saturating_add(1),
        ExpressionForm::Call { arguments, .. } => height_of_call(tree, *arguments),
        ExpressionForm::Function { operand, .. } => height(tree, *operand).saturating_add(2),
        ExpressionForm::Shift { value, count, .. } => height(tree, *value)
            .max(height(tree, *count))
            .saturating_add(3),
        ExpressionForm::Input(_) => 3,
    }
}
