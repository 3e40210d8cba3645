//! The effects of evaluating an expression.

ghost use Rattle.std.specs.Prelude.{◌≡◌, ◌&&◌};
ghost use Rattle.treecode.specs.internal.Nodes.{nodes_of};
ghost use Rattle.treecode.specs.internal.Traits.{is_quiet_form, quiet_at, reference_is_quiet, reference_stores_nothing, stores_nothing_in_form, storing_nothing_at, subscript_is_quiet, subscript_stores_nothing};

use crate::expression::{ExpressionForm, ExpressionNumber};
use crate::module::TreeModule;
use crate::reference::{Reference, Subscript};

// Whether evaluating a subscript, if there is one, changes nothing.
fn subscript_is_quiet(tree: &TreeModule, subscript: Option<Subscript>) -> bool
    ensures { result ≡ subscript_is_quiet (nodes_of tree.now) subscript }
{
    match subscript {
        Some(subscript) => tree.traits(subscript.index).is_quiet,
        None => true,
    }
}

// Whether a subscript, if there is one, calls nothing and stores nothing.
fn subscript_stores_nothing(tree: &TreeModule, subscript: Option<Subscript>) -> bool
    ensures { result ≡ subscript_stores_nothing (nodes_of tree.now) subscript }
{
    match subscript {
        Some(subscript) => tree.traits(subscript.index).stores_nothing,
        None => true,
    }
}

// Whether computing the address of an object or a part of it changes nothing.
fn reference_is_quiet(tree: &TreeModule, reference: &Reference) -> bool
    ensures { result ≡ reference_is_quiet (nodes_of tree.now) reference.now }
{
    subscript_is_quiet(tree, reference.subscript)
        && subscript_is_quiet(tree, reference.member_subscript)
}

// Whether computing the address of an object or a part of it calls nothing and stores nothing.
fn reference_stores_nothing(tree: &TreeModule, reference: &Reference) -> bool
    ensures { result ≡ reference_stores_nothing (nodes_of tree.now) reference.now }
{
    subscript_stores_nothing(tree, reference.subscript)
        && subscript_stores_nothing(tree, reference.member_subscript)
}

// Whether evaluating two expressions changes nothing.
fn are_quiet(tree: &TreeModule, first: ExpressionNumber, second: ExpressionNumber) -> bool
    ensures { result ≡ (quiet_at (nodes_of tree.now) first && quiet_at (nodes_of tree.now) second) }
{
    tree.traits(first).is_quiet && tree.traits(second).is_quiet
}

// Whether two expressions call nothing and store nothing.
fn store_nothing(tree: &TreeModule, first: ExpressionNumber, second: ExpressionNumber) -> bool
    ensures { result
        ≡ (storing_nothing_at (nodes_of tree.now) first && storing_nothing_at (nodes_of tree.now) second) }
{
    tree.traits(first).stores_nothing && tree.traits(second).stores_nothing
}

/// Whether evaluating an expression of this form changes nothing: it calls nothing, stores nothing and reads no port.
pub(crate) fn is_quiet(tree: &TreeModule, form: &ExpressionForm) -> bool
    ensures { result ≡ is_quiet_form (nodes_of tree.now) form.now }
{
    match form {
        ExpressionForm::Number(_) | ExpressionForm::List(_) => true,
        ExpressionForm::Value(reference) | ExpressionForm::Location(reference) => {
            reference_is_quiet(tree, reference)
        }
        ExpressionForm::Conversion(operand)
        | ExpressionForm::Unary { operand, .. }
        | ExpressionForm::Function { operand, .. } => tree.traits(*operand).is_quiet,
        ExpressionForm::Binary { left, right, .. } => are_quiet(tree, *left, *right),
        ExpressionForm::Shift { value, count, .. } => are_quiet(tree, *value, *count),
        ExpressionForm::Assignment { .. }
        | ExpressionForm::Call { .. }
        | ExpressionForm::Input(_) => false,
    }
}

/// Whether an expression of this form calls nothing and stores nothing.
pub(crate) fn stores_nothing(tree: &TreeModule, form: &ExpressionForm) -> bool
    ensures { result ≡ stores_nothing_in_form (nodes_of tree.now) form.now }
{
    match form {
        ExpressionForm::Number(_) | ExpressionForm::List(_) | ExpressionForm::Input(_) => true,
        ExpressionForm::Value(reference) | ExpressionForm::Location(reference) => {
            reference_stores_nothing(tree, reference)
        }
        ExpressionForm::Conversion(operand)
        | ExpressionForm::Unary { operand, .. }
        | ExpressionForm::Function { operand, .. } => tree.traits(*operand).stores_nothing,
        ExpressionForm::Binary { left, right, .. } => store_nothing(tree, *left, *right),
        ExpressionForm::Shift { value, count, .. } => store_nothing(tree, *value, *count),
        ExpressionForm::Assignment { .. } | ExpressionForm::Call { .. } => false,
    }
}
