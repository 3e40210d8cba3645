//! Expressions with a low byte that is in memory.

ghost use Rattle.std.specs.Prelude.{◌≡◌};
ghost use Rattle.treecode.specs.internal.Nodes.{nodes_of};
ghost use Rattle.treecode.specs.internal.Traits.{high_in_memory, memory_of_form, same_low_byte};

use crate::expression::{ExpressionForm, ExpressionNumber};
use crate::module::TreeModule;
use crate::reference::Reference;
use trees::{ByteOfValue, ScalarType};

// The form of the operand of a conversion, or of a function that takes its low byte, which has the same low byte; else
// the form itself.
fn same_low_byte(tree: &TreeModule, form: ExpressionForm) -> ExpressionForm
    ensures { result ≡ same_low_byte (nodes_of tree.now) form }
{
    let inner = match form {
        ExpressionForm::Conversion(inner) => inner,
        ExpressionForm::Function { function, operand } => match function.byte_taken() {
            ByteOfValue::LowByte => operand,
            ByteOfValue::HighByte => return form,
        },
        _ => return form,
    };
    match tree.expression(inner) {
        Some(expression) => expression.form,
        None => form,
    }
}

// The part of memory that holds the high byte of an expression, if any.
fn high_in_memory(tree: &TreeModule, operand: ExpressionNumber) -> Option<Reference>
    ensures { result ≡ high_in_memory (nodes_of tree.now) operand }
{
    let expression = tree.expression(operand)?;
    match (expression.form, expression.traits.scalar) {
        (ExpressionForm::Value(reference), ScalarType::Address) => Some(Reference {
            offset: reference.offset.wrapping_add(1),
            ..reference
        }),
        _ => None,
    }
}

/// The part of memory that holds the low byte of an expression of this form, if it is a scalar, or a conversion or a
/// function of one.
pub(crate) fn memory_of(tree: &TreeModule, form: ExpressionForm) -> Option<Reference>
    ensures { result ≡ memory_of_form (nodes_of tree.now) form }
{
    match same_low_byte(tree, same_low_byte(tree, form)) {
        ExpressionForm::Value(reference) => Some(reference),
        ExpressionForm::Function { function, operand } => match function.byte_taken() {
            ByteOfValue::LowByte => None,
            ByteOfValue::HighByte => high_in_memory(tree, operand),
        },
        _ => None,
    }
}
