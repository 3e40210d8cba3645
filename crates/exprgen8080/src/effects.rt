//! Expressions that are evaluated for their effects.

ghost use Rattle.std.specs.Prelude.{OnOk};
ghost use Rattle.steps8080.specs.internal.Step.{Adds};
ghost use Rattle.exprgen8080.specs.internal.Effects.{both_effects_steps, effects_steps, form_effects_steps, reference_effects_steps, subscript_effects_steps};

use crate::bytes::plan_embedded;
use crate::calls::plan_call;
use isa8080::Instr;
use std::alloc::AllocError;
use steps8080::{Site, Steps, Task};
use treecode::{ExpressionForm, ExpressionNumber, Reference, Subscript};

// The effects of a subscript, if there is one.
#[tactic(auto, unfolding(crate::specs::internal::Effects::subscript_effects_steps))]
fn plan_subscript_effects(
    subscript: Option<Subscript>,
    pushed: u16,
    steps: &mut Steps,
) -> Result<(), AllocError>
    ensures { OnOk result (Adds steps.old steps.new (subscript_effects_steps subscript pushed)) }
{
    match subscript {
        Some(subscript) => steps.part(Task::Effects(subscript.index), pushed),
        None => Ok(()),
    }
}

// The effects of the subscripts of an object or a part of it.
#[tactic(auto, unfolding(crate::specs::internal::Effects::reference_effects_steps))]
fn plan_reference_effects(
    reference: &Reference,
    pushed: u16,
    steps: &mut Steps,
) -> Result<(), AllocError>
    ensures { OnOk result (Adds steps.old steps.new (reference_effects_steps reference.now pushed)) }
{
    plan_subscript_effects(reference.subscript, pushed, steps)?;
    plan_subscript_effects(reference.member_subscript, pushed, steps)
}

// The effects of two expressions.
#[tactic(auto, unfolding(crate::specs::internal::Effects::both_effects_steps))]
fn plan_both_effects(
    first: ExpressionNumber,
    second: ExpressionNumber,
    pushed: u16,
    steps: &mut Steps,
) -> Result<(), AllocError>
    ensures { OnOk result (Adds steps.old steps.new (both_effects_steps first second pushed)) }
{
    steps.part(Task::Effects(first), pushed)?;
    steps.part(Task::Effects(second), pushed)
}

// The effects of an expression of this form.
#[tactic(auto, unfolding(crate::specs::internal::Effects::form_effects_steps))]
fn plan_form_effects(
    site: &Site<'_>,
    form: ExpressionForm,
    pushed: u16,
    steps: &mut Steps,
) -> Result<(), AllocError>
    ensures { OnOk result (Adds steps.old steps.new (form_effects_steps site.now form pushed)) }
{
    match form {
        ExpressionForm::Number(_) | ExpressionForm::List(_) => Ok(()),
        ExpressionForm::Value(reference) | ExpressionForm::Location(reference) => {
            plan_reference_effects(&reference, pushed, steps)
        }
        ExpressionForm::Conversion(operand)
        | ExpressionForm::Unary { operand, .. }
        | ExpressionForm::Function { operand, .. } => steps.part(Task::Effects(operand), pushed),
        ExpressionForm::Binary { left, right, .. } => {
            plan_both_effects(left, right, pushed, steps)
        }
        ExpressionForm::Shift { value, count, .. } => {
            plan_both_effects(value, count, pushed, steps)
        }
        ExpressionForm::Assignment { target, value } => {
            plan_embedded(target, value, false, pushed, steps)
        }
        ExpressionForm::Call {
            procedure,
            arguments,
        } => plan_call(site, procedure, arguments, pushed, steps),
        ExpressionForm::Input(port) => steps.plain(Instr::In(port)),
    }
}

/// The effects of an expression, without its value.
#[tactic(auto, unfolding(crate::specs::internal::Effects::effects_steps))]
pub(crate) fn plan_effects(
    site: &Site<'_>,
    number: ExpressionNumber,
    pushed: u16,
    steps: &mut Steps,
) -> Result<(), AllocError>
    ensures { OnOk result (Adds steps.old steps.new (effects_steps site.now number pushed)) }
{
    match site.expression(number) {
        Some(expression) => {
            if expression.traits.is_quiet {
                return Ok(());
            }
            plan_form_effects(site, expression.form, pushed, steps)
        }
        None => Ok(()),
    }
}
