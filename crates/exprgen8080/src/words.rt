//! Code that puts values into HL.

ghost use Rattle.std.specs.Prelude.{OnOk};
ghost use Rattle.steps8080.specs.internal.Step.{Adds};
ghost use Rattle.exprgen8080.specs.internal.Words.{extended_byte_steps, word_form_steps, word_of_two_steps, word_steps, word_unary_steps};

use crate::byte_operators::Operands;
use crate::byte_shifts::Shifted;
use crate::bytes::plan_embedded;
use crate::calls::plan_call;
use crate::word_operators::plan_word_binary;
use crate::word_shifts::plan_word_shift;
use isa8080::{Instr, Operation, Register};
use operands8080::{plan_extended_byte_in_memory, plan_location_address, plan_word_in_memory};
use std::alloc::AllocError;
use steps8080::{Site, Steps, Task, clear_a, copy, plan_extension, set, with_register};
use treecode::{ExpressionForm, ExpressionNumber, Location};
use trees::{ScalarType, UnaryOperator};

// Replaces the word in HL by NOT or `-` of it.
#[tactic(auto, unfolding(crate::specs::internal::Words::word_unary_steps))]
fn plan_word_unary(operator: UnaryOperator, steps: &mut Steps) -> Result<(), AllocError>
    ensures { OnOk result (Adds steps.old steps.new (word_unary_steps operator)) }
{
    match operator {
        UnaryOperator::Not => steps.all(&[
            copy(Register::A, Register::L),
            Instr::Cma,
            copy(Register::L, Register::A),
            copy(Register::A, Register::H),
            Instr::Cma,
            copy(Register::H, Register::A),
        ]),
        UnaryOperator::Negate => steps.all(&[
            clear_a(),
            with_register(Operation::Subtract, Register::L),
            copy(Register::L, Register::A),
            set(Register::A, 0),
            with_register(Operation::SubtractWithBorrow, Register::H),
            copy(Register::H, Register::A),
        ]),
    }
}

// Puts the value of a BYTE expression into HL.
#[tactic(auto, unfolding(crate::specs::internal::Words::extended_byte_steps))]
fn plan_extended_byte(
    site: &Site<'_>,
    number: ExpressionNumber,
    pushed: u16,
    steps: &mut Steps,
) -> Result<(), AllocError>
    ensures { OnOk result (Adds steps.old steps.new (extended_byte_steps site.now number pushed)) }
{
    if let Some(reference) = site.memory(number) {
        return plan_extended_byte_in_memory(site, &reference, pushed, steps);
    }
    steps.part(Task::Byte(number), pushed)?;
    plan_extension(steps)
}

// Puts the result of an operator with two ADDRESS operands, or of a shift of an ADDRESS, into HL. It is not called with
// other forms.
#[tactic(auto, unfolding(crate::specs::internal::Words::word_of_two_steps))]
fn plan_word_of_two(
    site: &Site<'_>,
    form: ExpressionForm,
    pushed: u16,
    steps: &mut Steps,
) -> Result<(), AllocError>
    ensures { OnOk result (Adds steps.old steps.new (word_of_two_steps site.now form pushed)) }
{
    match form {
        ExpressionForm::Binary {
            operands: _,
            operator,
            left,
            right,
        } => plan_word_binary(site, operator, Operands { left, right }, pushed, steps),
        ExpressionForm::Shift {
            function,
            value,
            count,
        } => {
            let shifted = Shifted {
                function,
                value,
                count,
            };
            plan_word_shift(site, shifted, pushed, steps)
        }
        _ => Ok(()),
    }
}

// Puts the value of an ADDRESS expression that is not known into HL. A function that gives an ADDRESS gives its operand.
#[tactic(auto, unfolding(crate::specs::internal::Words::word_form_steps))]
fn plan_word_form(
    site: &Site<'_>,
    form: ExpressionForm,
    pushed: u16,
    steps: &mut Steps,
) -> Result<(), AllocError>
    ensures { OnOk result (Adds steps.old steps.new (word_form_steps site.now form pushed)) }
{
    match form {
        ExpressionForm::Value(reference) => plan_word_in_memory(site, &reference, pushed, steps),
        ExpressionForm::Location(reference) => steps.part(Task::Address(reference), pushed),
        ExpressionForm::Conversion(inner) => steps.part(Task::Word(inner), pushed),
        ExpressionForm::Function { operand, .. } => steps.part(Task::Word(operand), pushed),
        ExpressionForm::Unary { operator, operand } => {
            steps.part(Task::Word(operand), pushed)?;
            plan_word_unary(operator, steps)
        }
        ExpressionForm::Binary { .. } | ExpressionForm::Shift { .. } => {
            plan_word_of_two(site, form, pushed, steps)
        }
        ExpressionForm::Assignment { target, value } => {
            plan_embedded(target, value, true, pushed, steps)
        }
        ExpressionForm::Call {
            procedure,
            arguments,
        } => plan_call(site, procedure, arguments, pushed, steps),
        ExpressionForm::Number(_) | ExpressionForm::List(_) | ExpressionForm::Input(_) => Ok(()),
    }
}

/// Puts the value of an expression into HL; a BYTE is zero-extended.
#[tactic(auto, unfolding(crate::specs::internal::Words::word_steps, crate::specs::internal::Words::computed_word_steps))]
pub(crate) fn plan_word(
    site: &Site<'_>,
    number: ExpressionNumber,
    pushed: u16,
    steps: &mut Steps,
) -> Result<(), AllocError>
    ensures { OnOk result (Adds steps.old steps.new (word_steps site.now number pushed)) }
{
    if let Some(place) = site.known(number) {
        return plan_location_address(site, Location::Static(place), pushed, steps);
    }
    match site.expression(number) {
        Some(expression) => match expression.traits.scalar {
            ScalarType::Byte => plan_extended_byte(site, number, pushed, steps),
            ScalarType::Address => plan_word_form(site, expression.form, pushed, steps),
        },
        None => Ok(()),
    }
}
