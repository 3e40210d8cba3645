//! Code that puts low bytes of values into A.

ghost use Rattle.std.specs.Prelude.{OnOk};
ghost use Rattle.steps8080.specs.internal.Step.{Adds};
ghost use Rattle.exprgen8080.specs.internal.Bytes.{byte_form_steps, byte_function_steps, byte_of_two_steps, byte_steps, byte_unary_steps, called_byte_steps, embedded_steps, known_byte_steps, low_of_value_steps};

use crate::byte_operators::{Operands, plan_byte_binary};
use crate::byte_shifts::{Shifted, plan_byte_shift};
use crate::calls::plan_call;
use crate::halves::{plan_byte_number, plan_high_byte};
use asm8080::WordForm;
use isa8080::{Instr, Operand, Pair, Register};
use operands8080::plan_byte_in_memory;
use std::alloc::AllocError;
use steps8080::{Site, Steps, Task, copy, low};
use treecode::{ExpressionForm, ExpressionNumber, Place, Range, Target};
use trees::{ByteOfValue, ScalarType, UnaryFunction, UnaryOperator};

// Puts the low byte of a known value into A.
#[tactic(auto, unfolding(crate::specs::internal::Bytes::known_byte_steps))]
fn plan_known_byte(place: Place, steps: &mut Steps) -> Result<(), AllocError>
    ensures { OnOk result (Adds steps.old steps.new (known_byte_steps place)) }
{
    match place.number() {
        Some(number) => plan_byte_number(low(number), steps),
        None => {
            steps.word(WordForm::LoadPair(Pair::Hl), place)?;
            steps.plain(copy(Register::A, Register::L))
        }
    }
}

// Puts NOT or `-` of a byte into A.
#[tactic(auto, unfolding(crate::specs::internal::Bytes::byte_unary_steps))]
fn plan_byte_unary(
    operator: UnaryOperator,
    operand: ExpressionNumber,
    pushed: u16,
    steps: &mut Steps,
) -> Result<(), AllocError>
    ensures { OnOk result (Adds steps.old steps.new (byte_unary_steps operator operand pushed)) }
{
    steps.part(Task::Byte(operand), pushed)?;
    steps.plain(Instr::Cma)?;
    match operator {
        UnaryOperator::Not => Ok(()),
        UnaryOperator::Negate => steps.plain(Instr::Inr(Operand::Of(Register::A))),
    }
}

/// Puts the value of an assignment into A or HL, by its type, and stores it in the target.
#[tactic(auto, unfolding(crate::specs::internal::Bytes::embedded_steps, crate::specs::internal::Calls::value_task))]
pub(crate) fn plan_embedded(
    target: Target,
    value: ExpressionNumber,
    is_wanted: bool,
    pushed: u16,
    steps: &mut Steps,
) -> Result<(), AllocError>
    ensures { OnOk result (Adds steps.old steps.new (embedded_steps target value is_wanted pushed)) }
{
    let task = match target.source() {
        ScalarType::Byte => Task::Byte(value),
        ScalarType::Address => Task::Word(value),
    };
    steps.part(task, pushed)?;
    steps.part(Task::Store { target, is_wanted }, pushed)
}

// Puts the low byte of a value that is in A or HL, by its type, into A.
#[tactic(auto, unfolding(crate::specs::internal::Bytes::low_of_value_steps))]
fn plan_low_of_value(scalar: ScalarType, steps: &mut Steps) -> Result<(), AllocError>
    ensures { OnOk result (Adds steps.old steps.new (low_of_value_steps scalar)) }
{
    match scalar {
        ScalarType::Byte => Ok(()),
        ScalarType::Address => steps.plain(copy(Register::A, Register::L)),
    }
}

// Puts the low byte of the result of a call into A.
#[tactic(auto, unfolding(crate::specs::internal::Bytes::called_byte_steps))]
fn plan_called_byte(
    site: &Site<'_>,
    number: ExpressionNumber,
    procedure: u32,
    arguments: Range,
    pushed: u16,
    steps: &mut Steps,
) -> Result<(), AllocError>
    ensures { OnOk result (Adds steps.old steps.new
        (called_byte_steps site.now number procedure arguments pushed)) }
{
    plan_call(site, procedure, arguments, pushed, steps)?;
    plan_low_of_value(site.scalar(number), steps)
}

// Puts the low byte of a function of one value into A.
#[tactic(auto, unfolding(crate::specs::internal::Bytes::byte_function_steps))]
fn plan_byte_function(
    site: &Site<'_>,
    function: UnaryFunction,
    operand: ExpressionNumber,
    pushed: u16,
    steps: &mut Steps,
) -> Result<(), AllocError>
    ensures { OnOk result (Adds steps.old steps.new (byte_function_steps site.now function operand pushed)) }
{
    match function.byte_taken() {
        ByteOfValue::LowByte => steps.part(Task::Byte(operand), pushed),
        ByteOfValue::HighByte => plan_high_byte(site, operand, pushed, steps),
    }
}

// Puts the low byte of the result of an operator with two operands, a shift or a rotation into A. It is not called with
// other forms.
#[tactic(auto, unfolding(crate::specs::internal::Bytes::byte_of_two_steps))]
fn plan_byte_of_two(
    site: &Site<'_>,
    number: ExpressionNumber,
    form: ExpressionForm,
    pushed: u16,
    steps: &mut Steps,
) -> Result<(), AllocError>
    ensures { OnOk result (Adds steps.old steps.new (byte_of_two_steps site.now number form pushed)) }
{
    match form {
        ExpressionForm::Binary {
            operands: _,
            operator,
            left,
            right,
        } => {
            let operands = Operands { left, right };
            plan_byte_binary(site, number, operator, operands, pushed, steps)
        }
        ExpressionForm::Shift {
            function,
            value,
            count,
        } => {
            let shifted = Shifted {
                function,
                value,
                count,
            };
            plan_byte_shift(site, number, shifted, pushed, steps)
        }
        _ => Ok(()),
    }
}

// Puts the low byte of an expression that is neither known nor in memory into A.
#[tactic(auto, unfolding(crate::specs::internal::Bytes::byte_form_steps))]
fn plan_byte_form(
    site: &Site<'_>,
    number: ExpressionNumber,
    form: ExpressionForm,
    pushed: u16,
    steps: &mut Steps,
) -> Result<(), AllocError>
    ensures { OnOk result (Adds steps.old steps.new (byte_form_steps site.now number form pushed)) }
{
    match form {
        ExpressionForm::Conversion(inner) => steps.part(Task::Byte(inner), pushed),
        ExpressionForm::Function { function, operand } => {
            plan_byte_function(site, function, operand, pushed, steps)
        }
        ExpressionForm::Unary { operator, operand } => {
            plan_byte_unary(operator, operand, pushed, steps)
        }
        ExpressionForm::Binary { .. } | ExpressionForm::Shift { .. } => {
            plan_byte_of_two(site, number, form, pushed, steps)
        }
        ExpressionForm::Assignment { target, value } => {
            plan_embedded(target, value, true, pushed, steps)?;
            plan_low_of_value(target.source(), steps)
        }
        ExpressionForm::Call {
            procedure,
            arguments,
        } => plan_called_byte(site, number, procedure, arguments, pushed, steps),
        ExpressionForm::Input(port) => steps.plain(Instr::In(port)),
        ExpressionForm::Location(reference) => {
            steps.part(Task::Address(reference), pushed)?;
            steps.plain(copy(Register::A, Register::L))
        }
        // Numbers and constant lists are known, and values are in memory.
        ExpressionForm::Number(_) | ExpressionForm::Value(_) | ExpressionForm::List(_) => Ok(()),
    }
}

/// Puts the low byte of the value of an expression into A, whatever its type.
#[tactic(auto, unfolding(crate::specs::internal::Bytes::byte_steps))]
pub(crate) fn plan_byte(
    site: &Site<'_>,
    number: ExpressionNumber,
    pushed: u16,
    steps: &mut Steps,
) -> Result<(), AllocError>
    ensures { OnOk result (Adds steps.old steps.new (byte_steps site.now number pushed)) }
{
    if let Some(place) = site.known(number) {
        return plan_known_byte(place, steps);
    }
    if let Some(reference) = site.memory(number) {
        return plan_byte_in_memory(site, &reference, pushed, steps);
    }
    match site.expression(number) {
        Some(expression) => plan_byte_form(site, number, expression.form, pushed, steps),
        None => Ok(()),
    }
}
