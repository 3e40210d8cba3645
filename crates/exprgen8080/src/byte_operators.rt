//! Operators on low bytes, with the result in A.

ghost use Rattle.std.specs.Prelude.{OnOk, ◌≡◌};
ghost use Rattle.steps8080.specs.internal.Step.{Adds};
ghost use Rattle.exprgen8080.specs.internal.ByteOperators.{added_steps, byte_binary_steps, byte_operation_steps, commutes, form_from_register, form_of, from_number_steps, immediate_steps, product_byte_steps, quotient_byte_steps, remainder_byte_steps, with_e_steps, with_memory_steps, with_number_steps, with_stack_steps};

use crate::byte_shifts::plan_low_byte_shifted_right;
use crate::halves::plan_byte_number;
use crate::routines::{plan_computed_product, plan_division};
use isa8080::{Instr, Operand, Operation, Register, StackPair};
use operands8080::{plan_byte_product, plan_pair, plan_relation_value};
use runtime8080::Routine;
use std::alloc::AllocError;
use steps8080::{Site, Step, Steps, Task, clear_a, copy, low, with_memory, with_register};
use treecode::{ExpressionNumber, Reference};
use trees::BinaryOperator;

/// The operands of an operator.
#[derive(Clone, Copy)]
pub struct Operands {
    pub left: ExpressionNumber,
    pub right: ExpressionNumber,
}

/// The ways to bring two operands that are not numbers to an operation.
#[derive(Clone, Copy)]
pub enum ByteForm {
    /// The left one is in A, the right one in memory.
    RightInMemory(Reference),
    /// The right one is in A, the left one in memory.
    LeftInMemory(Reference),
    /// The right one is put into E first, then the left one into A.
    LeftFree,
    /// The left one is put into E first, then the right one into A.
    RightFree,
    /// The left one is evaluated first, and pushed.
    Pushed,
}

// Whether the operands of an operation may be exchanged.
#[tactic(auto, unfolding(crate::specs::internal::ByteOperators::commutes))]
fn commutes(operation: Operation) -> bool
    ensures { result ≡ commutes operation }
{
    match operation {
        Operation::Add | Operation::And | Operation::ExclusiveOr | Operation::Or => true,
        Operation::AddWithCarry
        | Operation::Subtract
        | Operation::SubtractWithBorrow
        | Operation::Compare => false,
    }
}

// Adds a number to A.
#[tactic(auto, unfolding(crate::specs::internal::ByteOperators::added_steps))]
fn plan_added(number: u8, steps: &mut Steps) -> Result<(), AllocError>
    ensures { OnOk result (Adds steps.old steps.new (added_steps number)) }
{
    match number {
        0 => Ok(()),
        1 => steps.plain(Instr::Inr(Operand::Of(Register::A))),
        255 => steps.plain(Instr::Dcr(Operand::Of(Register::A))),
        _ => steps.plain(Instr::AccumulateImmediate(Operation::Add, number)),
    }
}

// Carries out an operation on A with a number that has no shorter form.
#[tactic(auto, unfolding(crate::specs::internal::ByteOperators::immediate_steps))]
fn plan_immediate(operation: Operation, number: u8, steps: &mut Steps) -> Result<(), AllocError>
    ensures { OnOk result (Adds steps.old steps.new (immediate_steps operation number)) }
{
    match (operation, number) {
        (Operation::Add, _) => plan_added(number, steps),
        (Operation::Subtract, _) => plan_added(0_u8.wrapping_sub(number), steps),
        (Operation::Or | Operation::ExclusiveOr, 0) | (Operation::And, 255) => Ok(()),
        (Operation::ExclusiveOr, 255) => steps.plain(Instr::Cma),
        _ => steps.plain(Instr::AccumulateImmediate(operation, number)),
    }
}

/// Puts the result of an operation with a byte on the left and a number on the right into A.
#[tactic(auto, unfolding(crate::specs::internal::ByteOperators::with_number_steps))]
pub(crate) fn plan_with_number(
    operation: Operation,
    value: ExpressionNumber,
    number: u8,
    pushed: u16,
    steps: &mut Steps,
) -> Result<(), AllocError>
    ensures { OnOk result (Adds steps.old steps.new (with_number_steps operation value number pushed)) }
{
    match (operation, number) {
        (Operation::And, 0) => {
            steps.part(Task::Effects(value), pushed)?;
            steps.plain(clear_a())
        }
        (Operation::Or, 255) => {
            steps.part(Task::Effects(value), pushed)?;
            plan_byte_number(255, steps)
        }
        _ => {
            steps.part(Task::Byte(value), pushed)?;
            plan_immediate(operation, number, steps)
        }
    }
}

// Puts the result of an operation with a number on the left and a byte on the right into A. A difference is a sum with
// the complement.
#[tactic(auto, unfolding(crate::specs::internal::ByteOperators::from_number_steps))]
fn plan_from_number(
    operation: Operation,
    number: u8,
    value: ExpressionNumber,
    pushed: u16,
    steps: &mut Steps,
) -> Result<(), AllocError>
    ensures { OnOk result (Adds steps.old steps.new (from_number_steps operation number value pushed)) }
{
    if commutes(operation) {
        return plan_with_number(operation, value, number, pushed, steps);
    }
    steps.part(Task::Byte(value), pushed)?;
    steps.plain(Instr::Cma)?;
    plan_added(number.wrapping_add(1), steps)
}

// The form for a right operand that is in a register already, if that makes the code shorter.
#[tactic(auto, unfolding(crate::specs::internal::ByteOperators::form_from_register, crate::specs::internal::ByteOperators::form_after_right))]
fn form_from_register(site: &Site<'_>, operation: Operation, operands: Operands) -> Option<ByteForm>
    ensures { result ≡ form_from_register site.now operation operands }
{
    if !site.is_byte_in_register(operands.right)
        || !site.may_exchange(operands.left, operands.right)
    {
        return None;
    }
    if commutes(operation) {
        return match site.operand_in_memory(operands.left) {
            Some(reference) => Some(ByteForm::LeftInMemory(reference)),
            None => None,
        };
    }
    if site.is_free(operands.left) {
        Some(ByteForm::LeftFree)
    } else {
        None
    }
}

// The form of an operation on two operands that are not numbers.
#[tactic(auto, unfolding(crate::specs::internal::ByteOperators::form_of, crate::specs::internal::ByteOperators::form_with_left, crate::specs::internal::ByteOperators::form_without_memory))]
fn form_of(site: &Site<'_>, operation: Operation, operands: Operands) -> ByteForm
    ensures { result ≡ form_of site.now operation operands }
{
    if let Some(form) = form_from_register(site, operation, operands) {
        return form;
    }
    if let Some(reference) = site.operand_in_memory(operands.right) {
        return ByteForm::RightInMemory(reference);
    }
    let may_exchange = site.may_exchange(operands.left, operands.right);
    if may_exchange && commutes(operation) {
        if let Some(reference) = site.operand_in_memory(operands.left) {
            return ByteForm::LeftInMemory(reference);
        }
    }
    if may_exchange && site.is_free(operands.left) {
        ByteForm::LeftFree
    } else if commutes(operation) && site.is_free(operands.right) {
        ByteForm::RightFree
    } else {
        ByteForm::Pushed
    }
}

// Puts one operand into A, and does the operation with the other one in memory.
#[tactic(auto, unfolding(crate::specs::internal::ByteOperators::with_memory_steps))]
fn plan_with_memory(
    operation: Operation,
    value: ExpressionNumber,
    other: Reference,
    pushed: u16,
    steps: &mut Steps,
) -> Result<(), AllocError>
    ensures { OnOk result (Adds steps.old steps.new (with_memory_steps operation value other pushed)) }
{
    steps.part(Task::Byte(value), pushed)?;
    steps.part(Task::Address(other), pushed)?;
    steps.plain(with_memory(operation))
}

// Puts one operand into E, then the other one, with code that changes only A, into A, and does the operation with E.
#[tactic(auto, unfolding(crate::specs::internal::ByteOperators::with_e_steps))]
fn plan_with_e(
    operation: Operation,
    first: ExpressionNumber,
    second: ExpressionNumber,
    pushed: u16,
    steps: &mut Steps,
) -> Result<(), AllocError>
    ensures { OnOk result (Adds steps.old steps.new (with_e_steps operation first second pushed)) }
{
    steps.part(Task::Byte(first), pushed)?;
    steps.plain(copy(Register::E, Register::A))?;
    steps.part(Task::Byte(second), pushed)?;
    steps.plain(with_register(operation, Register::E))
}

// Pushes the left operand, evaluates the right one, and does the operation with both.
#[tactic(auto, unfolding(crate::specs::internal::ByteOperators::with_stack_steps))]
fn plan_with_stack(
    operation: Operation,
    operands: Operands,
    pushed: u16,
    steps: &mut Steps,
) -> Result<(), AllocError>
    ensures { OnOk result (Adds steps.old steps.new (with_stack_steps operation operands pushed)) }
{
    steps.part(Task::Byte(operands.left), pushed)?;
    steps.plain(Instr::Push(StackPair::Psw))?;
    steps.part(Task::Byte(operands.right), pushed.wrapping_add(2))?;
    if commutes(operation) {
        steps.plain(Instr::Pop(StackPair::StackBc))?;
    } else {
        steps.all(&[copy(Register::B, Register::A), Instr::Pop(StackPair::Psw)])?;
    }
    steps.plain(with_register(operation, Register::B))
}

/// Puts the result of an operation with the low bytes of two operands into A.
#[tactic(auto, unfolding(crate::specs::internal::ByteOperators::byte_operation_steps, crate::specs::internal::ByteOperators::in_form_steps))]
pub(crate) fn plan_byte_operation(
    site: &Site<'_>,
    operation: Operation,
    operands: Operands,
    pushed: u16,
    steps: &mut Steps,
) -> Result<(), AllocError>
    ensures { OnOk result (Adds steps.old steps.new
        (byte_operation_steps site.now operation operands pushed)) }
{
    let Operands { left, right } = operands;
    if let Some(number) = site.low_number(right) {
        return plan_with_number(operation, left, number, pushed, steps);
    }
    if let Some(number) = site.low_number(left) {
        return plan_from_number(operation, number, right, pushed, steps);
    }
    match form_of(site, operation, operands) {
        ByteForm::RightInMemory(reference) => {
            plan_with_memory(operation, left, reference, pushed, steps)
        }
        ByteForm::LeftInMemory(reference) => {
            plan_with_memory(operation, right, reference, pushed, steps)
        }
        ByteForm::LeftFree => plan_with_e(operation, right, left, pushed, steps),
        ByteForm::RightFree => plan_with_e(operation, left, right, pushed, steps),
        ByteForm::Pushed => plan_with_stack(operation, operands, pushed, steps),
    }
}

// Puts the low byte of a product into A.
#[tactic(auto, unfolding(crate::specs::internal::ByteOperators::product_byte_steps))]
fn plan_product_byte(
    site: &Site<'_>,
    operands: Operands,
    pushed: u16,
    steps: &mut Steps,
) -> Result<(), AllocError>
    ensures { OnOk result (Adds steps.old steps.new (product_byte_steps site.now operands pushed)) }
{
    if let Some(factor) = site.low_number(operands.right) {
        return plan_byte_product(operands.left, factor, pushed, steps);
    }
    if let Some(factor) = site.low_number(operands.left) {
        return plan_byte_product(operands.right, factor, pushed, steps);
    }
    plan_computed_product(site, operands, pushed, steps)?;
    steps.plain(copy(Register::A, Register::L))
}

// Puts the low byte of a quotient into A.
#[tactic(auto, unfolding(crate::specs::internal::ByteOperators::quotient_byte_steps))]
fn plan_quotient_byte(
    site: &Site<'_>,
    operands: Operands,
    pushed: u16,
    steps: &mut Steps,
) -> Result<(), AllocError>
    ensures { OnOk result (Adds steps.old steps.new (quotient_byte_steps site.now operands pushed)) }
{
    match site.power(operands.right) {
        Some(power) => plan_low_byte_shifted_right(site, operands.left, power, pushed, steps),
        None => {
            plan_division(site, operands, pushed, steps)?;
            steps.plain(copy(Register::A, Register::L))
        }
    }
}

// Puts the low byte of a remainder into A.
#[tactic(auto, unfolding(crate::specs::internal::ByteOperators::remainder_byte_steps, crate::specs::internal::ByteOperators::number_of_two))]
fn plan_remainder_byte(
    site: &Site<'_>,
    operands: Operands,
    pushed: u16,
    steps: &mut Steps,
) -> Result<(), AllocError>
    ensures { OnOk result (Adds steps.old steps.new (remainder_byte_steps site.now operands pushed)) }
{
    let Operands { left, right } = operands;
    if let (Some(number), Some(_)) = (site.number(right), site.power(right)) {
        let mask = low(number.wrapping_sub(1));
        return plan_with_number(Operation::And, left, mask, pushed, steps);
    }
    let _ = plan_pair(site, left, right, true, pushed, steps)?;
    steps.push(Step::CallRoutine(Routine::Divide))?;
    steps.plain(copy(Register::A, Register::E))
}

/// Puts the low byte of the result of an operator with two operands into A.
#[tactic(auto, unfolding(crate::specs::internal::ByteOperators::byte_binary_steps))]
pub(crate) fn plan_byte_binary(
    site: &Site<'_>,
    number: ExpressionNumber,
    operator: BinaryOperator,
    operands: Operands,
    pushed: u16,
    steps: &mut Steps,
) -> Result<(), AllocError>
    ensures { OnOk result (Adds steps.old steps.new
        (byte_binary_steps site.now number operator operands pushed)) }
{
    let operation = match operator {
        BinaryOperator::Add => Operation::Add,
        BinaryOperator::Subtract => Operation::Subtract,
        BinaryOperator::And => Operation::And,
        BinaryOperator::Or => Operation::Or,
        BinaryOperator::Xor => Operation::ExclusiveOr,
        BinaryOperator::Multiply => {
            return plan_product_byte(site, operands, pushed, steps);
        }
        BinaryOperator::Divide => {
            return plan_quotient_byte(site, operands, pushed, steps);
        }
        BinaryOperator::Modulo => return plan_remainder_byte(site, operands, pushed, steps),
        BinaryOperator::Equal
        | BinaryOperator::Less
        | BinaryOperator::Greater
        | BinaryOperator::LessOrEqual
        | BinaryOperator::GreaterOrEqual
        | BinaryOperator::Unequal => return plan_relation_value(site, number, pushed, steps),
    };
    plan_byte_operation(site, operation, operands, pushed, steps)
}
