//! Shifts and rotations of bytes in A.

ghost use Rattle.std.specs.Prelude.{OnOk, ◌≡◌};
ghost use Rattle.steps8080.specs.internal.Step.{Adds};
ghost use Rattle.exprgen8080.specs.internal.ByteShifts.{by_number_steps, byte_routine, byte_shift_steps, byte_shifted_right_steps, count_in_memory_steps, kept_bits, low_byte_shifted_right_steps, middle_byte_steps, operands_steps, right_shift_steps, rotation_steps, shifted_left_steps, zero_steps};

use crate::halves::{plan_high_byte, plan_low_of_word};
use isa8080::{Instr, Operation, Pair, Register, StackPair};
use runtime8080::Routine;
use std::alloc::AllocError;
use steps8080::{Site, Step, Steps, Task, clear_a, copy, load, repeat, with_register};
use treecode::{ExpressionNumber, Reference};
use trees::ScalarType;
use typed_trees::ShiftFunction;

/// A value that is shifted or rotated, and the count.
#[derive(Clone, Copy)]
pub struct Shifted {
    pub function: ShiftFunction,
    pub value: ExpressionNumber,
    pub count: ExpressionNumber,
}

// The mask of the bits that a right shift of a byte by a count below 8 keeps.
#[tactic(auto, unfolding(crate::specs::internal::ByteShifts::kept_bits))]
fn kept_bits(count: u16) -> u8
    ensures { result ≡ kept_bits count }
{
    if count < 8 { 255_u8 >> count } else { 0 }
}

/// Shifts A right by a count below 8.
#[tactic(auto, unfolding(crate::specs::internal::ByteShifts::right_shift_steps, crate::specs::internal::ByteShifts::turned_right_steps))]
pub(crate) fn plan_right_shift(count: u16, steps: &mut Steps) -> Result<(), AllocError>
    ensures { OnOk result (Adds steps.old steps.new (right_shift_steps count)) }
{
    if count == 0 {
        return Ok(());
    }
    if count == 1 {
        return steps.all(&[with_register(Operation::Or, Register::A), Instr::Rar]);
    }
    if count <= 4 {
        repeat(Instr::Rrc, count, steps)?;
    } else {
        repeat(Instr::Rlc, 8_u16.saturating_sub(count), steps)?;
    }
    steps.plain(Instr::AccumulateImmediate(Operation::And, kept_bits(count)))
}

// Rotates A left by a count below 8.
#[tactic(auto, unfolding(crate::specs::internal::ByteShifts::rotation_steps))]
fn plan_rotation(count: u16, steps: &mut Steps) -> Result<(), AllocError>
    ensures { OnOk result (Adds steps.old steps.new (rotation_steps count)) }
{
    if count <= 4 {
        repeat(Instr::Rlc, count, steps)
    } else {
        repeat(Instr::Rrc, 8_u16.saturating_sub(count), steps)
    }
}

// Evaluates an expression for its effects, and puts 0 into A.
#[tactic(auto, unfolding(crate::specs::internal::ByteShifts::zero_steps))]
fn plan_zero(value: ExpressionNumber, pushed: u16, steps: &mut Steps) -> Result<(), AllocError>
    ensures { OnOk result (Adds steps.old steps.new (zero_steps value pushed)) }
{
    steps.part(Task::Effects(value), pushed)?;
    steps.plain(clear_a())
}

// Puts the low byte of a value shifted left by a count into A.
#[tactic(auto, unfolding(crate::specs::internal::ByteShifts::shifted_left_steps))]
fn plan_shifted_left(
    value: ExpressionNumber,
    count: u16,
    pushed: u16,
    steps: &mut Steps,
) -> Result<(), AllocError>
    ensures { OnOk result (Adds steps.old steps.new (shifted_left_steps value count pushed)) }
{
    if count >= 8 {
        return plan_zero(value, pushed, steps);
    }
    steps.part(Task::Byte(value), pushed)?;
    repeat(with_register(Operation::Add, Register::A), count, steps)
}

/// Puts a value below 256 shifted right by a count into A.
#[tactic(auto, unfolding(crate::specs::internal::ByteShifts::byte_shifted_right_steps))]
pub(crate) fn plan_byte_shifted_right(
    value: ExpressionNumber,
    count: u16,
    pushed: u16,
    steps: &mut Steps,
) -> Result<(), AllocError>
    ensures { OnOk result (Adds steps.old steps.new (byte_shifted_right_steps value count pushed)) }
{
    if count >= 8 {
        return plan_zero(value, pushed, steps);
    }
    steps.part(Task::Byte(value), pushed)?;
    plan_right_shift(count, steps)
}

// Puts the low byte of a word shifted right by a count from 1 to 7 into A.
#[tactic(auto, unfolding(crate::specs::internal::ByteShifts::middle_byte_steps))]
fn plan_middle_byte(
    value: ExpressionNumber,
    count: u16,
    pushed: u16,
    steps: &mut Steps,
) -> Result<(), AllocError>
    ensures { OnOk result (Adds steps.old steps.new (middle_byte_steps value count pushed)) }
{
    steps.part(Task::Word(value), pushed)?;
    if count == 1 {
        return steps.all(&[
            with_register(Operation::Or, Register::A),
            copy(Register::A, Register::H),
            Instr::Rar,
            copy(Register::A, Register::L),
            Instr::Rar,
        ]);
    }
    repeat(Instr::Dad(Pair::Hl), 8_u16.saturating_sub(count), steps)?;
    steps.plain(copy(Register::A, Register::H))
}

/// Puts the low byte of a value shifted right by a count into A.
#[tactic(auto, unfolding(crate::specs::internal::ByteShifts::low_byte_shifted_right_steps))]
pub(crate) fn plan_low_byte_shifted_right(
    site: &Site<'_>,
    value: ExpressionNumber,
    count: u16,
    pushed: u16,
    steps: &mut Steps,
) -> Result<(), AllocError>
    ensures { OnOk result (Adds steps.old steps.new
        (low_byte_shifted_right_steps site.now value count pushed)) }
{
    if site.fits_byte(value) {
        return plan_byte_shifted_right(value, count, pushed, steps);
    }
    if count >= 16 {
        return plan_zero(value, pushed, steps);
    }
    if count >= 8 {
        plan_high_byte(site, value, pushed, steps)?;
        return plan_right_shift(count.saturating_sub(8), steps);
    }
    if count == 0 {
        return steps.part(Task::Byte(value), pushed);
    }
    plan_middle_byte(value, count, pushed, steps)
}

// Puts the low byte of a value shifted or rotated by a number into A.
#[tactic(auto, unfolding(crate::specs::internal::ByteShifts::by_number_steps))]
fn plan_by_number(
    site: &Site<'_>,
    shifted: Shifted,
    count: u16,
    pushed: u16,
    steps: &mut Steps,
) -> Result<(), AllocError>
    ensures { OnOk result (Adds steps.old steps.new
        (by_number_steps site.now shifted.function shifted.value count pushed)) }
{
    match shifted.function {
        ShiftFunction::ShiftLeft => plan_shifted_left(shifted.value, count, pushed, steps),
        ShiftFunction::ShiftRight => {
            plan_low_byte_shifted_right(site, shifted.value, count, pushed, steps)
        }
        ShiftFunction::RotateLeft => {
            steps.part(Task::Byte(shifted.value), pushed)?;
            plan_rotation(count % 8, steps)
        }
        ShiftFunction::RotateRight => {
            steps.part(Task::Byte(shifted.value), pushed)?;
            plan_rotation(8_u16.saturating_sub(count % 8) % 8, steps)
        }
    }
}

// The routine that shifts or rotates A by the count in E.
#[tactic(auto, unfolding(crate::specs::internal::ByteShifts::byte_routine))]
fn byte_routine(function: ShiftFunction) -> Routine
    ensures { result ≡ byte_routine function }
{
    match function {
        ShiftFunction::ShiftLeft => Routine::ShiftLeftByte,
        ShiftFunction::ShiftRight => Routine::ShiftRightByte,
        ShiftFunction::RotateLeft => Routine::RotateLeft,
        ShiftFunction::RotateRight => Routine::RotateRight,
    }
}

// Puts a BYTE into A, and a count in memory into E; the code for the address of the count keeps A.
#[tactic(auto, unfolding(crate::specs::internal::ByteShifts::count_in_memory_steps))]
fn plan_count_in_memory(
    value: ExpressionNumber,
    count: Reference,
    pushed: u16,
    steps: &mut Steps,
) -> Result<(), AllocError>
    ensures { OnOk result (Adds steps.old steps.new (count_in_memory_steps value count pushed)) }
{
    steps.part(Task::Byte(value), pushed)?;
    steps.part(Task::Address(count), pushed)?;
    steps.plain(load(Register::E))
}

// Puts a BYTE into A, and a count into E.
#[tactic(auto, unfolding(crate::specs::internal::ByteShifts::operands_steps))]
fn plan_operands(
    site: &Site<'_>,
    shifted: Shifted,
    pushed: u16,
    steps: &mut Steps,
) -> Result<(), AllocError>
    ensures { OnOk result (Adds steps.old steps.new
        (operands_steps site.now shifted.value shifted.count pushed)) }
{
    if let Some(count) = site.operand_in_memory(shifted.count) {
        return plan_count_in_memory(shifted.value, count, pushed, steps);
    }
    let is_free = site.known(shifted.value).is_some() || site.is_free(shifted.value);
    if is_free && site.may_exchange(shifted.value, shifted.count) {
        steps.part(Task::Byte(shifted.count), pushed)?;
        steps.plain(copy(Register::E, Register::A))?;
        return steps.part(Task::Byte(shifted.value), pushed);
    }
    steps.part(Task::Byte(shifted.value), pushed)?;
    steps.plain(Instr::Push(StackPair::Psw))?;
    steps.part(Task::Byte(shifted.count), pushed.wrapping_add(2))?;
    steps.all(&[copy(Register::E, Register::A), Instr::Pop(StackPair::Psw)])
}

/// Puts the low byte of a shift or a rotation into A.
#[tactic(auto, unfolding(crate::specs::internal::ByteShifts::byte_shift_steps))]
pub(crate) fn plan_byte_shift(
    site: &Site<'_>,
    number: ExpressionNumber,
    shifted: Shifted,
    pushed: u16,
    steps: &mut Steps,
) -> Result<(), AllocError>
    ensures { OnOk result (Adds steps.old steps.new (byte_shift_steps site.now number shifted pushed)) }
{
    if let Some(count) = site.number(shifted.count) {
        return plan_by_number(site, shifted, count, pushed, steps);
    }
    match site.scalar(number) {
        ScalarType::Byte => {
            plan_operands(site, shifted, pushed, steps)?;
            steps.push(Step::CallRoutine(byte_routine(shifted.function)))
        }
        ScalarType::Address => plan_low_of_word(number, pushed, steps),
    }
}
