//! Shifts of words in HL.

ghost use Rattle.std.specs.Prelude.{OnOk, ◌≡◌};
ghost use Rattle.steps8080.specs.internal.Step.{Adds};
ghost use Rattle.exprgen8080.specs.internal.WordShifts.{computed_count_steps, half_steps, quarter_steps, shifted_left_steps, shifted_right_little_steps, word_routine, word_shift_steps, word_shifted_right_steps, zero_steps};

use crate::byte_shifts::{Shifted, plan_byte_shifted_right, plan_right_shift};
use crate::halves::plan_high_byte;
use asm8080::WordForm;
use isa8080::{Instr, Operation, Pair, Register, StackPair};
use runtime8080::Routine;
use std::alloc::AllocError;
use steps8080::{Site, Step, Steps, Task, copy, plan_extension, repeat, set, with_register};
use treecode::{ExpressionNumber, Place};
use typed_trees::ShiftFunction;

// Evaluates an expression for its effects, and puts 0 into HL.
#[tactic(auto, unfolding(crate::specs::internal::WordShifts::zero_steps))]
fn plan_zero(value: ExpressionNumber, pushed: u16, steps: &mut Steps) -> Result<(), AllocError>
    ensures { OnOk result (Adds steps.old steps.new (zero_steps value pushed)) }
{
    steps.part(Task::Effects(value), pushed)?;
    steps.word(WordForm::LoadPair(Pair::Hl), Place::Number(0))
}

// Puts a word shifted left by a number into HL.
#[tactic(auto, unfolding(crate::specs::internal::WordShifts::shifted_left_steps))]
fn plan_shifted_left(
    value: ExpressionNumber,
    count: u16,
    pushed: u16,
    steps: &mut Steps,
) -> Result<(), AllocError>
    ensures { OnOk result (Adds steps.old steps.new (shifted_left_steps value count pushed)) }
{
    if count >= 16 {
        return plan_zero(value, pushed, steps);
    }
    let twice = Instr::Dad(Pair::Hl);
    if count >= 8 {
        steps.part(Task::Byte(value), pushed)?;
        steps.all(&[copy(Register::H, Register::A), set(Register::L, 0)])?;
        return repeat(twice, count.saturating_sub(8), steps);
    }
    steps.part(Task::Word(value), pushed)?;
    repeat(twice, count, steps)
}

// Shifts HL right by 1, through A.
#[tactic(auto, unfolding(crate::specs::internal::WordShifts::half_steps))]
fn plan_half(steps: &mut Steps) -> Result<(), AllocError>
    ensures { OnOk result (Adds steps.old steps.new half_steps) }
{
    steps.all(&[
        with_register(Operation::Or, Register::A),
        copy(Register::A, Register::H),
        Instr::Rar,
        copy(Register::H, Register::A),
        copy(Register::A, Register::L),
        Instr::Rar,
        copy(Register::L, Register::A),
    ])
}

// Shifts HL right by 2, through A: puts the two low bits of H beside the six high bits of L, and rotates them to the
// top.
#[tactic(auto, unfolding(crate::specs::internal::WordShifts::quarter_steps))]
fn plan_quarter(steps: &mut Steps) -> Result<(), AllocError>
    ensures { OnOk result (Adds steps.old steps.new quarter_steps) }
{
    let mask = Instr::AccumulateImmediate(Operation::And, 0xfc);
    steps.all(&[
        copy(Register::A, Register::L),
        with_register(Operation::ExclusiveOr, Register::H),
        mask,
        with_register(Operation::ExclusiveOr, Register::H),
        Instr::Rrc,
        Instr::Rrc,
        copy(Register::L, Register::A),
        copy(Register::A, Register::H),
        mask,
        Instr::Rrc,
        Instr::Rrc,
        copy(Register::H, Register::A),
    ])
}

// Puts a word shifted right by a count below 8 into HL.
#[tactic(auto, unfolding(crate::specs::internal::WordShifts::shifted_right_little_steps))]
fn plan_shifted_right_little(
    value: ExpressionNumber,
    count: u16,
    pushed: u16,
    steps: &mut Steps,
) -> Result<(), AllocError>
    ensures { OnOk result (Adds steps.old steps.new (shifted_right_little_steps value count pushed)) }
{
    steps.part(Task::Word(value), pushed)?;
    match count {
        0 => Ok(()),
        1 => plan_half(steps),
        2 => plan_quarter(steps),
        _ => {
            steps.plain(set(Register::A, (count % 256) as u8))?;
            steps.push(Step::CallRoutine(Routine::ShiftRightAddress))
        }
    }
}

/// Puts the value of an expression, as an ADDRESS, shifted right by a number into HL.
#[tactic(auto, unfolding(crate::specs::internal::WordShifts::word_shifted_right_steps))]
pub(crate) fn plan_word_shifted_right(
    site: &Site<'_>,
    value: ExpressionNumber,
    count: u16,
    pushed: u16,
    steps: &mut Steps,
) -> Result<(), AllocError>
    ensures { OnOk result (Adds steps.old steps.new (word_shifted_right_steps site.now value count pushed)) }
{
    if count == 0 {
        return steps.part(Task::Word(value), pushed);
    }
    if count >= 16 {
        return plan_zero(value, pushed, steps);
    }
    if site.fits_byte(value) {
        plan_byte_shifted_right(value, count, pushed, steps)?;
        return plan_extension(steps);
    }
    if count >= 8 {
        plan_high_byte(site, value, pushed, steps)?;
        plan_right_shift(count.saturating_sub(8), steps)?;
        return plan_extension(steps);
    }
    plan_shifted_right_little(value, count, pushed, steps)
}

// The routine that shifts HL by the count in A. Only BYTE values are rotated.
#[tactic(auto, unfolding(crate::specs::internal::WordShifts::word_routine))]
fn word_routine(function: ShiftFunction) -> Routine
    ensures { result ≡ word_routine function }
{
    match function {
        ShiftFunction::ShiftLeft | ShiftFunction::RotateLeft => Routine::ShiftLeftAddress,
        ShiftFunction::ShiftRight | ShiftFunction::RotateRight => Routine::ShiftRightAddress,
    }
}

// Puts a word shifted by a count that is not known into HL.
#[tactic(auto, unfolding(crate::specs::internal::WordShifts::computed_count_steps, crate::specs::internal::WordShifts::count_beside_word_steps))]
fn plan_computed_count(
    site: &Site<'_>,
    shifted: Shifted,
    pushed: u16,
    steps: &mut Steps,
) -> Result<(), AllocError>
    ensures { OnOk result (Adds steps.old steps.new (computed_count_steps site.now shifted pushed)) }
{
    steps.part(Task::Word(shifted.value), pushed)?;
    if site.is_free(shifted.count) {
        steps.part(Task::Byte(shifted.count), pushed)?;
    } else {
        steps.plain(Instr::Push(StackPair::StackHl))?;
        steps.part(Task::Byte(shifted.count), pushed.wrapping_add(2))?;
        steps.plain(Instr::Pop(StackPair::StackHl))?;
    }
    steps.push(Step::CallRoutine(word_routine(shifted.function)))
}

/// Puts a shift of an ADDRESS into HL.
#[tactic(auto, unfolding(crate::specs::internal::WordShifts::word_shift_steps, crate::specs::internal::WordShifts::word_by_number_steps))]
pub(crate) fn plan_word_shift(
    site: &Site<'_>,
    shifted: Shifted,
    pushed: u16,
    steps: &mut Steps,
) -> Result<(), AllocError>
    ensures { OnOk result (Adds steps.old steps.new (word_shift_steps site.now shifted pushed)) }
{
    let Some(count) = site.number(shifted.count) else {
        return plan_computed_count(site, shifted, pushed, steps);
    };
    match shifted.function {
        ShiftFunction::ShiftRight | ShiftFunction::RotateRight => {
            plan_word_shifted_right(site, shifted.value, count, pushed, steps)
        }
        ShiftFunction::ShiftLeft | ShiftFunction::RotateLeft => {
            plan_shifted_left(shifted.value, count, pushed, steps)
        }
    }
}
