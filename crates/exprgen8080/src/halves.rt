//! Numbers in A, and halves of words in A.

ghost use Rattle.std.specs.Prelude.{OnOk};
ghost use Rattle.steps8080.specs.internal.Step.{Adds};
ghost use Rattle.exprgen8080.specs.internal.Halves.{byte_number_steps, high_byte_steps, low_of_word_steps};

use isa8080::Register;
use operands8080::plan_byte_in_memory;
use std::alloc::AllocError;
use steps8080::{Site, Steps, Task, clear_a, copy, high, set};
use treecode::ExpressionNumber;

/// Puts a number into A.
#[tactic(auto, unfolding(crate::specs::internal::Halves::byte_number_steps))]
pub(crate) fn plan_byte_number(number: u8, steps: &mut Steps) -> Result<(), AllocError>
    ensures { OnOk result (Adds steps.old steps.new (byte_number_steps number)) }
{
    if number == 0 {
        steps.plain(clear_a())
    } else {
        steps.plain(set(Register::A, number))
    }
}

/// Puts the low byte of the value of an ADDRESS expression into A, through HL.
#[tactic(auto, unfolding(crate::specs::internal::Halves::low_of_word_steps))]
pub(crate) fn plan_low_of_word(
    number: ExpressionNumber,
    pushed: u16,
    steps: &mut Steps,
) -> Result<(), AllocError>
    ensures { OnOk result (Adds steps.old steps.new (low_of_word_steps number pushed)) }
{
    steps.part(Task::Word(number), pushed)?;
    steps.plain(copy(Register::A, Register::L))
}

/// Puts the high byte of the value of an expression into A; it is 0 for a BYTE.
#[tactic(auto, unfolding(crate::specs::internal::Halves::high_byte_steps))]
pub(crate) fn plan_high_byte(
    site: &Site<'_>,
    number: ExpressionNumber,
    pushed: u16,
    steps: &mut Steps,
) -> Result<(), AllocError>
    ensures { OnOk result (Adds steps.old steps.new (high_byte_steps site.now number pushed)) }
{
    if let Some(number) = site.number(number) {
        return plan_byte_number(high(number), steps);
    }
    if site.fits_byte(number) {
        steps.part(Task::Effects(number), pushed)?;
        return steps.plain(clear_a());
    }
    if let Some(reference) = site.high_byte_in_memory(number) {
        return plan_byte_in_memory(site, &reference, pushed, steps);
    }
    steps.part(Task::Word(number), pushed)?;
    steps.plain(copy(Register::A, Register::H))
}
