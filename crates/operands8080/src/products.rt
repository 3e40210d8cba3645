//! Products with a number.

ghost use Rattle.std.specs.Prelude.{◌≡◌, OnOk};
ghost use Rattle.steps8080.specs.internal.Step.{Adds};
ghost use Rattle.operands8080.specs.internal.Products.{bit_steps, byte_product_steps, chain_steps, has_bit, multiple_steps, product_steps, small_multiple_steps};

use asm8080::WordForm;
use isa8080::{Instr, Operation, Pair, Register};
use std::alloc::AllocError;
use steps8080::{Steps, Task, clear_a, copy, power_of_two, repeat, set, with_register};
use treecode::{ExpressionNumber, Place};

// Whether a bit of a number is 1.
#[tactic(auto, unfolding(crate::specs::internal::Products::has_bit))]
fn has_bit(number: u16, bit: u16) -> bool
    ensures { result ≡ has_bit number bit }
{
    if bit < 16 {
        (number >> bit) % 2 == 1
    } else {
        false
    }
}

// The steps for a bit below the highest one: `twice`, and `once_more` if the bit is 1.
fn plan_bit(
    twice: Instr,
    once_more: Instr,
    is_below: bool,
    is_set: bool,
    steps: &mut Steps,
) -> Result<(), AllocError>
    ensures { OnOk result (Adds steps.old steps.new (bit_steps twice once_more is_below is_set)) }
{
    if is_below {
        steps.plain(twice)?;
        if is_set {
            steps.plain(once_more)?;
        }
    }
    Ok(())
}

// The steps for each bit of a number below its highest one, from high to low: `twice`, and `once_more` if the bit is 1.
fn plan_chain(
    number: u16,
    twice: Instr,
    once_more: Instr,
    steps: &mut Steps,
) -> Result<(), AllocError>
    ensures { OnOk result (Adds steps.old steps.new (chain_steps number twice once_more)) }
{
    let mut is_below = false;
    for index in 0_u16..16 {
        let is_set = has_bit(number, 15_u16.saturating_sub(index));
        plan_bit(twice, once_more, is_below, is_set, steps)?;
        is_below = is_below | is_set;
    }
    Ok(())
}

// Multiplies HL by a number that is not 0. A and DE are kept.
fn plan_small_multiple(number: u16, steps: &mut Steps) -> Result<(), AllocError>
    ensures { OnOk result (Adds steps.old steps.new (small_multiple_steps number)) }
{
    let twice = Instr::Dad(Pair::Hl);
    match power_of_two(number) {
        Some(power) => repeat(twice, power, steps),
        None => {
            steps.all(&[
                copy(Register::B, Register::H),
                copy(Register::C, Register::L),
            ])?;
            plan_chain(number, twice, Instr::Dad(Pair::Bc), steps)
        }
    }
}

// Multiplies HL by a number that is not 0; its low byte may be 0. A and DE are kept.
fn plan_multiple(number: u16, steps: &mut Steps) -> Result<(), AllocError>
    ensures { OnOk result (Adds steps.old steps.new (multiple_steps number)) }
{
    if number % 256 != 0 {
        return plan_small_multiple(number, steps);
    }
    steps.all(&[copy(Register::H, Register::L), set(Register::L, 0)])?;
    plan_small_multiple(number / 256, steps)
}

/// Puts the product of an expression and a number into HL. A and DE are kept if the code of the expression keeps them.
pub fn plan_product(
    value: ExpressionNumber,
    number: u16,
    pushed: u16,
    steps: &mut Steps,
) -> Result<(), AllocError>
    ensures { OnOk result (Adds steps.old steps.new (product_steps value number pushed)) }
{
    if number == 0 {
        steps.part(Task::Effects(value), pushed)?;
        return steps.word(WordForm::LoadPair(Pair::Hl), Place::Number(0));
    }
    steps.part(Task::Word(value), pushed)?;
    plan_multiple(number, steps)
}

/// Puts the low byte of the product of an expression and a number into A.
pub fn plan_byte_product(
    value: ExpressionNumber,
    number: u8,
    pushed: u16,
    steps: &mut Steps,
) -> Result<(), AllocError>
    ensures { OnOk result (Adds steps.old steps.new (byte_product_steps value number pushed)) }
{
    if number == 0 {
        steps.part(Task::Effects(value), pushed)?;
        return steps.plain(clear_a());
    }
    steps.part(Task::Byte(value), pushed)?;
    let twice = with_register(Operation::Add, Register::A);
    match power_of_two(number as u16) {
        Some(power) => repeat(twice, power, steps),
        None => {
            steps.plain(copy(Register::B, Register::A))?;
            let once_more = with_register(Operation::Add, Register::B);
            plan_chain(number as u16, twice, once_more, steps)
        }
    }
}
