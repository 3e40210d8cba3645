//! Operators with the result in HL.

ghost use Rattle.std.specs.Prelude.{OnOk, ◌≡◌};
ghost use Rattle.steps8080.specs.internal.Step.{Adds};
ghost use Rattle.exprgen8080.specs.internal.WordOperators.{difference_steps, half_steps, high_half_steps, logic_steps, logic_with_byte_steps, logic_with_number_steps, logic_with_simple_steps, product_word_steps, quotient_steps, remainder_steps, simple_operand, sum_steps, taken_from_number_steps, with_pair_steps, with_simple, with_word_steps, word_binary_steps};

use crate::byte_operators::{Operands, plan_byte_operation, plan_with_number};
use crate::halves::plan_high_byte;
use crate::routines::{plan_computed_product, plan_division};
use crate::word_shifts::plan_word_shifted_right;
use asm8080::WordForm;
use isa8080::{Instr, Operation, Pair, Register};
use operands8080::{PairOrder, plan_addition, plan_pair, plan_product};
use std::alloc::AllocError;
use steps8080::{Site, Steps, Task, clear_a, copy, high, low, plan_extension, set, with_register};
use treecode::{ExpressionNumber, Place};
use trees::BinaryOperator;

// Puts a sum into HL.
#[tactic(auto, unfolding(crate::specs::internal::WordOperators::sum_steps))]
fn plan_sum(
    site: &Site<'_>,
    operands: Operands,
    pushed: u16,
    steps: &mut Steps,
) -> Result<(), AllocError>
    ensures { OnOk result (Adds steps.old steps.new (sum_steps site.now operands pushed)) }
{
    let Operands { left, right } = operands;
    if let Some(place) = site.known(right) {
        steps.part(Task::Word(left), pushed)?;
        return plan_addition(place, steps);
    }
    if let Some(place) = site.known(left) {
        steps.part(Task::Word(right), pushed)?;
        return plan_addition(place, steps);
    }
    let _ = plan_pair(site, left, right, false, pushed, steps)?;
    steps.plain(Instr::Dad(Pair::De))
}

// Subtracts HL from a number, with the result in HL.
#[tactic(auto, unfolding(crate::specs::internal::WordOperators::taken_from_number_steps))]
fn plan_taken_from_number(number: u16, steps: &mut Steps) -> Result<(), AllocError>
    ensures { OnOk result (Adds steps.old steps.new (taken_from_number_steps number)) }
{
    if low(number) == 0 {
        steps.plain(clear_a())?;
    } else {
        steps.plain(set(Register::A, low(number)))?;
    }
    steps.all(&[
        with_register(Operation::Subtract, Register::L),
        copy(Register::L, Register::A),
        set(Register::A, high(number)),
        with_register(Operation::SubtractWithBorrow, Register::H),
        copy(Register::H, Register::A),
    ])
}

// Puts the result of an operation with a word in memory on the left and HL on the right into HL.
#[tactic(auto, unfolding(crate::specs::internal::WordOperators::with_word_steps))]
fn plan_with_word(
    place: Place,
    on_low: Operation,
    on_high: Operation,
    steps: &mut Steps,
) -> Result<(), AllocError>
    ensures { OnOk result (Adds steps.old steps.new (with_word_steps place on_low on_high)) }
{
    steps.word(WordForm::LoadA, place)?;
    steps.all(&[
        with_register(on_low, Register::L),
        copy(Register::L, Register::A),
    ])?;
    steps.word(WordForm::LoadA, place.after(1))?;
    steps.all(&[
        with_register(on_high, Register::H),
        copy(Register::H, Register::A),
    ])
}

// Puts the result of an operation with HL and DE into HL. `order` is the operand that is in HL.
#[tactic(auto, unfolding(crate::specs::internal::WordOperators::with_pair_steps))]
fn plan_with_pair(
    order: PairOrder,
    on_low: Operation,
    on_high: Operation,
    steps: &mut Steps,
) -> Result<(), AllocError>
    ensures { OnOk result (Adds steps.old steps.new (with_pair_steps order on_low on_high)) }
{
    match order {
        PairOrder::LeftInHl => steps.all(&[
            copy(Register::A, Register::L),
            with_register(on_low, Register::E),
            copy(Register::L, Register::A),
            copy(Register::A, Register::H),
            with_register(on_high, Register::D),
            copy(Register::H, Register::A),
        ]),
        PairOrder::RightInHl => steps.all(&[
            copy(Register::A, Register::E),
            with_register(on_low, Register::L),
            copy(Register::L, Register::A),
            copy(Register::A, Register::D),
            with_register(on_high, Register::H),
            copy(Register::H, Register::A),
        ]),
    }
}

// Puts a difference into HL.
#[tactic(auto, unfolding(crate::specs::internal::WordOperators::difference_steps, crate::specs::internal::WordOperators::left_word, crate::specs::internal::WordOperators::paired_steps))]
fn plan_difference(
    site: &Site<'_>,
    operands: Operands,
    pushed: u16,
    steps: &mut Steps,
) -> Result<(), AllocError>
    ensures { OnOk result (Adds steps.old steps.new (difference_steps site.now operands pushed)) }
{
    let Operands { left, right } = operands;
    if let Some(number) = site.number(right) {
        steps.part(Task::Word(left), pushed)?;
        return plan_addition(Place::Number(0_u16.wrapping_sub(number)), steps);
    }
    if let Some(number) = site.number(left) {
        steps.part(Task::Word(right), pushed)?;
        return plan_taken_from_number(number, steps);
    }
    let on_low = Operation::Subtract;
    let on_high = Operation::SubtractWithBorrow;
    if let (Some(place), true) = (site.direct_word(left), site.may_exchange(left, right)) {
        steps.part(Task::Word(right), pushed)?;
        return plan_with_word(place, on_low, on_high, steps);
    }
    let order = plan_pair(site, left, right, false, pushed, steps)?;
    plan_with_pair(order, on_low, on_high, steps)
}

// Carries out an operation with a byte of HL and a number.
#[tactic(auto, unfolding(crate::specs::internal::WordOperators::half_steps, crate::specs::internal::WordOperators::half_through_a_steps))]
fn plan_half(
    operation: Operation,
    register: Register,
    number: u8,
    steps: &mut Steps,
) -> Result<(), AllocError>
    ensures { OnOk result (Adds steps.old steps.new (half_steps operation register number)) }
{
    match (operation, number) {
        (Operation::And, 255) | (Operation::Or | Operation::ExclusiveOr, 0) => Ok(()),
        (Operation::And, 0) | (Operation::Or, 255) => steps.plain(set(register, number)),
        (Operation::ExclusiveOr, 255) => steps.all(&[
            copy(Register::A, register),
            Instr::Cma,
            copy(register, Register::A),
        ]),
        _ => steps.all(&[
            copy(Register::A, register),
            Instr::AccumulateImmediate(operation, number),
            copy(register, Register::A),
        ]),
    }
}

// ANDs the high byte of a value with a number, and puts the result into HL as the high byte of a word with the low byte
// 0.
#[tactic(auto, unfolding(crate::specs::internal::WordOperators::high_half_steps))]
fn plan_high_half(
    site: &Site<'_>,
    value: ExpressionNumber,
    number: u8,
    pushed: u16,
    steps: &mut Steps,
) -> Result<(), AllocError>
    ensures { OnOk result (Adds steps.old steps.new (high_half_steps site.now value number pushed)) }
{
    plan_high_byte(site, value, pushed, steps)?;
    if number != 255 {
        steps.plain(Instr::AccumulateImmediate(Operation::And, number))?;
    }
    steps.all(&[copy(Register::H, Register::A), set(Register::L, 0)])
}

// Puts AND, OR or XOR of a value and a number into HL.
#[tactic(auto, unfolding(crate::specs::internal::WordOperators::logic_with_number_steps, crate::specs::internal::WordOperators::and_with_number_steps, crate::specs::internal::WordOperators::both_halves_steps))]
fn plan_logic_with_number(
    site: &Site<'_>,
    operation: Operation,
    value: ExpressionNumber,
    number: u16,
    pushed: u16,
    steps: &mut Steps,
) -> Result<(), AllocError>
    ensures { OnOk result (Adds steps.old steps.new
        (logic_with_number_steps site.now operation value number pushed)) }
{
    if operation == Operation::And && number < 256 {
        plan_with_number(operation, value, low(number), pushed, steps)?;
        return plan_extension(steps);
    }
    if operation == Operation::And && low(number) == 0 {
        return plan_high_half(site, value, high(number), pushed, steps);
    }
    steps.part(Task::Word(value), pushed)?;
    plan_half(operation, Register::L, low(number), steps)?;
    plan_half(operation, Register::H, high(number), steps)
}

// Puts OR or XOR of a value and a byte, with code that changes only A, into HL.
#[tactic(auto, unfolding(crate::specs::internal::WordOperators::logic_with_byte_steps))]
fn plan_logic_with_byte(
    operation: Operation,
    value: ExpressionNumber,
    byte: ExpressionNumber,
    pushed: u16,
    steps: &mut Steps,
) -> Result<(), AllocError>
    ensures { OnOk result (Adds steps.old steps.new (logic_with_byte_steps operation value byte pushed)) }
{
    steps.part(Task::Word(value), pushed)?;
    steps.part(Task::Byte(byte), pushed)?;
    steps.all(&[
        with_register(operation, Register::L),
        copy(Register::L, Register::A),
    ])
}

/// An operand of AND, OR or XOR with code that does not change HL.
#[derive(Clone, Copy)]
pub enum Simple {
    /// A byte with code that changes only A.
    Byte(ExpressionNumber),
    /// A word in memory.
    Word(Place),
}

// The operand as one with code that does not change HL, if it is.
#[tactic(auto, unfolding(crate::specs::internal::WordOperators::simple_operand))]
fn simple_operand(site: &Site<'_>, number: ExpressionNumber) -> Option<Simple>
    ensures { result ≡ simple_operand site.now number }
{
    if site.fits_byte(number) && site.is_free(number) {
        return Some(Simple::Byte(number));
    }
    match site.direct_word(number) {
        Some(place) => Some(Simple::Word(place)),
        None => None,
    }
}

// Puts AND, OR or XOR of a value and a simple operand into HL.
#[tactic(auto, unfolding(crate::specs::internal::WordOperators::logic_with_simple_steps))]
fn plan_logic_with_simple(
    operation: Operation,
    value: ExpressionNumber,
    operand: Simple,
    pushed: u16,
    steps: &mut Steps,
) -> Result<(), AllocError>
    ensures { OnOk result (Adds steps.old steps.new
        (logic_with_simple_steps operation value operand pushed)) }
{
    match operand {
        Simple::Byte(byte) => plan_logic_with_byte(operation, value, byte, pushed, steps),
        Simple::Word(place) => {
            steps.part(Task::Word(value), pushed)?;
            plan_with_word(place, operation, operation, steps)
        }
    }
}

// The operand of AND, OR or XOR that is evaluated first, and the other one, which is simple.
#[tactic(auto, unfolding(crate::specs::internal::WordOperators::with_simple, crate::specs::internal::WordOperators::first_and_simple, crate::specs::internal::WordOperators::exchanged_operand))]
fn with_simple(site: &Site<'_>, operands: Operands) -> Option<(ExpressionNumber, Simple)>
    ensures { result ≡ with_simple site.now operands }
{
    let Operands { left, right } = operands;
    let may_exchange = site.may_exchange(left, right);
    let exchanged = if may_exchange {
        simple_operand(site, left)
    } else {
        None
    };
    match (simple_operand(site, right), exchanged) {
        (Some(_), Some(exchanged)) if site.is_word_in_hl(right) => Some((right, exchanged)),
        (Some(operand), _) => Some((left, operand)),
        (None, Some(exchanged)) => Some((right, exchanged)),
        (None, None) => None,
    }
}

// Puts AND, OR or XOR into HL.
#[tactic(auto, unfolding(crate::specs::internal::WordOperators::logic_steps, crate::specs::internal::WordOperators::computed_logic_steps, crate::specs::internal::WordOperators::is_of_bytes, crate::specs::internal::WordOperators::paired_steps))]
fn plan_logic(
    site: &Site<'_>,
    operation: Operation,
    operands: Operands,
    pushed: u16,
    steps: &mut Steps,
) -> Result<(), AllocError>
    ensures { OnOk result (Adds steps.old steps.new (logic_steps site.now operation operands pushed)) }
{
    let Operands { left, right } = operands;
    if let Some(number) = site.number(right) {
        return plan_logic_with_number(site, operation, left, number, pushed, steps);
    }
    if let Some(number) = site.number(left) {
        return plan_logic_with_number(site, operation, right, number, pushed, steps);
    }
    if operation == Operation::And && (site.fits_byte(left) || site.fits_byte(right)) {
        plan_byte_operation(site, operation, operands, pushed, steps)?;
        return plan_extension(steps);
    }
    if let Some((first, operand)) = with_simple(site, operands) {
        return plan_logic_with_simple(operation, first, operand, pushed, steps);
    }
    let order = plan_pair(site, left, right, false, pushed, steps)?;
    plan_with_pair(order, operation, operation, steps)
}

// Puts a product into HL.
#[tactic(auto, unfolding(crate::specs::internal::WordOperators::product_word_steps))]
fn plan_product_word(
    site: &Site<'_>,
    operands: Operands,
    pushed: u16,
    steps: &mut Steps,
) -> Result<(), AllocError>
    ensures { OnOk result (Adds steps.old steps.new (product_word_steps site.now operands pushed)) }
{
    let Operands { left, right } = operands;
    if let Some(number) = site.number(right) {
        return plan_product(left, number, pushed, steps);
    }
    if let Some(number) = site.number(left) {
        return plan_product(right, number, pushed, steps);
    }
    plan_computed_product(site, operands, pushed, steps)
}

// Puts a quotient into HL.
#[tactic(auto, unfolding(crate::specs::internal::WordOperators::quotient_steps))]
fn plan_quotient(
    site: &Site<'_>,
    operands: Operands,
    pushed: u16,
    steps: &mut Steps,
) -> Result<(), AllocError>
    ensures { OnOk result (Adds steps.old steps.new (quotient_steps site.now operands pushed)) }
{
    match site.power(operands.right) {
        Some(power) => plan_word_shifted_right(site, operands.left, power, pushed, steps),
        None => plan_division(site, operands, pushed, steps),
    }
}

// Puts a remainder into HL.
#[tactic(auto, unfolding(crate::specs::internal::WordOperators::remainder_steps, crate::specs::internal::ByteOperators::number_of_two))]
fn plan_remainder(
    site: &Site<'_>,
    operands: Operands,
    pushed: u16,
    steps: &mut Steps,
) -> Result<(), AllocError>
    ensures { OnOk result (Adds steps.old steps.new (remainder_steps site.now operands pushed)) }
{
    let Operands { left, right } = operands;
    if let (Some(number), Some(_)) = (site.number(right), site.power(right)) {
        let mask = number.wrapping_sub(1);
        return plan_logic_with_number(site, Operation::And, left, mask, pushed, steps);
    }
    plan_division(site, operands, pushed, steps)?;
    steps.plain(Instr::Xchg)
}

/// Puts the result of an operator with two ADDRESS operands into HL.
#[tactic(auto, unfolding(crate::specs::internal::WordOperators::word_binary_steps))]
pub(crate) fn plan_word_binary(
    site: &Site<'_>,
    operator: BinaryOperator,
    operands: Operands,
    pushed: u16,
    steps: &mut Steps,
) -> Result<(), AllocError>
    ensures { OnOk result (Adds steps.old steps.new (word_binary_steps site.now operator operands pushed)) }
{
    match operator {
        BinaryOperator::Add => plan_sum(site, operands, pushed, steps),
        BinaryOperator::Subtract => plan_difference(site, operands, pushed, steps),
        BinaryOperator::And => plan_logic(site, Operation::And, operands, pushed, steps),
        BinaryOperator::Or => plan_logic(site, Operation::Or, operands, pushed, steps),
        BinaryOperator::Xor => plan_logic(site, Operation::ExclusiveOr, operands, pushed, steps),
        BinaryOperator::Multiply => plan_product_word(site, operands, pushed, steps),
        BinaryOperator::Divide => plan_quotient(site, operands, pushed, steps),
        BinaryOperator::Modulo => plan_remainder(site, operands, pushed, steps),
        // These give a BYTE.
        BinaryOperator::Equal
        | BinaryOperator::Less
        | BinaryOperator::Greater
        | BinaryOperator::LessOrEqual
        | BinaryOperator::GreaterOrEqual
        | BinaryOperator::Unequal => Ok(()),
    }
}
