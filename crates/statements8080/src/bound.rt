//! The test of an iterative DO: whether its variable is at most its bound.

ghost use Rattle.std.specs.Prelude.{◌≡◌, OnOk};
ghost use Rattle.statements8080.specs.internal.Plans.{PlanAdds};
ghost use Rattle.statements8080.specs.internal.Tests.{byte_below_steps, byte_below_word_steps, facts_of_test, frame_word_below_steps, known_test, place_below_steps, test_of, test_steps, word_at, word_below_steps, word_test};

use crate::iteration::{Counter, plan_less};
use crate::plan::{Plan, Planned};
use asm8080::WordForm;
use exprgen8080::{Facts, LabelNumber, Site, Task};
use isa8080::{Condition, Instr, Operand, Operation, Pair, Register};
use std::alloc::AllocError;
use treecode::{ExpressionForm, ExpressionNumber, Place};
use trees::ScalarType;

/// The ways to test whether the variable is at most the bound.
#[derive(Clone, Copy)]
pub enum Test {
    /// It always is.
    Always,
    /// A BYTE is less than this number.
    ByteBelow(u16),
    /// An ADDRESS is less than this number.
    WordBelow(u16),
    /// A BYTE and a BYTE bound.
    Byte(ExpressionNumber),
    /// A BYTE and an ADDRESS bound.
    ByteWithWord(ExpressionNumber),
    /// An ADDRESS in memory, and an ADDRESS bound at a place.
    WordWithPlace(Place),
    /// An ADDRESS in memory, and another bound.
    Word(ExpressionNumber),
    /// An ADDRESS in the frame.
    FrameWord(ExpressionNumber),
}

// The test for a known bound.
fn known_test(counter: &Counter, last: u16) -> Test
    ensures { result ≡ known_test counter.now.scalar last }
{
    let Some(bound) = last.checked_add(1) else {
        return Test::Always;
    };
    match counter.scalar {
        ScalarType::Byte => {
            if last >= 255 {
                Test::Always
            } else {
                Test::ByteBelow(bound)
            }
        }
        ScalarType::Address => Test::WordBelow(bound),
    }
}

// The place in memory of the ADDRESS that an expression reads, if it reads one.
fn word_at(site: &Site<'_>, number: ExpressionNumber) -> Option<Place>
    ensures { result ≡ word_at site.now number }
{
    match site.expression(number) {
        Some(expression) => match (expression.form, expression.traits.scalar) {
            (ExpressionForm::Value(reference), ScalarType::Address) => site.direct(&reference),
            _ => None,
        },
        None => None,
    }
}

// The test of an ADDRESS with a bound that is not known.
fn word_test(site: &Site<'_>, counter: &Counter, last: ExpressionNumber) -> Test
    ensures { result ≡ word_test site.now counter.now last }
{
    match (counter.place(), word_at(site, last)) {
        (Some(_), Some(place)) => Test::WordWithPlace(place),
        (Some(_), None) => Test::Word(last),
        (None, _) => Test::FrameWord(last),
    }
}

/// The way to test whether the variable is at most the bound.
#[tactic(auto, unfolding(crate::specs::internal::Tests::test_of))]
pub fn test_of(site: &Site<'_>, counter: &Counter, last: ExpressionNumber) -> Test
    ensures { result ≡ test_of site.now counter.now last }
{
    if let Some(last) = site.number(last) {
        return known_test(counter, last);
    }
    match (counter.scalar, site.scalar(last)) {
        (ScalarType::Byte, ScalarType::Byte) => Test::Byte(last),
        (ScalarType::Byte, ScalarType::Address) => Test::ByteWithWord(last),
        (ScalarType::Address, _) => word_test(site, counter, last),
    }
}

/// The facts at the target of the jump of the test.
pub fn facts_of_test(counter: &Counter, test: Test) -> Facts
    ensures { result ≡ facts_of_test counter.now test }
{
    match test {
        Test::Always | Test::FrameWord(_) => Facts::none(),
        Test::ByteBelow(_) => Facts {
            byte_in_a: counter.location,
            ..Facts::none()
        },
        Test::Byte(_) | Test::ByteWithWord(_) => counter.address_fact(),
        Test::WordBelow(_) | Test::WordWithPlace(_) | Test::Word(_) => counter.word_fact(),
    }
}

// Sets the carry if the word at a place is less than HL, and clears it otherwise.
fn plan_place_below(plan: &mut Plan, place: Place) -> Result<(), AllocError>
    ensures { OnOk result (PlanAdds plan.old plan.new (place_below_steps place)) }
{
    plan.word(WordForm::LoadA, place)?;
    plan.plain(Instr::Accumulate(Operation::Subtract, Operand::Of(Register::L)))?;
    plan.word(WordForm::LoadA, place.after(1))?;
    plan.plain(Instr::Accumulate(Operation::SubtractWithBorrow, Operand::Of(Register::H)))
}

// Sets the carry if the bound is less than the ADDRESS in memory, and clears it otherwise.
fn plan_word_below(
    plan: &mut Plan,
    counter: &Counter,
    last: ExpressionNumber,
) -> Result<(), AllocError>
    ensures { OnOk result (PlanAdds plan.old plan.new (word_below_steps counter.now last)) }
{
    plan.part(Task::Word(last), 0)?;
    plan.plain(Instr::Xchg)?;
    plan.push(Planned::LoadWord(counter.reference))?;
    plan.all(&[
        Instr::Mov(Register::A, Operand::Of(Register::E)),
        Instr::Accumulate(Operation::Subtract, Operand::Of(Register::L)),
        Instr::Mov(Register::A, Operand::Of(Register::D)),
        Instr::Accumulate(Operation::SubtractWithBorrow, Operand::Of(Register::H)),
    ])
}

// Sets the carry if the bound is less than the ADDRESS in the frame, and clears it otherwise.
fn plan_frame_word_below(
    plan: &mut Plan,
    counter: &Counter,
    last: ExpressionNumber,
) -> Result<(), AllocError>
    ensures { OnOk result (PlanAdds plan.old plan.new (frame_word_below_steps counter.now last)) }
{
    plan.part(Task::Word(last), 0)?;
    plan.plain(Instr::Xchg)?;
    plan.part(Task::Address(counter.reference), 0)?;
    plan.all(&[
        Instr::Mov(Register::A, Operand::Of(Register::E)),
        Instr::Accumulate(Operation::Subtract, Operand::M),
        Instr::Inx(Pair::Hl),
        Instr::Mov(Register::A, Operand::Of(Register::D)),
        Instr::Accumulate(Operation::SubtractWithBorrow, Operand::M),
    ])
}

// Sets the carry if the bound, an ADDRESS, is less than the BYTE, and clears it otherwise.
fn plan_byte_below_word(
    plan: &mut Plan,
    counter: &Counter,
    last: ExpressionNumber,
) -> Result<(), AllocError>
    ensures { OnOk result (PlanAdds plan.old plan.new (byte_below_word_steps counter.now last)) }
{
    plan.part(Task::Word(last), 0)?;
    plan.plain(Instr::Xchg)?;
    plan.part(Task::Address(counter.reference), 0)?;
    plan.all(&[
        Instr::Mov(Register::A, Operand::Of(Register::E)),
        Instr::Accumulate(Operation::Subtract, Operand::M),
        Instr::Mov(Register::A, Operand::Of(Register::D)),
        Instr::AccumulateImmediate(Operation::SubtractWithBorrow, 0),
    ])
}

// Sets the carry if the bound, a BYTE, is less than the BYTE, and clears it otherwise.
fn plan_byte_below(
    plan: &mut Plan,
    counter: &Counter,
    last: ExpressionNumber,
) -> Result<(), AllocError>
    ensures { OnOk result (PlanAdds plan.old plan.new (byte_below_steps counter.now last)) }
{
    plan.part(Task::Byte(last), 0)?;
    plan.part(Task::Address(counter.reference), 0)?;
    plan.plain(Instr::Accumulate(Operation::Compare, Operand::M))
}

/// A jump to a label if the variable is at most the bound.
#[tactic(auto, unfolding(crate::specs::internal::Tests::test_steps))]
pub fn plan_test(
    plan: &mut Plan,
    counter: &Counter,
    test: Test,
    turn: LabelNumber,
) -> Result<(), AllocError>
    ensures { OnOk result (PlanAdds plan.old plan.new (test_steps counter.now test turn)) }
{
    match test {
        Test::Always => return plan.jump(WordForm::Jump, turn),
        Test::ByteBelow(bound) => {
            plan.push(Planned::LoadByte(counter.reference))?;
            plan.plain(Instr::AccumulateImmediate(Operation::Compare, (bound % 256) as u8))?;
            return plan.jump(WordForm::JumpWhere(Condition::Carry), turn);
        }
        Test::WordBelow(bound) => {
            plan.push(Planned::LoadWord(counter.reference))?;
            plan_less(plan, bound)?;
            return plan.jump(WordForm::JumpWhere(Condition::Carry), turn);
        }
        Test::Byte(last) => plan_byte_below(plan, counter, last)?,
        Test::ByteWithWord(last) => plan_byte_below_word(plan, counter, last)?,
        Test::WordWithPlace(place) => {
            plan.push(Planned::LoadWord(counter.reference))?;
            plan_place_below(plan, place)?;
        }
        Test::Word(last) => plan_word_below(plan, counter, last)?,
        Test::FrameWord(last) => plan_frame_word_below(plan, counter, last)?,
    }
    plan.jump(WordForm::JumpWhere(Condition::NoCarry), turn)
}
