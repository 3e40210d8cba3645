//! Relations, as flags and as values.

ghost use Rattle.std.specs.Prelude.{◌≡◌, IfOk, OnOk};
ghost use Rattle.steps8080.specs.internal.Step.{Adds};
ghost use Rattle.operands8080.specs.internal.ByteRelations.{answer_to};
ghost use Rattle.operands8080.specs.internal.Relations.{carry_steps, comparison_steps, number_answer, number_steps, outcome_of, outcome_value_steps, relation_outcome, relation_steps, relation_value_steps};

use crate::answers::{Answer, Purpose, Setting};
use crate::byte_relations::{plan_byte_number, plan_byte_relation};
use crate::word_relations::{plan_word_number, plan_word_relation};
use isa8080::{Condition, Instr, Operation, Register};
use std::alloc::AllocError;
use steps8080::{
    Comparison, Inquiry, NumberQuestion, Relation, Site, Steps, clear_a, relation_of, set,
    with_register,
};
use treecode::ExpressionNumber;
use trees::ScalarType;

/// The outcome of a relation.
#[derive(Clone, Copy)]
pub enum Outcome {
    /// It always holds, or never.
    Known(bool),
    /// It holds if a condition of the flags does. For a value, `Zero` means that A is 0, and `NotZero` that it is not.
    Where(Condition),
}

// The outcome of a relation from the answer to its question.
fn outcome_of(answer: Answer, holds_if: bool) -> Outcome
    ensures { result ≡ outcome_of answer holds_if }
{
    match answer {
        Answer::Known(known) => Outcome::Known(known == holds_if),
        Answer::Carry if holds_if => Outcome::Where(Condition::Carry),
        Answer::Carry => Outcome::Where(Condition::NoCarry),
        Answer::Zero if holds_if => Outcome::Where(Condition::Zero),
        Answer::Zero => Outcome::Where(Condition::NotZero),
    }
}

// The steps that answer a question about an operand and a number.
fn plan_number(
    site: &Site<'_>,
    operand: ExpressionNumber,
    scalar: ScalarType,
    question: NumberQuestion,
    setting: Setting,
    steps: &mut Steps,
) -> Result<Answer, AllocError>
    ensures adds { OnOk result (Adds steps.old steps.new
        (number_steps site.now operand scalar question setting)) }
    ensures answer { IfOk result (λ answer. answer ≡ number_answer site.now operand scalar question) }
{
    match scalar {
        ScalarType::Byte => plan_byte_number(operand, question, setting, steps),
        ScalarType::Address => plan_word_number(site, operand, question, setting, steps),
    }
}

// The steps that answer a question about two operands.
fn plan_comparison(
    site: &Site<'_>,
    comparison: &Comparison,
    setting: Setting,
    steps: &mut Steps,
) -> Result<Answer, AllocError>
    ensures adds { OnOk result (Adds steps.old steps.new (comparison_steps site.now comparison.now setting)) }
    ensures answer { IfOk result (λ answer. answer ≡ answer_to comparison.now.question) }
{
    match comparison.operands {
        ScalarType::Byte => plan_byte_relation(site, comparison, setting, steps),
        ScalarType::Address => plan_word_relation(site, comparison, setting, steps),
    }
}

/// The steps of a relation, and its outcome after them.
pub fn plan_relation(
    site: &Site<'_>,
    relation: &Relation,
    setting: Setting,
    steps: &mut Steps,
) -> Result<Outcome, AllocError>
    ensures adds { OnOk result (Adds steps.old steps.new (relation_steps site.now relation.now setting)) }
    ensures outcome { IfOk result (λ outcome. outcome ≡ relation_outcome site.now relation.now) }
{
    let answer = match &relation.inquiry {
        Inquiry::Between(comparison) => plan_comparison(site, comparison, setting, steps)?,
        Inquiry::WithNumber {
            operand,
            scalar,
            question,
        } => plan_number(site, *operand, *scalar, *question, setting, steps)?,
    };
    Ok(outcome_of(answer, relation.holds_if))
}

// The steps that set the carry if the outcome is true, and clear it otherwise.
fn plan_carry(condition: Condition, steps: &mut Steps) -> Result<(), AllocError>
    ensures { OnOk result (Adds steps.old steps.new (carry_steps condition)) }
{
    match condition {
        Condition::NoCarry => steps.plain(Instr::Cmc),
        Condition::Zero => steps.plain(Instr::AccumulateImmediate(Operation::Subtract, 1)),
        Condition::NotZero => steps.plain(Instr::AccumulateImmediate(Operation::Add, 255)),
        _ => Ok(()),
    }
}

// The steps that put 0FFH into A if an outcome is true, else 0.
fn plan_outcome_value(outcome: Outcome, steps: &mut Steps) -> Result<(), AllocError>
    ensures { OnOk result (Adds steps.old steps.new (outcome_value_steps outcome)) }
{
    match outcome {
        Outcome::Known(true) => steps.plain(set(Register::A, 255)),
        Outcome::Known(false) => steps.plain(clear_a()),
        Outcome::Where(condition) => {
            plan_carry(condition, steps)?;
            steps.plain(with_register(Operation::SubtractWithBorrow, Register::A))
        }
    }
}

/// The steps that put 0FFH into A if a relation holds, else 0. None if the expression is not a relation.
pub fn plan_relation_value(
    site: &Site<'_>,
    number: ExpressionNumber,
    pushed: u16,
    steps: &mut Steps,
) -> Result<(), AllocError>
    ensures { OnOk result (Adds steps.old steps.new (relation_value_steps site.now number pushed)) }
{
    let setting = Setting {
        purpose: Purpose::Value,
        pushed,
    };
    match relation_of(site, number) {
        Some(relation) => {
            let outcome = plan_relation(site, &relation, setting, steps)?;
            plan_outcome_value(outcome, steps)
        }
        None => Ok(()),
    }
}
