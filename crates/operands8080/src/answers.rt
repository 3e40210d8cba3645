//! The purpose of an answer, and the place where its code leaves it.

ghost use Rattle.std.specs.Prelude.{◌≡◌, IfOk, OnOk};
ghost use Rattle.operands8080.specs.declared.answers.Answer.TheVariants.{Known};
ghost use Rattle.steps8080.specs.internal.Step.{Adds};
ghost use Rattle.operands8080.specs.internal.Answers.{known_steps};

use std::alloc::AllocError;
use steps8080::{Steps, Task};
use treecode::ExpressionNumber;

/// The purpose of the answer to a question.
#[derive(Clone, Copy)]
pub enum Purpose {
    /// A jump: the flags show the answer.
    Branch,
    /// A value: whether A is 0 may show the answer.
    Value,
}

/// The number of bytes that are pushed where a question is asked, and the purpose of the answer.
#[derive(Clone, Copy)]
pub struct Setting {
    pub purpose: Purpose,
    pub pushed: u16,
}

/// The place where the code of a question leaves the answer.
#[derive(Clone, Copy)]
pub enum Answer {
    Known(bool),
    /// The answer is yes if the carry is set.
    Carry,
    /// The answer is yes if the zero flag is set (for a jump), or if A is 0 (for a value).
    Zero,
}

/// The steps that evaluate an operand for its effects, when the answer is known.
pub fn plan_known(
    operand: ExpressionNumber,
    answer: bool,
    setting: Setting,
    steps: &mut Steps,
) -> Result<Answer, AllocError>
    ensures adds { OnOk result (Adds steps.old steps.new (known_steps operand setting)) }
    ensures answer { IfOk result (λ given. given ≡ Known answer) }
{
    steps.part(Task::Effects(operand), setting.pushed)?;
    Ok(Answer::Known(answer))
}
