//! Relations of BYTEs.

ghost use Rattle.std.specs.Prelude.{◌≡◌, IfOk, OnOk};
ghost use Rattle.steps8080.specs.internal.Step.{Adds};
ghost use Rattle.operands8080.specs.internal.ByteRelations.{answer_to, better_form, byte_is_steps, byte_number_answer, byte_number_steps, byte_relation_steps, comparing, exchanged, form_of, form_of_equality, in_order, is_better_exchanged, is_zero_steps, known_answer, may_begin_with, memory_form, number_in_a_answer, number_in_a_steps, pushed_steps, register_form, with_e_steps, with_memory_steps, without_push};

use crate::answers::{Answer, Purpose, Setting, plan_known};
use isa8080::{Instr, Operand, Operation, Register, StackPair};
use std::alloc::AllocError;
use steps8080::{
    Comparison, NumberQuestion, Question, Site, Step, Steps, Task, copy, with_memory, with_register,
};
use treecode::{ExpressionNumber, Reference};

/// Two operands: the first is in A, and the second is compared with it.
#[derive(Clone, Copy)]
pub struct Sides {
    pub first: ExpressionNumber,
    pub second: ExpressionNumber,
    /// Whether the first one is the left operand.
    pub is_in_order: bool,
}

/// The ways to compare two operands.
#[derive(Clone, Copy)]
pub enum Form {
    /// Puts the first operand into A, then the address of the second one into HL.
    WithMemory(Sides, Reference),
    /// Puts the second operand into E, then the first one into A.
    WithE(Sides),
    /// Pushes the left operand while the right one is evaluated.
    Pushed,
}

impl Sides {
    // The left operand first, in A.
    fn in_order(comparison: &Comparison) -> Sides
        ensures { result ≡ in_order comparison.now }
    {
        Sides {
            first: comparison.left,
            second: comparison.right,
            is_in_order: true,
        }
    }

    // The right operand first, in A.
    fn exchanged(comparison: &Comparison) -> Sides
        ensures { result ≡ exchanged comparison.now }
    {
        Sides {
            first: comparison.right,
            second: comparison.left,
            is_in_order: false,
        }
    }
}

// The steps that compare A with a number that is not 0. They set the zero flag, or leave 0 in A, if both are equal.
fn plan_is(number: u8, setting: Setting, steps: &mut Steps) -> Result<(), AllocError>
    ensures { OnOk result (Adds steps.old steps.new (byte_is_steps number setting)) }
{
    match setting.purpose {
        Purpose::Branch => steps.plain(Instr::AccumulateImmediate(Operation::Compare, number)),
        Purpose::Value => match number {
            1 => steps.plain(Instr::Dcr(Operand::Of(Register::A))),
            255 => steps.plain(Instr::Inr(Operand::Of(Register::A))),
            _ => steps.plain(Instr::AccumulateImmediate(Operation::Subtract, number)),
        },
    }
}

// The steps that test whether A is 0.
fn plan_is_zero(setting: Setting, steps: &mut Steps) -> Result<(), AllocError>
    ensures { OnOk result (Adds steps.old steps.new (is_zero_steps setting)) }
{
    match setting.purpose {
        Purpose::Branch => steps.push(Step::TestA),
        Purpose::Value => Ok(()),
    }
}

/// The steps that answer a question about A and a number.
pub fn plan_number_in_a(
    question: NumberQuestion,
    setting: Setting,
    steps: &mut Steps,
) -> Result<Answer, AllocError>
    ensures adds { OnOk result (Adds steps.old steps.new (number_in_a_steps question setting)) }
    ensures answer { IfOk result (λ answer. answer ≡ number_in_a_answer question) }
{
    match question {
        NumberQuestion::Never => Ok(Answer::Known(false)),
        NumberQuestion::Below(1) | NumberQuestion::Is(0) => {
            plan_is_zero(setting, steps)?;
            Ok(Answer::Zero)
        }
        NumberQuestion::Below(number) => match u8::try_from(number) {
            Ok(number) => {
                steps.plain(Instr::AccumulateImmediate(Operation::Compare, number))?;
                Ok(Answer::Carry)
            }
            Err(_) => Ok(Answer::Known(true)),
        },
        NumberQuestion::Is(number) => match u8::try_from(number) {
            Ok(number) => {
                plan_is(number, setting, steps)?;
                Ok(Answer::Zero)
            }
            Err(_) => Ok(Answer::Known(false)),
        },
    }
}

// The answer to a question about a BYTE, if it is the same for every BYTE.
fn known_answer(question: NumberQuestion) -> Option<bool>
    ensures { result ≡ known_answer question }
{
    match question {
        NumberQuestion::Never => Some(false),
        NumberQuestion::Below(number) if number > 255 => Some(true),
        NumberQuestion::Is(number) if number > 255 => Some(false),
        NumberQuestion::Below(_) | NumberQuestion::Is(_) => None,
    }
}

/// The steps that answer a question about a BYTE and a number.
pub fn plan_byte_number(
    operand: ExpressionNumber,
    question: NumberQuestion,
    setting: Setting,
    steps: &mut Steps,
) -> Result<Answer, AllocError>
    ensures adds { OnOk result (Adds steps.old steps.new (byte_number_steps operand question setting)) }
    ensures answer { IfOk result (λ answer. answer ≡ byte_number_answer question) }
{
    match known_answer(question) {
        Some(answer) => plan_known(operand, answer, setting, steps),
        None => {
            steps.part(Task::Byte(operand), setting.pushed)?;
            plan_number_in_a(question, setting, steps)
        }
    }
}

// The operation that answers a question. For equality as a value it leaves 0 in A.
fn comparing(question: Question, setting: Setting) -> Operation
    ensures { result ≡ comparing question setting }
{
    match (question, setting.purpose) {
        (Question::Equal, Purpose::Value) => Operation::Subtract,
        _ => Operation::Compare,
    }
}

// The place where the operation leaves the answer.
fn answer_to(question: Question) -> Answer
    ensures { result ≡ answer_to question }
{
    match question {
        Question::LeftBelow | Question::RightBelow => Answer::Carry,
        Question::Equal => Answer::Zero,
    }
}

// Whether this operand can be evaluated first.
fn may_begin_with(site: &Site<'_>, comparison: &Comparison, is_left: bool) -> bool
    ensures { result ≡ may_begin_with site.now comparison.now is_left }
{
    is_left || site.may_exchange(comparison.left, comparison.right)
}

// The comparison of A with a byte in memory, if possible.
fn memory_form(site: &Site<'_>, comparison: &Comparison, sides: Sides) -> Option<Form>
    ensures { result ≡ memory_form site.now comparison.now sides }
{
    match site.operand_in_memory(sides.second) {
        Some(reference) if may_begin_with(site, comparison, sides.is_in_order) => {
            Some(Form::WithMemory(sides, reference))
        }
        _ => None,
    }
}

// The comparison of A with E, if possible.
fn register_form(site: &Site<'_>, comparison: &Comparison, sides: Sides) -> Option<Form>
    ensures { result ≡ register_form site.now comparison.now sides }
{
    if site.is_free(sides.first) && may_begin_with(site, comparison, !sides.is_in_order) {
        Some(Form::WithE(sides))
    } else {
        None
    }
}

// The better one of the two comparisons without a push, if any is possible.
#[tactic(auto, unfolding(crate::specs::internal::ByteRelations::without_push))]
fn without_push(site: &Site<'_>, comparison: &Comparison, sides: Sides) -> Option<Form>
    ensures { result ≡ without_push site.now comparison.now sides }
{
    let by_register = register_form(site, comparison, sides);
    if by_register.is_some() && site.is_byte_in_register(sides.second) {
        return by_register;
    }
    match memory_form(site, comparison, sides) {
        Some(form) => Some(form),
        None => by_register,
    }
}

// Whether the comparison with the right operand in A is better: a register holds it, or HL holds the address of the
// left one and the code of the right one changes only A.
#[tactic(auto, unfolding(crate::specs::internal::ByteRelations::is_better_exchanged))]
fn is_better_exchanged(site: &Site<'_>, comparison: &Comparison) -> bool
    ensures { result ≡ is_better_exchanged site.now comparison.now }
{
    if site.is_byte_in_register(comparison.left) {
        return false;
    }
    site.is_byte_in_register(comparison.right)
        || site.is_at_hl(comparison.left) && site.is_free(comparison.right)
}

// The better one of the comparisons with the left operand in A and with the right one in A; else the one with a push.
fn better_form(one: Option<Form>, other: Option<Form>, is_other_better: bool) -> Form
    ensures { result ≡ better_form one other is_other_better }
{
    match (one, other) {
        (Some(_), Some(form)) if is_other_better => form,
        (Some(Form::WithE(_)), Some(Form::WithMemory(sides, reference))) => {
            Form::WithMemory(sides, reference)
        }
        (Some(form), _) | (None, Some(form)) => form,
        (None, None) => Form::Pushed,
    }
}

// The form of a test for equality: either operand may be in A.
fn form_of_equality(site: &Site<'_>, comparison: &Comparison) -> Form
    ensures { result ≡ form_of_equality site.now comparison.now }
{
    better_form(
        without_push(site, comparison, Sides::in_order(comparison)),
        without_push(site, comparison, Sides::exchanged(comparison)),
        is_better_exchanged(site, comparison),
    )
}

// The form of a comparison of two operands.
#[tactic(auto, unfolding(crate::specs::internal::ByteRelations::form_of))]
fn form_of(site: &Site<'_>, comparison: &Comparison) -> Form
    ensures { result ≡ form_of site.now comparison.now }
{
    let sides = match comparison.question {
        Question::LeftBelow => Sides::in_order(comparison),
        Question::RightBelow => Sides::exchanged(comparison),
        Question::Equal => return form_of_equality(site, comparison),
    };
    match without_push(site, comparison, sides) {
        Some(form) => form,
        None => Form::Pushed,
    }
}

// The steps that compare the first operand with the second one in memory.
fn plan_with_memory(
    sides: Sides,
    reference: Reference,
    operation: Operation,
    pushed: u16,
    steps: &mut Steps,
) -> Result<(), AllocError>
    ensures { OnOk result (Adds steps.old steps.new (with_memory_steps sides reference operation pushed)) }
{
    steps.part(Task::Byte(sides.first), pushed)?;
    steps.part(Task::Address(reference), pushed)?;
    steps.plain(with_memory(operation))
}

// The steps that compare the first operand with the second one in E.
fn plan_with_e(
    sides: Sides,
    operation: Operation,
    pushed: u16,
    steps: &mut Steps,
) -> Result<(), AllocError>
    ensures { OnOk result (Adds steps.old steps.new (with_e_steps sides operation pushed)) }
{
    steps.part(Task::Byte(sides.second), pushed)?;
    steps.plain(copy(Register::E, Register::A))?;
    steps.part(Task::Byte(sides.first), pushed)?;
    steps.plain(with_register(operation, Register::E))
}

// The steps that compare two operands and push the left one.
fn plan_pushed(
    comparison: &Comparison,
    operation: Operation,
    pushed: u16,
    steps: &mut Steps,
) -> Result<(), AllocError>
    ensures { OnOk result (Adds steps.old steps.new (pushed_steps comparison.now operation pushed)) }
{
    steps.part(Task::Byte(comparison.left), pushed)?;
    steps.plain(Instr::Push(StackPair::Psw))?;
    steps.part(Task::Byte(comparison.right), pushed.wrapping_add(2))?;
    match comparison.question {
        Question::LeftBelow => steps.all(&[
            copy(Register::B, Register::A),
            Instr::Pop(StackPair::Psw),
        ])?,
        Question::RightBelow | Question::Equal => { steps.plain(Instr::Pop(StackPair::StackBc))? }
    }
    steps.plain(with_register(operation, Register::B))
}

/// The steps that answer a question about two BYTEs.
pub fn plan_byte_relation(
    site: &Site<'_>,
    comparison: &Comparison,
    setting: Setting,
    steps: &mut Steps,
) -> Result<Answer, AllocError>
    ensures adds { OnOk result (Adds steps.old steps.new
        (byte_relation_steps site.now comparison.now setting)) }
    ensures answer { IfOk result (λ answer. answer ≡ answer_to comparison.now.question) }
{
    let operation = comparing(comparison.question, setting);
    let pushed = setting.pushed;
    match form_of(site, comparison) {
        Form::WithMemory(sides, reference) => {
            plan_with_memory(sides, reference, operation, pushed, steps)?
        }
        Form::WithE(sides) => plan_with_e(sides, operation, pushed, steps)?,
        Form::Pushed => plan_pushed(comparison, operation, pushed, steps)?,
    }
    Ok(answer_to(comparison.question))
}
