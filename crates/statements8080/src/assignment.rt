//! Assignments.

ghost use Rattle.std.specs.Prelude.{◌≡◌, OnOk};
ghost use Rattle.statements8080.specs.internal.Plans.{PlanAdds};
ghost use Rattle.statements8080.specs.internal.Assignments.{assignment_steps, byte_steps, count_of, each_steps, from_byte_steps, from_type, from_word_steps, is_address_first, is_one, is_quiet_subscript, is_value_of, number_steps, several_steps, single_steps, stores_steps, takes_word, together_steps, types_of, word_steps};

use crate::body::Body;
use crate::plan::Plan;
use crate::same::are_same;
use exprgen8080::{Site, Task};
use isa8080::{Instr, Operand, Pair, Register};
use std::alloc::AllocError;
use treecode::{ExpressionForm, ExpressionNumber, Range, Reference, Subscript, Target};
use trees::{BinaryOperator, ScalarType};

// The types of several targets.
#[derive(Clone, Copy)]
enum TargetTypes {
    // Each takes a byte.
    Bytes,
    // Each takes a word.
    Words,
    Mixed,
}

// Whether a target takes a word.
fn takes_word(target: Target) -> bool
    ensures { result ≡ takes_word target }
{
    match target {
        Target::Stored { to, .. } => matches!(to, ScalarType::Address),
        Target::Sent { .. } => false,
    }
}

// The target for a value of the type `from`.
fn from_type(target: Target, from: ScalarType) -> Target
    ensures { result ≡ from_type target from }
{
    match target {
        Target::Stored {
            from: _,
            to,
            reference,
        } => Target::Stored {
            from,
            to,
            reference,
        },
        Target::Sent { from: _, port } => Target::Sent { from, port },
    }
}

// Whether evaluating a subscript changes nothing.
fn is_quiet_subscript(site: &Site<'_>, subscript: Option<Subscript>) -> bool
    ensures { result ≡ is_quiet_subscript site.now subscript }
{
    match subscript {
        Some(subscript) => site.is_quiet(subscript.index),
        None => true,
    }
}

// Whether to compute the address of a BYTE target before its value: the code of the address does not keep A, that of
// the value changes only A, and the order makes no difference.
fn is_address_first(site: &Site<'_>, reference: &Reference, value: ExpressionNumber) -> bool
    ensures { result ≡ is_address_first site.now reference.now value }
{
    !site.keeps_of_address(reference).a
        && site.is_free(value)
        && is_quiet_subscript(site, reference.subscript)
        && is_quiet_subscript(site, reference.member_subscript)
}

// INR M or DCR M, if the value is the BYTE itself plus 1 or minus 1.
fn count_of(site: &Site<'_>, reference: &Reference, value: ExpressionNumber) -> Option<Instr>
    ensures { result ≡ count_of site.now reference.now value }
{
    let Some(expression) = site.expression(value) else {
        return None;
    };
    let ExpressionForm::Binary {
        operands: ScalarType::Byte,
        operator,
        left,
        right,
    } = expression.form
    else {
        return None;
    };
    if !is_value_of(site, left, reference) || !is_one(site, right) {
        return None;
    }
    match operator {
        BinaryOperator::Add => Some(Instr::Inr(Operand::M)),
        BinaryOperator::Subtract => Some(Instr::Dcr(Operand::M)),
        _ => None,
    }
}

// Whether an expression is the number 1.
fn is_one(site: &Site<'_>, number: ExpressionNumber) -> bool
    ensures { result ≡ is_one site.now number }
{
    matches!(site.number(number), Some(1))
}

// Whether an expression is the value of a reference.
fn is_value_of(site: &Site<'_>, number: ExpressionNumber, reference: &Reference) -> bool
    ensures { result ≡ is_value_of site.now number reference.now }
{
    match site.expression(number) {
        Some(expression) => match expression.form {
            ExpressionForm::Value(other) => are_same(site, &other, reference),
            _ => false,
        },
        None => false,
    }
}

// Assigns the low byte of a value to a BYTE.
fn plan_byte(
    site: &Site<'_>,
    plan: &mut Plan,
    reference: Reference,
    value: ExpressionNumber,
) -> Result<(), AllocError>
    ensures { OnOk result (PlanAdds plan.old plan.new (byte_steps site.now reference value)) }
{
    if let Some(number) = site.number(value) {
        plan.part(Task::Address(reference), 0)?;
        return plan.plain(Instr::Mvi(Operand::M, (number % 256) as u8));
    }
    if let Some(instruction) = count_of(site, &reference, value) {
        plan.part(Task::Address(reference), 0)?;
        return plan.plain(instruction);
    }
    if is_address_first(site, &reference, value) {
        plan.part(Task::Address(reference), 0)?;
        plan.part(Task::Byte(value), 0)?;
        return plan.plain(Instr::MovToMemory(Register::A));
    }
    let target = Target::Stored {
        from: ScalarType::Byte,
        to: ScalarType::Byte,
        reference,
    };
    plan_from_byte(plan, target, value)
}

// Stores the low byte of a value in a target.
fn plan_from_byte(
    plan: &mut Plan,
    target: Target,
    value: ExpressionNumber,
) -> Result<(), AllocError>
    ensures { OnOk result (PlanAdds plan.old plan.new (from_byte_steps target value)) }
{
    plan.part(Task::Byte(value), 0)?;
    plan.part(
        Task::Store {
            target: from_type(target, ScalarType::Byte),
            is_wanted: false,
        },
        0,
    )
}

// Stores a value in a target as a word.
fn plan_from_word(
    plan: &mut Plan,
    target: Target,
    value: ExpressionNumber,
) -> Result<(), AllocError>
    ensures { OnOk result (PlanAdds plan.old plan.new (from_word_steps target value)) }
{
    plan.part(Task::Word(value), 0)?;
    plan.part(
        Task::Store {
            target: from_type(target, ScalarType::Address),
            is_wanted: false,
        },
        0,
    )
}

// Stores a number in an ADDRESS, byte by byte.
fn plan_number(plan: &mut Plan, reference: Reference, number: u16) -> Result<(), AllocError>
    ensures { OnOk result (PlanAdds plan.old plan.new (number_steps reference number)) }
{
    plan.part(Task::Address(reference), 0)?;
    plan.plain(Instr::Mvi(Operand::M, (number % 256) as u8))?;
    plan.plain(Instr::Inx(Pair::Hl))?;
    plan.plain(Instr::Mvi(Operand::M, (number / 256) as u8))
}

// Assigns a value to an ADDRESS.
fn plan_word(
    body: &Body<'_>,
    site: &Site<'_>,
    plan: &mut Plan,
    target: Target,
    reference: Reference,
    value: ExpressionNumber,
) -> Result<(), AllocError>
    ensures { OnOk result (PlanAdds plan.old plan.new (word_steps body.now site.now target reference value)) }
{
    if body.is_near(site.location_of(&reference)) {
        return plan_from_word(plan, target, value);
    }
    if let Some(number) = site.number(value) {
        return plan_number(plan, reference, number);
    }
    match target.source() {
        ScalarType::Byte => plan_from_byte(plan, target, value),
        ScalarType::Address => plan_from_word(plan, target, value),
    }
}

/// Assigns a value to one target.
pub fn plan_single(
    body: &Body<'_>,
    site: &Site<'_>,
    plan: &mut Plan,
    target: Target,
    value: ExpressionNumber,
) -> Result<(), AllocError>
    ensures { OnOk result (PlanAdds plan.old plan.new (single_steps body.now site.now target value)) }
{
    match target {
        Target::Stored { to, reference, .. } => match to {
            ScalarType::Byte => plan_byte(site, plan, reference, value),
            ScalarType::Address => plan_word(body, site, plan, target, reference, value),
        },
        Target::Sent { .. } => plan_from_byte(plan, target, value),
    }
}

// The types of the targets.
#[tactic(auto, using(crate::proofs::Adding::any_target_here))]
fn types_of(body: &Body<'_>, targets: Range) -> TargetTypes
    ensures { result ≡ types_of body.now targets }
{
    let mut takes_bytes = false;
    let mut takes_words = false;
    for index in 0..targets.count {
        if let Some(target) = body.tree.target(targets, index) {
            let is_word = takes_word(target);
            takes_words = takes_words || is_word;
            takes_bytes = takes_bytes || !is_word;
        }
    }
    match (takes_bytes, takes_words) {
        (_, false) => TargetTypes::Bytes,
        (false, true) => TargetTypes::Words,
        (true, true) => TargetTypes::Mixed,
    }
}

// Assigns a value to each target, as if it were the only one.
#[tactic(auto, using(crate::proofs::Adding::adding_begins, crate::proofs::Adding::adding_goes_on, crate::proofs::Adding::adding_ends, crate::proofs::Adding::steps_from_here))]
fn plan_each(
    body: &Body<'_>,
    site: &Site<'_>,
    plan: &mut Plan,
    targets: Range,
    value: ExpressionNumber,
) -> Result<(), AllocError>
    ensures { OnOk result (PlanAdds plan.old plan.new (each_steps body.now site.now targets value)) }
{
    for index in 0..targets.count {
        if let Some(target) = body.tree.target(targets, index) {
            plan_single(body, site, plan, target, value)?;
        }
    }
    Ok(())
}

// Stores a value that is in A or HL, by its type, in all targets.
#[tactic(auto, using(crate::proofs::Adding::adding_begins, crate::proofs::Adding::adding_goes_on, crate::proofs::Adding::adding_ends, crate::proofs::Adding::steps_from_here))]
fn plan_stores(
    body: &Body<'_>,
    plan: &mut Plan,
    targets: Range,
    from: ScalarType,
) -> Result<(), AllocError>
    ensures { OnOk result (PlanAdds plan.old plan.new (stores_steps body.now targets from)) }
{
    for index in 0..targets.count {
        if let Some(target) = body.tree.target(targets, index) {
            let is_wanted = index < targets.count.saturating_sub(1);
            let target = from_type(target, from);
            plan.part(Task::Store { target, is_wanted }, 0)?;
        }
    }
    Ok(())
}

// Assigns a value, which is evaluated once, to several targets.
fn plan_together(
    body: &Body<'_>,
    plan: &mut Plan,
    targets: Range,
    value: ExpressionNumber,
    from: ScalarType,
) -> Result<(), AllocError>
    ensures { OnOk result (PlanAdds plan.old plan.new (together_steps body.now targets value from)) }
{
    match from {
        ScalarType::Byte => plan.part(Task::Byte(value), 0)?,
        ScalarType::Address => plan.part(Task::Word(value), 0)?,
    }
    plan_stores(body, plan, targets, from)
}

// Assigns a value to several targets.
fn plan_several(
    body: &Body<'_>,
    site: &Site<'_>,
    plan: &mut Plan,
    targets: Range,
    value: ExpressionNumber,
) -> Result<(), AllocError>
    ensures { OnOk result (PlanAdds plan.old plan.new (several_steps body.now site.now targets value)) }
{
    match types_of(body, targets) {
        TargetTypes::Bytes => plan_together(body, plan, targets, value, ScalarType::Byte),
        TargetTypes::Words => plan_together(body, plan, targets, value, ScalarType::Address),
        TargetTypes::Mixed => {
            if site.number(value).is_some() {
                plan_each(body, site, plan, targets, value)
            } else {
                plan_together(body, plan, targets, value, site.scalar(value))
            }
        }
    }
}

/// The steps of an assignment.
pub fn plan_assignment(
    body: &Body<'_>,
    site: &Site<'_>,
    plan: &mut Plan,
    targets: Range,
    value: ExpressionNumber,
) -> Result<(), AllocError>
    ensures { OnOk result (PlanAdds plan.old plan.new (assignment_steps body.now site.now targets value)) }
{
    if targets.count == 1 {
        plan_each(body, site, plan, targets, value)
    } else {
        plan_several(body, site, plan, targets, value)
    }
}
