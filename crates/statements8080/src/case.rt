//! DO CASE.

ghost use Rattle.std.specs.Prelude.{◌≡◌, OnOk};
ghost use Rattle.statements8080.specs.internal.Plans.{PlanAdds, PlanAddsWithLabels};
ghost use Rattle.statements8080.specs.internal.Cases.{byte_choice_steps, case_labels, case_steps, cases_end_steps, choice_at_steps, choice_labels, choice_steps, entry_of, into_table_steps, number_in_de_steps, statement_at, statements_steps, table_at, table_steps, word_choice_steps};

use crate::body::Body;
use crate::iteration::plan_less;
use crate::plan::{Plan, Planned, label_at};
use asm8080::WordForm;
use exprgen8080::{LabelNumber, Site, Task};
use isa8080::{Condition, Instr, Operand, Operation, Pair, Register};
use std::alloc::AllocError;
use treecode::{ExpressionNumber, Range, Statement};
use trees::ScalarType;

// Puts the number of a BYTE choice into DE, and jumps to the end if no statement has this number.
fn plan_byte_choice(
    plan: &mut Plan,
    choice: ExpressionNumber,
    count: u32,
    end: LabelNumber,
) -> Result<(), AllocError>
    ensures { OnOk result (PlanAdds plan.old plan.new (byte_choice_steps choice count end)) }
{
    plan.part(Task::Byte(choice), 0)?;
    if count < 256 {
        plan.plain(Instr::AccumulateImmediate(Operation::Compare, (count % 256) as u8))?;
        plan.jump(WordForm::JumpWhere(Condition::NoCarry), end)?;
    }
    plan.plain(Instr::Mov(Register::E, Operand::Of(Register::A)))?;
    plan.plain(Instr::Mvi(Operand::Of(Register::D), 0))
}

// Puts the number of an ADDRESS choice into DE, and jumps to the end if no statement has this number.
fn plan_word_choice(
    plan: &mut Plan,
    choice: ExpressionNumber,
    count: u32,
    end: LabelNumber,
) -> Result<(), AllocError>
    ensures { OnOk result (PlanAdds plan.old plan.new (word_choice_steps choice count end)) }
{
    plan.part(Task::Word(choice), 0)?;
    if let Ok(count) = u16::try_from(count) {
        plan_less(plan, count)?;
        plan.jump(WordForm::JumpWhere(Condition::NoCarry), end)?;
    }
    plan.plain(Instr::Xchg)
}

// Puts the number of the choice into DE, by its type.
#[tactic(auto, unfolding(crate::specs::internal::Cases::number_in_de_steps))]
fn plan_number_in_de(
    plan: &mut Plan,
    scalar: ScalarType,
    choice: ExpressionNumber,
    count: u32,
    end: LabelNumber,
) -> Result<(), AllocError>
    ensures { OnOk result (PlanAdds plan.old plan.new (number_in_de_steps scalar choice count end)) }
{
    match scalar {
        ScalarType::Byte => plan_byte_choice(plan, choice, count, end),
        ScalarType::Address => plan_word_choice(plan, choice, count, end),
    }
}

// The label at which a statement of the list is entered: that of its GOTO, the end for a null statement, else a label
// of its own.
fn entry_of(
    body: &Body<'_>,
    list: Range,
    index: u32,
    own: LabelNumber,
    end: LabelNumber,
) -> LabelNumber
    ensures { result ≡ entry_of body.now list index own end }
{
    let statement = match body.tree.item(list, index) {
        Some(number) => body.tree.statement(number),
        None => None,
    };
    match statement {
        Some(Statement::Goto(label)) => body.label(label),
        Some(Statement::Null) | None => end,
        Some(_) => own,
    }
}

// The jump to the statement at an index.
#[tactic(auto, unfolding(crate::specs::internal::Cases::table_at))]
fn plan_table_entry(
    body: &Body<'_>,
    plan: &mut Plan,
    list: Range,
    first: LabelNumber,
    end: LabelNumber,
    index: u32,
) -> Result<(), AllocError>
    ensures { OnOk result (PlanAdds plan.old plan.new (table_at body.now list first end index)) }
{
    let entry = entry_of(body, list, index, label_at(first, index), end);
    plan.jump(WordForm::Jump, entry)
}

// The jumps to the statements, one after another.
#[tactic(auto, using(crate::proofs::Adding::adding_begins, crate::proofs::Adding::adding_goes_on, crate::proofs::Adding::adding_ends, crate::proofs::Adding::steps_from_here), unfolding(crate::specs::internal::Cases::table_steps))]
fn plan_table(
    body: &Body<'_>,
    plan: &mut Plan,
    list: Range,
    first: LabelNumber,
    end: LabelNumber,
) -> Result<(), AllocError>
    ensures { OnOk result (PlanAdds plan.old plan.new (table_steps body.now list first end)) }
{
    for index in 0..list.count {
        plan_table_entry(body, plan, list, first, end, index)?;
    }
    Ok(())
}

// The statement at an index with its label, if it has code here.
fn plan_statement_at(
    body: &Body<'_>,
    plan: &mut Plan,
    list: Range,
    first: LabelNumber,
    end: LabelNumber,
    index: u32,
) -> Result<(), AllocError>
    ensures { OnOk result (PlanAdds plan.old plan.new (statement_at body.now list first end index)) }
{
    let Some(statement) = body.tree.item(list, index) else {
        return Ok(());
    };
    let own = label_at(first, index);
    if entry_of(body, list, index, own, end) != own {
        return Ok(());
    }
    plan.mark(own)?;
    plan.push(Planned::Statement(statement))?;
    if index < list.count.saturating_sub(1) {
        plan.push(Planned::JumpOn(end))?;
    }
    Ok(())
}

// The statements with their labels. Each but the last jumps to the end. A null statement or a GOTO has no code here.
#[tactic(auto, using(crate::proofs::Adding::adding_begins, crate::proofs::Adding::adding_goes_on, crate::proofs::Adding::adding_ends, crate::proofs::Adding::steps_from_here), unfolding(crate::specs::internal::Cases::statements_steps))]
fn plan_statements(
    body: &Body<'_>,
    plan: &mut Plan,
    list: Range,
    first: LabelNumber,
    end: LabelNumber,
) -> Result<(), AllocError>
    ensures { OnOk result (PlanAdds plan.old plan.new (statements_steps body.now list first end)) }
{
    for index in 0..list.count {
        plan_statement_at(body, plan, list, first, end, index)?;
    }
    Ok(())
}

// Jumps into the table, to the entry with the number in DE. The table begins here.
#[tactic(auto, unfolding(crate::specs::internal::Cases::into_table_steps))]
fn plan_into_table(plan: &mut Plan, table: LabelNumber) -> Result<(), AllocError>
    ensures { OnOk result (PlanAdds plan.old plan.new (into_table_steps table)) }
{
    plan.jump(WordForm::LoadPair(Pair::Hl), table)?;
    plan.all(&[
        Instr::Dad(Pair::De),
        Instr::Dad(Pair::De),
        Instr::Dad(Pair::De),
        Instr::Pchl,
    ])?;
    plan.mark(table)
}

// The end, which all statements reach.
#[tactic(auto, unfolding(crate::specs::internal::Cases::cases_end_steps))]
fn plan_cases_end(plan: &mut Plan, end: LabelNumber) -> Result<(), AllocError>
    ensures { OnOk result (PlanAdds plan.old plan.new (cases_end_steps end)) }
{
    plan.mark(end)?;
    plan.push(Planned::Reaches(true))
}

// DO CASE with a choice that is not known, with these labels of the table, the end and the first statement.
#[tactic(auto, unfolding(crate::specs::internal::Cases::choice_at_steps))]
fn plan_choice_at(
    body: &Body<'_>,
    site: &Site<'_>,
    plan: &mut Plan,
    choice: ExpressionNumber,
    list: Range,
    table: LabelNumber,
    end: LabelNumber,
    own: LabelNumber,
) -> Result<(), AllocError>
    ensures { OnOk result (PlanAdds plan.old plan.new
        (choice_at_steps body.now site.now choice list table end own)) }
{
    plan_number_in_de(plan, site.scalar(choice), choice, list.count, end)?;
    plan_into_table(plan, table)?;
    plan_table(body, plan, list, own, end)?;
    plan_statements(body, plan, list, own, end)?;
    plan_cases_end(plan, end)
}

// DO CASE with a choice that is not known, by a table of jumps.
fn plan_choice(
    body: &Body<'_>,
    site: &Site<'_>,
    plan: &mut Plan,
    choice: ExpressionNumber,
    list: Range,
) -> Result<(), AllocError>
    ensures { OnOk result (PlanAddsWithLabels plan.old plan.new (choice_labels list)
        (choice_steps body.now site.now choice list)) }
{
    let table = plan.labels(list.count.saturating_add(2));
    let end = label_at(table, 1);
    let own = label_at(table, 2);
    plan_choice_at(body, site, plan, choice, list, table, end, own)
}

/// The steps of DO CASE. If the choice is known, only its statement has code.
pub fn plan_case(
    body: &Body<'_>,
    site: &Site<'_>,
    plan: &mut Plan,
    choice: ExpressionNumber,
    list: Range,
) -> Result<(), AllocError>
    ensures { OnOk result (PlanAddsWithLabels plan.old plan.new (case_labels site.now choice list)
        (case_steps body.now site.now choice list)) }
{
    if let Some(number) = site.number(choice) {
        return match body.tree.item(list, number as u32) {
            Some(statement) => plan.push(Planned::Statement(statement)),
            None => Ok(()),
        };
    }
    if list.count == 0 {
        return plan.part(Task::Effects(choice), 0);
    }
    plan_choice(body, site, plan, choice, list)
}
