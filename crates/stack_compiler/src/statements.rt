//! The code of statements.

ghost use Rattle.std.specs.Prelude.{◌≡◌, ◌+◌, ◌++◌, ◌∷◌, [], map, option_map, IfOk, OnOk};
ghost use Rattle.typed_trees.specs.TypedTrees.{LoopStatement};
ghost use Rattle.typed_trees.specs.Views.{arguments_view, else_view, expression_view, head_view, iteration_view, list_view, statement_view, statements_view, target_view};
ghost use Rattle.meaning.specs.Meaning.{callee_in};
ghost use Rattle.stack_code.specs.declared.instruction.Instruction.TheVariants.{Case, Drop, Move, Return};
ghost use Rattle.stack_code.specs.internal.Code.{arguments_code, called_code, cases_code, choice_code, count_of_arguments, count_of_statements, else_code, entries_code, expression_code, first_code, list_code, statement_code, statements_code, surroundings_at, targets_code, test_code, value_or};
ghost use Rattle.stack_compiler.specs.internal.Counted.{Numbers, numbered_else, numbered_list, numbered_parts, numbered_statements};
ghost use Rattle.stack_compiler.specs.internal.Loops.{stepping_code, tested, turn_ended};
ghost use Rattle.stack_compiler.specs.internal.Openings.{opened, opening};
ghost use Rattle.stack_compiler.specs.internal.Sites.{site_view};

use crate::expressions::{emit_after, emit_arguments, emit_call, emit_expression, emit_target};
use crate::jumps::{close_cases, close_jump, close_jump_unless, emit_loop_back, holes, next_place};
use crate::marking::Marks;
use crate::purpose::{Purpose, emit, emit_all};
use crate::site::Site;
use crate::variables::variable_code;
use stack_code::Instruction;
use std::alloc::AllocError;
use trees::{BinaryOperator, ScalarType};
use typed_trees::{
    TypedAssignment, TypedCase, TypedExpression, TypedHead, TypedIf, TypedIteration, TypedList,
    TypedLoop, TypedMove, TypedStatement, TypedTarget,
};

// A value goes to targets, one by one.
fn emit_targets(
    site: &Site<'_>,
    code: &mut Vec<Instruction>,
    targets: &[TypedTarget],
) -> Result<(), AllocError>
    ensures { OnOk result (code.new.items
        ≡ code.old.items ++ targets_code (site_view site.now) (map target_view targets.now)) }
{
    for target in targets {
        emit_target(site, code, target)?;
    }
    Ok(())
}

// An assignment.
#[tactic(auto, using(std::proofs::lemmas::List::append_assoc))]
fn emit_assignment(
    site: &Site<'_>,
    code: &mut Vec<Instruction>,
    assignment: &TypedAssignment,
) -> Result<(), AllocError>
    ensures { OnOk result (code.new.items ≡ code.old.items
        ++ (expression_code (site_view site.now) (expression_view assignment.now.value)
        ++ (targets_code (site_view site.now) (map target_view assignment.now.targets.items)
        ++ (Drop ∷ [])))) }
{
    emit_expression(site, code, &assignment.value)?;
    emit_targets(site, code, assignment.targets.as_slice())?;
    emit(code, Instruction::Drop)
}

// A call whose value is not used.
#[tactic(auto, using(std::proofs::lemmas::List::append_assoc, crate::proofs::Arguments::arguments_count))]
fn emit_call_statement(
    site: &Site<'_>,
    code: &mut Vec<Instruction>,
    procedure: u32,
    arguments: &[TypedExpression],
) -> Result<(), AllocError>
    ensures { OnOk result (code.new.items ≡ code.old.items
        ++ (arguments_code (site_view site.now) (arguments_view arguments.now)
        ++ (called_code (callee_in (surroundings_at (site_view site.now)) procedure)
        (count_of_arguments (arguments_view arguments.now)) ++ (Drop ∷ [])))) }
{
    emit_arguments(site, code, arguments)?;
    emit_call(site, code, procedure, arguments.len())?;
    emit(code, Instruction::Drop)
}

// CALL MOVE.
#[tactic(auto, using(std::proofs::lemmas::List::append_assoc))]
fn emit_move(
    site: &Site<'_>,
    code: &mut Vec<Instruction>,
    moved: &TypedMove,
) -> Result<(), AllocError>
    ensures { OnOk result (code.new.items ≡ code.old.items
        ++ (expression_code (site_view site.now) (expression_view moved.now.count)
        ++ (expression_code (site_view site.now) (expression_view moved.now.source)
        ++ (expression_code (site_view site.now) (expression_view moved.now.destination)
        ++ (Move ∷ []))))) }
{
    emit_expression(site, code, &moved.count)?;
    emit_expression(site, code, &moved.source)?;
    emit_after(site, code, &moved.destination, Instruction::Move)
}

// RETURN.
#[tactic(auto, using(std::proofs::lemmas::List::append_assoc))]
fn emit_return(
    site: &Site<'_>,
    code: &mut Vec<Instruction>,
    value: &Option<Box<TypedExpression>>,
) -> Result<(), AllocError>
    ensures { OnOk result (code.new.items ≡ code.old.items
        ++ (value_or (site_view site.now) 0 (option_map (λ held. expression_view held.value) value.now)
        ++ (Return ∷ []))) }
{
    match value {
        Some(value) => emit_after(site, code, value, Instruction::Return),
        None => emit_all(code, &[Instruction::Push(0), Instruction::Return]),
    }
}

// Before the first turn of a loop the variable of an iterative DO gets its first value.
#[tactic(auto, using(std::proofs::lemmas::List::append_assoc))]
fn emit_first(
    site: &Site<'_>,
    code: &mut Vec<Instruction>,
    head: &TypedHead,
) -> Result<(), AllocError>
    ensures { OnOk result (code.new.items
        ≡ code.old.items ++ first_code (site_view site.now) (head_view head.now)) }
{
    match head {
        TypedHead::While(_) => Ok(()),
        TypedHead::Count(head) => {
            let variable = variable_code(site, Purpose::Writing(head.scalar), head.variable);
            emit_expression(site, code, &head.first)?;
            emit_all(code, &[variable, Instruction::Drop])
        }
    }
}

// The test: the condition of DO WHILE, or that the variable of an iterative DO is at most the last value.
#[tactic(auto, using(std::proofs::lemmas::List::append_assoc))]
fn emit_condition(
    site: &Site<'_>,
    code: &mut Vec<Instruction>,
    head: &TypedHead,
) -> Result<(), AllocError>
    ensures { OnOk result (code.new.items
        ≡ code.old.items ++ test_code (site_view site.now) (head_view head.now)) }
{
    match head {
        TypedHead::While(condition) => emit_expression(site, code, condition),
        TypedHead::Count(head) => {
            let variable = variable_code(site, Purpose::Reading(head.scalar), head.variable);
            let compare = Instruction::Binary(ScalarType::Address, BinaryOperator::GreaterOrEqual);
            emit_expression(site, code, &head.last)?;
            emit_all(code, &[variable, compare])
        }
    }
}

// The test after a turn, to which the jump before the body leads.
fn emit_test(
    site: &Site<'_>,
    code: &mut Vec<Instruction>,
    head: &TypedHead,
    start: usize,
) -> Result<(), AllocError>
    ensures { OnOk result (code.new.items
        ≡ tested (site_view site.now) (head_view head.now) code.old.items start) }
{
    close_jump(code, start);
    emit_condition(site, code, head)?;
    emit_loop_back(code, start)
}

// The step, which is 1 if none is written.
fn emit_step(
    site: &Site<'_>,
    code: &mut Vec<Instruction>,
    step: &Option<TypedExpression>,
) -> Result<(), AllocError>
    ensures { OnOk result (code.new.items
        ≡ code.old.items ++ value_or (site_view site.now) 1 (option_map expression_view step.now)) }
{
    match step {
        Some(step) => emit_expression(site, code, step),
        None => emit(code, Instruction::Push(1)),
    }
}

// The variable is changed by the step.
#[tactic(auto, using(std::proofs::lemmas::List::append_assoc))]
fn emit_stepping(
    site: &Site<'_>,
    code: &mut Vec<Instruction>,
    head: &TypedIteration,
) -> Result<(), AllocError>
    ensures { OnOk result (code.new.items
        ≡ code.old.items ++ stepping_code (site_view site.now) (iteration_view head.now)) }
{
    let read = variable_code(site, Purpose::Reading(head.scalar), head.variable);
    let write = variable_code(site, Purpose::Writing(head.scalar), head.variable);
    emit_step(site, code, &head.step)?;
    emit_all(
        code,
        &[
            read,
            Instruction::Step(head.scalar),
            write,
            Instruction::Drop,
        ],
    )
}

// What follows the body of a loop: the step of an iterative DO, which may leave the loop, and the test.
fn emit_turn_end(
    site: &Site<'_>,
    code: &mut Vec<Instruction>,
    head: &TypedHead,
    start: usize,
) -> Result<(), AllocError>
    ensures { OnOk result (code.new.items
        ≡ turn_ended (site_view site.now) (head_view head.now) code.old.items start) }
{
    match head {
        TypedHead::While(_) => emit_test(site, code, head, start),
        TypedHead::Count(iteration) => {
            emit_stepping(site, code, iteration)?;
            let leave = next_place(code);
            emit(code, Instruction::JumpUnless(0))?;
            emit_test(site, code, head, start)?;
            close_jump_unless(code, leave);
            Ok(())
        }
    }
}

/// A statement.
#[cycle(statement)]
#[tactic(auto, using(crate::proofs::Counted::statement_numbered))]
pub(crate) fn emit_statement(
    site: &Site<'_>,
    code: &mut Vec<Instruction>,
    marks: &mut Marks,
    statement: &TypedStatement,
) -> Result<(), AllocError>
    ensures code { OnOk result (code.new.items
        ≡ code.old.items ++ statement_code (site_view site.now) (statement_view statement.now)) }
    ensures numbers { OnOk result (Numbers 0 (numbered_parts (statement_view statement.now) + 1)
        marks.old marks.new) }
{
    let open = marks.begin_statement(code)?;
    emit_kind(site, code, marks, statement)?;
    marks.end_statement(open);
    Ok(())
}

// A statement, after its mark.
#[cycle(statement)]
#[tactic(auto, using(typed_trees::specs::declared::statement::TypedStatement::the_lemmas, typed_trees::proofs::Views::statement_rows_are, crate::proofs::Counted::more_to_spare, crate::proofs::Counted::no_numbers))]
fn emit_kind(
    site: &Site<'_>,
    code: &mut Vec<Instruction>,
    marks: &mut Marks,
    statement: &TypedStatement,
) -> Result<(), AllocError>
    ensures code { OnOk result (code.new.items
        ≡ code.old.items ++ statement_code (site_view site.now) (statement_view statement.now)) }
    ensures numbers { OnOk result (Numbers 1 (numbered_parts (statement_view statement.now))
        marks.old marks.new) }
{
    match statement {
        TypedStatement::Label(label) => emit(
            code,
            Instruction::Mark {
                module: site.number_of_module,
                label: *label,
            },
        ),
        TypedStatement::Null => Ok(()),
        TypedStatement::Assignment(assignment) => emit_assignment(site, code, assignment),
        TypedStatement::Call {
            procedure,
            arguments,
        } => emit_call_statement(site, code, *procedure, arguments.as_slice()),
        TypedStatement::Move(moved) => emit_move(site, code, moved),
        TypedStatement::Return(value) => emit_return(site, code, value),
        TypedStatement::Halt => emit(code, Instruction::Halt),
        TypedStatement::Goto(label) => emit(
            code,
            Instruction::Goto {
                module: site.number_of_module,
                label: *label,
            },
        ),
        TypedStatement::If(branch) => emit_if(site, code, marks, branch),
        TypedStatement::Do(body) => emit_list(site, code, marks, body),
        TypedStatement::Loop(turns) => emit_loop(site, code, marks, turns),
        TypedStatement::Case(choice) => emit_case(site, code, marks, choice),
    }
}

// IF with ELSE, or without.
#[cycle(statement)]
fn emit_if(
    site: &Site<'_>,
    code: &mut Vec<Instruction>,
    marks: &mut Marks,
    branch: &TypedIf,
) -> Result<(), AllocError>
    ensures code { OnOk result (code.new.items ≡ code.old.items
        ++ (expression_code (site_view site.now) (expression_view branch.now.condition)
        ++ choice_code (statement_code (site_view site.now) (statement_view branch.now.body))
        (else_code (site_view site.now) (else_view branch.now.otherwise)))) }
    ensures numbers { OnOk result (Numbers 1 (numbered_parts (statement_view branch.now.body) + 1
        + numbered_else (else_view branch.now.otherwise)) marks.old marks.new) }
{
    emit_expression(site, code, &branch.condition)?;
    let choice = next_place(code);
    emit(code, Instruction::JumpUnless(0))?;
    emit_statement(site, code, marks, &branch.body)?;
    match &branch.otherwise {
        Some(otherwise) => {
            let end = next_place(code);
            emit(code, Instruction::Jump(0))?;
            close_jump_unless(code, choice);
            emit_statement(site, code, marks, otherwise)?;
            close_jump(code, end);
        }
        None => close_jump_unless(code, choice),
    }
    Ok(())
}

/// The statements of a list.
#[cycle(statement)]
pub(crate) fn emit_list(
    site: &Site<'_>,
    code: &mut Vec<Instruction>,
    marks: &mut Marks,
    list: &TypedList,
) -> Result<(), AllocError>
    ensures code { OnOk result (code.new.items
        ≡ code.old.items ++ list_code (site_view site.now) (list_view list.now)) }
    ensures numbers { OnOk result (Numbers 0 (numbered_list (list_view list.now)) marks.old marks.new) }
{
    emit_statements(site, code, marks, list.statements.as_slice())
}

// Statements one after another.
#[cycle(statement)]
#[tactic(auto, using(crate::proofs::Counted::so_far_nothing))]
fn emit_statements(
    site: &Site<'_>,
    code: &mut Vec<Instruction>,
    marks: &mut Marks,
    statements: &[TypedStatement],
) -> Result<(), AllocError>
    ensures code { OnOk result (code.new.items
        ≡ code.old.items ++ statements_code (site_view site.now) (statements_view statements.now)) }
    ensures numbers { OnOk result (Numbers 0 (numbered_statements (statements_view statements.now))
        marks.old marks.new) }
{
    for statement in statements {
        emit_statement(site, code, marks, statement)?;
    }
    Ok(())
}

// A loop: the test, after the step of an iterative DO, stands after the body.
#[cycle(statement)]
fn emit_loop(
    site: &Site<'_>,
    code: &mut Vec<Instruction>,
    marks: &mut Marks,
    turns: &TypedLoop,
) -> Result<(), AllocError>
    ensures code { OnOk result (code.new.items ≡ code.old.items
        ++ statement_code (site_view site.now)
        (LoopStatement (head_view turns.now.head) (list_view turns.now.body))) }
    ensures numbers { OnOk result (Numbers 1 (numbered_list (list_view turns.now.body)) marks.old marks.new) }
{
    emit_first(site, code, &turns.head)?;
    let start = next_place(code);
    emit(code, Instruction::Jump(0))?;
    emit_list(site, code, marks, &turns.body)?;
    marks.end_body(code)?;
    emit_turn_end(site, code, &turns.head, start)
}

// DO CASE.
#[cycle(statement)]
#[tactic(auto, using(crate::proofs::Cases::case_made, crate::proofs::StatementLoops::statements_count))]
fn emit_case(
    site: &Site<'_>,
    code: &mut Vec<Instruction>,
    marks: &mut Marks,
    choice: &TypedCase,
) -> Result<(), AllocError>
    ensures code { OnOk result (code.new.items ≡ code.old.items
        ++ (expression_code (site_view site.now) (expression_view choice.now.choice)
        ++ (Case (count_of_statements (statements_view choice.now.body.items))
        ∷ (entries_code (site_view site.now) (count_of_statements (statements_view choice.now.body.items)) 0
        (statements_view choice.now.body.items)
        ++ cases_code (site_view site.now) (statements_view choice.now.body.items))))) }
    ensures numbers { OnOk result (Numbers 1 (numbered_statements (statements_view choice.now.body.items))
        marks.old marks.new) }
{
    emit_expression(site, code, &choice.choice)?;
    emit(code, Instruction::Case(choice.body.len()))?;
    let base = marks.enter(code);
    let cases = cases_of(site, marks, choice.body.as_slice())?;
    marks.leave(base);
    code.extend_from_slice(cases.as_slice())?;
    Ok(())
}

// A jump to each statement of DO CASE, and one past them; and then the statements, each with a jump past those after it.
#[cycle(statement)]
fn cases_of(
    site: &Site<'_>,
    marks: &mut Marks,
    statements: &[TypedStatement],
) -> Result<Vec<Instruction>, AllocError>
    ensures code { IfOk result (λ cases. cases.items
        ≡ entries_code (site_view site.now) (count_of_statements (statements_view statements.now)) 0
        (statements_view statements.now)
        ++ cases_code (site_view site.now) (statements_view statements.now)) }
    ensures numbers { OnOk result (Numbers 1 (numbered_statements (statements_view statements.now))
        marks.old marks.new) }
{
    let mut cases = holes(site.alloc, statements.len())?;
    let mut ends = Vec::new(site.alloc);
    open_cases(site, &mut cases, &mut ends, marks, statements)?;
    close_cases(&mut cases, ends.as_slice());
    Ok(cases)
}

// The statements of DO CASE, each with a jump after it that is filled in later; each has its jump among the first ones.
#[cycle(statement)]
#[tactic(auto, using(crate::proofs::Counted::so_far_nothing))]
fn open_cases(
    site: &Site<'_>,
    cases: &mut Vec<Instruction>,
    ends: &mut Vec<usize>,
    marks: &mut Marks,
    statements: &[TypedStatement],
) -> Result<(), AllocError>
    ensures code { OnOk result (opening cases.new.items ends.new.items
        ≡ opened (site_view site.now) 0 (opening cases.old.items ends.old.items)
        (statements_view statements.now)) }
    ensures numbers { OnOk result (Numbers 1 (numbered_statements (statements_view statements.now))
        marks.old marks.new) }
{
    for (entry, statement) in statements.iter().enumerate() {
        close_jump(cases, entry);
        emit_statement(site, cases, marks, statement)?;
        emit(cases, Instruction::Jump(0))?;
        ends.push(cases.len())?;
    }
    close_jump(cases, statements.len());
    Ok(())
}
