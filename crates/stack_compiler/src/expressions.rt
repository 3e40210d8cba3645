//! The code of expressions.

ghost use Rattle.std.specs.Prelude.{◌≡◌, ◌%◌, ◌++◌, ◌∷◌, [], replicate, OnOk};
ghost use Rattle.mem80.specs.declared.memory.TheConstants.{MEMORY_SIZE};
ghost use Rattle.trees.specs.declared.declaration.ScalarType.TheVariants.{Address};
ghost use Rattle.typed_trees.specs.Views.{arguments_view, expression_view, reference_view, subscript_view, target_view};
ghost use Rattle.meaning.specs.Meaning.{callee_in};
ghost use Rattle.stack_code.specs.declared.instruction.Instruction.TheVariants.{Drop};
ghost use Rattle.stack_code.specs.internal.Code.{ToRead, added_to_bytes, arguments_code, called_code, expression_code, index_code, instruction_after, number_in, operator_code, reference_code, scaled_code, summed, surroundings_at, target_code, variable_code};
ghost use Rattle.stack_compiler.specs.internal.ObjectParts.{based_code, bytes_code, framed_code, lacks_subscripts, placed_code};
ghost use Rattle.stack_compiler.specs.internal.Purposes.{purpose_view};
ghost use Rattle.stack_compiler.specs.internal.Sites.{site_view};

use crate::purpose::{
    Purpose, emit, instruction_after, instruction_at, instruction_of_frame, part_of,
};
use crate::site::Site;
use crate::variables::{address_after, variable_code, wrapped};
use resolving::Storage;
use stack_code::Instruction;
use std::alloc::AllocError;
use trees::{BinaryOperator, ScalarType};
use typed_trees::{TypedExpression, TypedReference, TypedSubscript, TypedTarget};

/// The value of an expression.
#[cycle(expression)]
#[tactic(auto, using(typed_trees::specs::declared::expression::TypedExpression::the_lemmas, typed_trees::proofs::Views::argument_rows_are, std::proofs::lemmas::List::append_assoc, crate::proofs::Arguments::arguments_count))]
pub(crate) fn emit_expression(
    site: &Site<'_>,
    code: &mut Vec<Instruction>,
    expression: &TypedExpression,
) -> Result<(), AllocError>
    ensures { OnOk result (code.new.items
        ≡ code.old.items ++ expression_code (site_view site.now) (expression_view expression.now)) }
{
    match expression {
        TypedExpression::Number { value, .. } => emit(code, Instruction::Push(value.value)),
        TypedExpression::Value { scalar, reference } => {
            emit_reference(site, code, Purpose::Reading(*scalar), reference)
        }
        TypedExpression::Location(reference) => {
            emit_reference(site, code, Purpose::Locating, reference)
        }
        TypedExpression::List(list) => emit(code, Instruction::Push(site.address_of_list(*list))),
        TypedExpression::Conversion { scalar, inner } => {
            emit_after(site, code, inner, Instruction::Convert(*scalar))
        }
        TypedExpression::Assignment { target, value } => {
            emit_expression(site, code, value)?;
            emit_target(site, code, target)
        }
        TypedExpression::Unary {
            scalar,
            operator,
            operand,
        } => emit_after(site, code, operand, Instruction::Unary(*scalar, *operator)),
        TypedExpression::Binary {
            operands,
            operator,
            left,
            right,
        } => {
            emit_expression(site, code, left)?;
            emit_operator(site, code, *operands, *operator, right)
        }
        TypedExpression::Call {
            procedure,
            arguments,
            ..
        } => {
            emit_arguments(site, code, arguments.as_slice())?;
            emit_call(site, code, *procedure, arguments.len())
        }
        TypedExpression::Function { function, operand } => {
            emit_after(site, code, operand, Instruction::Function(*function))
        }
        TypedExpression::Shift {
            scalar,
            function,
            value,
            count,
        } => {
            emit_expression(site, code, value)?;
            emit_after(site, code, count, Instruction::Shift(*scalar, *function))
        }
        TypedExpression::Input(port) => emit(code, Instruction::Input(*port)),
    }
}

/// An instruction after the value of an expression.
#[cycle(expression)]
#[tactic(auto, using(std::proofs::lemmas::List::append_assoc))]
pub(crate) fn emit_after(
    site: &Site<'_>,
    code: &mut Vec<Instruction>,
    operand: &TypedExpression,
    instruction: Instruction,
) -> Result<(), AllocError>
    ensures { OnOk result (code.new.items ≡ code.old.items
        ++ (expression_code (site_view site.now) (expression_view operand.now) ++ (instruction ∷ []))) }
{
    emit_expression(site, code, operand)?;
    emit(code, instruction)
}

// The number of an expression that is one.
fn number_in(expression: &TypedExpression) -> Option<u16>
    ensures { result ≡ number_in (expression_view expression.now) }
{
    match expression {
        TypedExpression::Number { value, .. } => Some(value.value),
        TypedExpression::Value { .. }
        | TypedExpression::Location(_)
        | TypedExpression::List(_)
        | TypedExpression::Conversion { .. }
        | TypedExpression::Assignment { .. }
        | TypedExpression::Unary { .. }
        | TypedExpression::Binary { .. }
        | TypedExpression::Call { .. }
        | TypedExpression::Function { .. }
        | TypedExpression::Shift { .. }
        | TypedExpression::Input(_) => None,
    }
}

// An operator and its right operand, after the left one.
#[cycle(expression)]
fn emit_operator(
    site: &Site<'_>,
    code: &mut Vec<Instruction>,
    operands: ScalarType,
    operator: BinaryOperator,
    right: &TypedExpression,
) -> Result<(), AllocError>
    ensures { OnOk result (code.new.items ≡ code.old.items
        ++ operator_code operands operator (number_in (expression_view right.now))
        (expression_code (site_view site.now) (expression_view right.now))) }
{
    match number_in(right) {
        Some(number) => emit(
            code,
            Instruction::BinaryWith {
                operands,
                operator,
                right: number,
            },
        ),
        None => emit_after(site, code, right, Instruction::Binary(operands, operator)),
    }
}

/// The values of arguments, one after another.
#[cycle(expression)]
pub(crate) fn emit_arguments(
    site: &Site<'_>,
    code: &mut Vec<Instruction>,
    arguments: &[TypedExpression],
) -> Result<(), AllocError>
    ensures { OnOk result (code.new.items
        ≡ code.old.items ++ arguments_code (site_view site.now) (arguments_view arguments.now)) }
{
    for argument in arguments {
        emit_expression(site, code, argument)?;
    }
    Ok(())
}

/// The call of a procedure whose arguments lie on the stack.
#[tactic(auto, using(crate::proofs::Arguments::called_none))]
pub(crate) fn emit_call(
    site: &Site<'_>,
    code: &mut Vec<Instruction>,
    procedure: u32,
    arguments: usize,
) -> Result<(), AllocError>
    ensures { OnOk result (code.new.items ≡ code.old.items
        ++ called_code (callee_in (surroundings_at (site_view site.now)) procedure) arguments) }
{
    match site.callee(procedure) {
        Some(callee) => emit(
            code,
            Instruction::Call {
                module: callee.number_of_module,
                procedure: callee.number,
                arguments,
            },
        ),
        None => {
            emit_drops(code, arguments)?;
            emit(code, Instruction::Push(0))
        }
    }
}

// Code that drops `count` values from the stack.
#[tactic(auto, using(crate::proofs::Arguments::drop_emitted, crate::proofs::Arguments::drops_emitted))]
fn emit_drops(code: &mut Vec<Instruction>, count: usize) -> Result<(), AllocError>
    ensures { OnOk result (code.new.items ≡ code.old.items ++ replicate count Drop) }
{
    let mut left = count;
    while left > 0 {
        emit(code, Instruction::Drop)?;
        left -= 1;
    }
    Ok(())
}

// A part of an object.
#[cycle(expression)]
fn emit_reference(
    site: &Site<'_>,
    code: &mut Vec<Instruction>,
    purpose: Purpose,
    reference: &TypedReference,
) -> Result<(), AllocError>
    ensures { OnOk result (code.new.items ≡ code.old.items
        ++ reference_code (site_view site.now) (purpose_view purpose) (reference_view reference.now)) }
{
    match site.storage_of(reference.object) {
        Storage::Frame => emit_framed(site, code, purpose, reference),
        Storage::Base(base) => emit_based(site, code, purpose, base, reference),
        Storage::Memory => emit_placed(site, code, purpose, reference),
    }
}

// A part of an object in the frame.
#[cycle(expression)]
#[tactic(auto, using(std::proofs::lemmas::List::append_assoc))]
fn emit_framed(
    site: &Site<'_>,
    code: &mut Vec<Instruction>,
    purpose: Purpose,
    reference: &TypedReference,
) -> Result<(), AllocError>
    ensures { OnOk result (code.new.items ≡ code.old.items
        ++ framed_code (site_view site.now) (purpose_view purpose) (reference_view reference.now)) }
{
    emit_index(site, code, &reference.subscript)?;
    emit_index(site, code, &reference.member_subscript)?;
    emit(code, instruction_of_frame(purpose, part_of(reference)))
}

// A part of an object with a base.
#[cycle(expression)]
#[tactic(auto, using(std::proofs::lemmas::List::append_assoc))]
fn emit_based(
    site: &Site<'_>,
    code: &mut Vec<Instruction>,
    purpose: Purpose,
    base: u32,
    reference: &TypedReference,
) -> Result<(), AllocError>
    ensures { OnOk result (code.new.items ≡ code.old.items
        ++ based_code (site_view site.now) (purpose_view purpose) base (reference_view reference.now)) }
{
    emit_bytes(site, code, reference)?;
    emit_after_base(site, code, purpose, base, reference)
}

// The code after the bytes of a part of an object with a base.
#[tactic(auto, using(std::proofs::lemmas::List::append_assoc))]
fn emit_after_base(
    site: &Site<'_>,
    code: &mut Vec<Instruction>,
    purpose: Purpose,
    base: u32,
    reference: &TypedReference,
) -> Result<(), AllocError>
    ensures { OnOk result (code.new.items ≡ code.old.items
        ++ (variable_code (site_view site.now) (ToRead Address) base
        ∷ (added_to_bytes (subscript_view reference.now.subscript)
        (subscript_view reference.now.member_subscript)
        ++ (instruction_after (purpose_view purpose) (reference.now.offset % MEMORY_SIZE) ∷ [])))) }
{
    let variable = variable_code(site, Purpose::Reading(ScalarType::Address), base);
    emit(code, variable)?;
    emit_added(code, &reference.subscript, &reference.member_subscript)?;
    emit(code, instruction_after(purpose, wrapped(reference.offset)))
}

// A part of an object at an address.
#[cycle(expression)]
#[tactic(auto, using(crate::proofs::Storages::part_without_subscript, crate::proofs::Storages::part_with_subscript, std::proofs::lemmas::List::append_assoc))]
fn emit_placed(
    site: &Site<'_>,
    code: &mut Vec<Instruction>,
    purpose: Purpose,
    reference: &TypedReference,
) -> Result<(), AllocError>
    ensures { OnOk result (code.new.items ≡ code.old.items
        ++ placed_code (site_view site.now) (purpose_view purpose) (reference_view reference.now)) }
{
    let address = address_after(site, reference.object, reference.offset);
    if lacks_subscripts(&reference.subscript, &reference.member_subscript) {
        return emit(code, instruction_at(purpose, address));
    }
    emit_bytes(site, code, reference)?;
    emit(code, instruction_after(purpose, address))
}

// Whether there are no subscripts.
fn lacks_subscripts(first: &TypedSubscript, second: &TypedSubscript) -> bool
    ensures { result ≡ lacks_subscripts (subscript_view first.now) (subscript_view second.now) }
{
    match first {
        TypedSubscript::Absent => match second {
            TypedSubscript::Absent => true,
            TypedSubscript::Present { .. } => false,
        },
        TypedSubscript::Present { .. } => false,
    }
}

// The bytes that the subscripts of a part stand for.
#[cycle(expression)]
#[tactic(auto, using(std::proofs::lemmas::List::append_assoc))]
fn emit_bytes(
    site: &Site<'_>,
    code: &mut Vec<Instruction>,
    reference: &TypedReference,
) -> Result<(), AllocError>
    ensures { OnOk result (code.new.items ≡ code.old.items
        ++ bytes_code (site_view site.now) (subscript_view reference.now.subscript)
        (subscript_view reference.now.member_subscript)) }
{
    emit_scaled(site, code, &reference.subscript)?;
    emit_scaled(site, code, &reference.member_subscript)?;
    emit_summed(code, &reference.subscript, &reference.member_subscript)
}

// Two subscripts give one number.
fn emit_summed(
    code: &mut Vec<Instruction>,
    first: &TypedSubscript,
    second: &TypedSubscript,
) -> Result<(), AllocError>
    ensures { OnOk result (code.new.items
        ≡ code.old.items ++ summed (subscript_view first.now) (subscript_view second.now)) }
{
    match first {
        TypedSubscript::Absent => Ok(()),
        TypedSubscript::Present { .. } => match second {
            TypedSubscript::Absent => Ok(()),
            TypedSubscript::Present { .. } => emit(code, Instruction::Sum),
        },
    }
}

// The bytes of subscripts, if there are any, are added to a base.
fn emit_added(
    code: &mut Vec<Instruction>,
    first: &TypedSubscript,
    second: &TypedSubscript,
) -> Result<(), AllocError>
    ensures { OnOk result (code.new.items
        ≡ code.old.items ++ added_to_bytes (subscript_view first.now) (subscript_view second.now)) }
{
    match first {
        TypedSubscript::Absent => match second {
            TypedSubscript::Absent => Ok(()),
            TypedSubscript::Present { .. } => emit(code, Instruction::Sum),
        },
        TypedSubscript::Present { .. } => emit(code, Instruction::Sum),
    }
}

// The value of a subscript.
#[cycle(expression)]
fn emit_index(
    site: &Site<'_>,
    code: &mut Vec<Instruction>,
    subscript: &TypedSubscript,
) -> Result<(), AllocError>
    ensures { OnOk result (code.new.items
        ≡ code.old.items ++ index_code (site_view site.now) (subscript_view subscript.now)) }
{
    match subscript {
        TypedSubscript::Absent => Ok(()),
        TypedSubscript::Present { index, .. } => emit_expression(site, code, index),
    }
}

// The bytes that a subscript stands for.
#[cycle(expression)]
#[tactic(auto, using(std::proofs::lemmas::List::append_assoc))]
fn emit_scaled(
    site: &Site<'_>,
    code: &mut Vec<Instruction>,
    subscript: &TypedSubscript,
) -> Result<(), AllocError>
    ensures { OnOk result (code.new.items
        ≡ code.old.items ++ scaled_code (site_view site.now) (subscript_view subscript.now)) }
{
    match subscript {
        TypedSubscript::Absent => Ok(()),
        TypedSubscript::Present { stride, index, .. } => {
            emit_after(site, code, index, Instruction::Scale(*stride))
        }
    }
}

/// The value on top goes to a target.
#[cycle(expression)]
pub(crate) fn emit_target(
    site: &Site<'_>,
    code: &mut Vec<Instruction>,
    target: &TypedTarget,
) -> Result<(), AllocError>
    ensures { OnOk result (code.new.items
        ≡ code.old.items ++ target_code (site_view site.now) (target_view target.now)) }
{
    match target {
        TypedTarget::Stored { to, reference, .. } => {
            emit_reference(site, code, Purpose::Writing(*to), reference)
        }
        TypedTarget::Sent { port, .. } => emit(code, Instruction::Output(*port)),
    }
}
