//! The routines as code.

ghost use Rattle.std.specs.Prelude.{◌≡◌, IfOk, OnOk};
ghost use Rattle.isa8080.specs.declared.instr.Instr.TheVariants.{Rlc, Rrc};
ghost use Rattle.runtime8080.specs.declared.routine.Routine.TheVariants.{RotateLeft, RotateRight, ShiftLeftByte, ShiftRightByte, ShiftLeftAddress, ShiftRightAddress};
ghost use Rattle.runtime8080.specs.internal.Routines.{AddsRoutine};
ghost use Rattle.runtime8080.specs.internal.Emission.{with_routine};

use crate::moves::move_bytes;
use crate::parts::{Part, eight_labels, emit_parts};
use crate::product::multiply;
use crate::quotient::divide;
use crate::routine::Routine;
use asm8080::{Code, WordForm};
use isa8080::{Condition, Instr, Operand, Operation, Pair, Register};
use std::alloc::AllocError;

/// Adds a routine to code, with labels of its own. It is to be called at its first byte. Each call adds a copy:
/// who emits code keeps which routines are in it, and where. Where there is no memory for it, the code is dropped.
#[tactic(auto, using(crate::proofs::Added::adds_rotate_left, crate::proofs::Added::adds_rotate_right, crate::proofs::Added::adds_shift_left_byte, crate::proofs::Added::adds_shift_right_byte, crate::proofs::Added::adds_shift_left_address, crate::proofs::Added::adds_shift_right_address, crate::proofs::Added::adds_multiply, crate::proofs::Added::adds_divide, crate::proofs::Added::adds_move))]
pub fn emit_routine(code: Code, routine: Routine) -> Result<Code, AllocError>
    ensures ok { IfOk result (λ after. AddsRoutine routine code after) }
{
    let mut code = code;
    match routine {
        Routine::RotateLeft => rotate_left(&mut code)?,
        Routine::RotateRight => rotate_right(&mut code)?,
        Routine::Multiply => multiply(&mut code)?,
        Routine::Divide => divide(&mut code)?,
        Routine::ShiftLeftByte => shift_left_byte(&mut code)?,
        Routine::ShiftRightByte => shift_right_byte(&mut code)?,
        Routine::ShiftLeftAddress => shift_left_address(&mut code)?,
        Routine::ShiftRightAddress => shift_right_address(&mut code)?,
        Routine::Move => move_bytes(&mut code)?,
    }
    Ok(code)
}

// The lowest three bits of E are put into E, and A is kept in D meanwhile.
#[tactic(auto, using(crate::proofs::Added::done_rotate_left))]
fn rotate_left(code: &mut Code) -> Result<(), AllocError>
    ensures ok { OnOk result (code.new ≡ with_routine RotateLeft code.old) }
{
    let turn = code.label()?;
    emit_parts(
        code,
        &[
            Part::Does(Instr::Mov(Register::D, Operand::Of(Register::A))),
            Part::Does(Instr::Mov(Register::A, Operand::Of(Register::E))),
            Part::Does(Instr::AccumulateImmediate(Operation::And, 7)),
            Part::Does(Instr::Mov(Register::E, Operand::Of(Register::A))),
            Part::Does(Instr::Mov(Register::A, Operand::Of(Register::D))),
            Part::Does(Instr::ReturnIf(Condition::Zero)),
            Part::Here(turn),
            Part::Does(Instr::Rlc),
            Part::Does(Instr::Dcr(Operand::Of(Register::E))),
            Part::Goes(WordForm::JumpWhere(Condition::NotZero), turn),
            Part::Does(Instr::Ret),
        ],
    )
}

#[tactic(auto, using(crate::proofs::Added::done_rotate_right))]
fn rotate_right(code: &mut Code) -> Result<(), AllocError>
    ensures ok { OnOk result (code.new ≡ with_routine RotateRight code.old) }
{
    let turn = code.label()?;
    emit_parts(
        code,
        &[
            Part::Does(Instr::Mov(Register::D, Operand::Of(Register::A))),
            Part::Does(Instr::Mov(Register::A, Operand::Of(Register::E))),
            Part::Does(Instr::AccumulateImmediate(Operation::And, 7)),
            Part::Does(Instr::Mov(Register::E, Operand::Of(Register::A))),
            Part::Does(Instr::Mov(Register::A, Operand::Of(Register::D))),
            Part::Does(Instr::ReturnIf(Condition::Zero)),
            Part::Here(turn),
            Part::Does(Instr::Rrc),
            Part::Does(Instr::Dcr(Operand::Of(Register::E))),
            Part::Goes(WordForm::JumpWhere(Condition::NotZero), turn),
            Part::Does(Instr::Ret),
        ],
    )
}

#[tactic(auto, using(crate::proofs::Added::done_shift_left_byte))]
fn shift_left_byte(code: &mut Code) -> Result<(), AllocError>
    ensures ok { OnOk result (code.new ≡ with_routine ShiftLeftByte code.old) }
{
    let few = code.label()?;
    emit_parts(
        code,
        &[
            Part::Does(Instr::Mov(Register::D, Operand::Of(Register::A))),
            Part::Does(Instr::Mov(Register::A, Operand::Of(Register::E))),
            Part::Does(Instr::AccumulateImmediate(Operation::Compare, 8)),
            Part::Does(Instr::Mov(Register::A, Operand::Of(Register::D))),
            Part::Goes(WordForm::JumpWhere(Condition::Carry), few),
            Part::Does(Instr::Mvi(Operand::Of(Register::A), 0)),
            Part::Does(Instr::Ret),
            Part::Here(few),
            Part::Does(Instr::Dcr(Operand::Of(Register::E))),
            Part::Does(Instr::ReturnIf(Condition::Minus)),
            Part::Does(Instr::Accumulate(Operation::Add, Operand::Of(Register::A))),
            Part::Goes(WordForm::Jump, few),
        ],
    )
}

#[tactic(auto, using(crate::proofs::Added::done_shift_right_byte))]
fn shift_right_byte(code: &mut Code) -> Result<(), AllocError>
    ensures ok { OnOk result (code.new ≡ with_routine ShiftRightByte code.old) }
{
    let few = code.label()?;
    emit_parts(
        code,
        &[
            Part::Does(Instr::Mov(Register::D, Operand::Of(Register::A))),
            Part::Does(Instr::Mov(Register::A, Operand::Of(Register::E))),
            Part::Does(Instr::AccumulateImmediate(Operation::Compare, 8)),
            Part::Does(Instr::Mov(Register::A, Operand::Of(Register::D))),
            Part::Goes(WordForm::JumpWhere(Condition::Carry), few),
            Part::Does(Instr::Mvi(Operand::Of(Register::A), 0)),
            Part::Does(Instr::Ret),
            Part::Here(few),
            Part::Does(Instr::Dcr(Operand::Of(Register::E))),
            Part::Does(Instr::ReturnIf(Condition::Minus)),
            Part::Does(Instr::Accumulate(Operation::Or, Operand::Of(Register::A))),
            Part::Does(Instr::Rar),
            Part::Goes(WordForm::Jump, few),
        ],
    )
}

// E counts the count down: HL is doubled once for each, and 0 from 16 on.
#[tactic(auto, using(crate::proofs::Added::done_shift_left_address))]
fn shift_left_address(code: &mut Code) -> Result<(), AllocError>
    ensures ok { OnOk result (code.new ≡ with_routine ShiftLeftAddress code.old) }
{
    let few = code.label()?;
    emit_parts(
        code,
        &[
            Part::Does(Instr::Mov(Register::E, Operand::Of(Register::A))),
            Part::Does(Instr::AccumulateImmediate(Operation::Compare, 16)),
            Part::Goes(WordForm::JumpWhere(Condition::Carry), few),
            Part::Does(Instr::Lxi(Pair::Hl, 0)),
            Part::Does(Instr::Ret),
            Part::Here(few),
            Part::Does(Instr::Dcr(Operand::Of(Register::E))),
            Part::Does(Instr::ReturnIf(Condition::Minus)),
            Part::Does(Instr::Dad(Pair::Hl)),
            Part::Goes(WordForm::Jump, few),
        ],
    )
}

// The flags of the count less 2 tell 0, 1 and 2 from more. A is 0 where it has counted 3 to 7 down: the bits of A, H
// and L are then doubled from the label of the count on, and the higher 16 of them are the value. By 8 or more H takes
// the place of L first, and what is left of the count begins anew.
fn shift_right_address(code: &mut Code) -> Result<(), AllocError>
    ensures ok { OnOk result (code.new ≡ with_routine ShiftRightAddress code.old) }
{
    let (start, one, two, three, four, five, six, seven) = eight_labels(code)?;
    let parts = [
        Part::Here(start),
        Part::Does(Instr::AccumulateImmediate(Operation::Add, 254)),
        Part::Goes(WordForm::JumpWhere(Condition::Zero), two),
        Part::Goes(WordForm::JumpWhere(Condition::NoCarry), one),
        Part::Does(Instr::Dcr(Operand::Of(Register::A))),
        Part::Goes(WordForm::JumpWhere(Condition::Zero), three),
        Part::Does(Instr::Dcr(Operand::Of(Register::A))),
        Part::Goes(WordForm::JumpWhere(Condition::Zero), four),
        Part::Does(Instr::Dcr(Operand::Of(Register::A))),
        Part::Goes(WordForm::JumpWhere(Condition::Zero), five),
        Part::Does(Instr::Dcr(Operand::Of(Register::A))),
        Part::Goes(WordForm::JumpWhere(Condition::Zero), six),
        Part::Does(Instr::Dcr(Operand::Of(Register::A))),
        Part::Goes(WordForm::JumpWhere(Condition::Zero), seven),
        Part::Does(Instr::Mov(Register::L, Operand::Of(Register::H))),
        Part::Does(Instr::Mvi(Operand::Of(Register::H), 0)),
        Part::Does(Instr::Dcr(Operand::Of(Register::A))),
        Part::Does(Instr::ReturnIf(Condition::Zero)),
        Part::Does(Instr::AccumulateImmediate(Operation::Compare, 8)),
        Part::Goes(WordForm::JumpWhere(Condition::Carry), start),
        Part::Does(Instr::Mvi(Operand::Of(Register::L), 0)),
        Part::Does(Instr::Ret),
        Part::Here(one),
        Part::Does(Instr::ReturnIf(Condition::ParityOdd)),
        Part::Does(Instr::Mov(Register::A, Operand::Of(Register::H))),
        Part::Does(Instr::Rar),
        Part::Does(Instr::Mov(Register::H, Operand::Of(Register::A))),
        Part::Does(Instr::Mov(Register::A, Operand::Of(Register::L))),
        Part::Does(Instr::Rar),
        Part::Does(Instr::Mov(Register::L, Operand::Of(Register::A))),
        Part::Does(Instr::Ret),
        Part::Here(two),
        Part::Does(Instr::Mov(Register::A, Operand::Of(Register::L))),
        Part::Does(Instr::Accumulate(Operation::ExclusiveOr, Operand::Of(Register::H))),
        Part::Does(Instr::AccumulateImmediate(Operation::And, 252)),
        Part::Does(Instr::Accumulate(Operation::ExclusiveOr, Operand::Of(Register::H))),
        Part::Does(Instr::Rrc),
        Part::Does(Instr::Rrc),
        Part::Does(Instr::Mov(Register::L, Operand::Of(Register::A))),
        Part::Does(Instr::Mov(Register::A, Operand::Of(Register::H))),
        Part::Does(Instr::AccumulateImmediate(Operation::And, 252)),
        Part::Does(Instr::Rrc),
        Part::Does(Instr::Rrc),
        Part::Does(Instr::Mov(Register::H, Operand::Of(Register::A))),
        Part::Does(Instr::Ret),
        Part::Here(three),
        Part::Does(Instr::Dad(Pair::Hl)),
        Part::Does(Instr::Ral),
        Part::Here(four),
        Part::Does(Instr::Dad(Pair::Hl)),
        Part::Does(Instr::Ral),
        Part::Here(five),
        Part::Does(Instr::Dad(Pair::Hl)),
        Part::Does(Instr::Ral),
        Part::Here(six),
        Part::Does(Instr::Dad(Pair::Hl)),
        Part::Does(Instr::Ral),
        Part::Here(seven),
        Part::Does(Instr::Dad(Pair::Hl)),
        Part::Does(Instr::Ral),
        Part::Does(Instr::Mov(Register::L, Operand::Of(Register::H))),
        Part::Does(Instr::Mov(Register::H, Operand::Of(Register::A))),
        Part::Does(Instr::Ret),
    ];
    emit_parts(code, &parts)
}
