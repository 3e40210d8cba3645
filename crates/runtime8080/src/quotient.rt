//! Quotient and remainder.

ghost use Rattle.std.specs.Prelude.{◌≡◌, OnOk};
ghost use Rattle.runtime8080.specs.declared.routine.Routine.TheVariants.{Divide};
ghost use Rattle.runtime8080.specs.internal.Emission.{with_routine};

use crate::parts::{Part, emit_parts, five_labels, two_labels};
use asm8080::{Code, WordForm};
use isa8080::{Condition, Instr, Operand, Operation, Pair, Register};
use std::alloc::AllocError;

// Long division, a bit a turn. A divisor below 256, in E: 16 times A and HL are doubled as one number of 24 bits,
// with A the higher, and where E fits into A it is taken away and L gains a bit. Then A is the remainder, and HL
// the quotient. Any other divisor, in DE: 8 times HL and B are doubled as one number, with HL the higher, and
// where DE fits into HL it is taken away and B gains a bit. Then HL is the remainder, and B the quotient.
#[tactic(auto, using(crate::proofs::Added::done_divide))]
pub(crate) fn divide(code: &mut Code) -> Result<(), AllocError>
    ensures ok { OnOk result (code.new ≡ with_routine Divide code.old) }
{
    let (narrow, fits, skip, wide, next) = five_labels(code)?;
    let (even, less) = two_labels(code)?;
    emit_parts(
        code,
        &[
            Part::Does(Instr::Mov(Register::A, Operand::Of(Register::D))),
            Part::Does(Instr::Accumulate(Operation::Or, Operand::Of(Register::A))),
            Part::Goes(WordForm::JumpWhere(Condition::NotZero), wide),
            Part::Does(Instr::Mvi(Operand::Of(Register::D), 16)),
            Part::Here(narrow),
            Part::Does(Instr::Dad(Pair::Hl)),
            Part::Does(Instr::Ral),
            Part::Goes(WordForm::JumpWhere(Condition::Carry), fits),
            Part::Does(Instr::Accumulate(Operation::Compare, Operand::Of(Register::E))),
            Part::Goes(WordForm::JumpWhere(Condition::Carry), skip),
            Part::Here(fits),
            Part::Does(Instr::Accumulate(Operation::Subtract, Operand::Of(Register::E))),
            Part::Does(Instr::Inr(Operand::Of(Register::L))),
            Part::Here(skip),
            Part::Does(Instr::Dcr(Operand::Of(Register::D))),
            Part::Goes(WordForm::JumpWhere(Condition::NotZero), narrow),
            Part::Does(Instr::Mov(Register::E, Operand::Of(Register::A))),
            Part::Does(Instr::Ret),
            Part::Here(wide),
            Part::Does(Instr::Mov(Register::B, Operand::Of(Register::L))),
            Part::Does(Instr::Mov(Register::L, Operand::Of(Register::H))),
            Part::Does(Instr::Mvi(Operand::Of(Register::H), 0)),
            Part::Does(Instr::Mvi(Operand::Of(Register::C), 8)),
            Part::Here(next),
            Part::Does(Instr::Dad(Pair::Hl)),
            Part::Does(Instr::Mov(Register::A, Operand::Of(Register::B))),
            Part::Does(Instr::Accumulate(Operation::Add, Operand::Of(Register::A))),
            Part::Does(Instr::Mov(Register::B, Operand::Of(Register::A))),
            Part::Goes(WordForm::JumpWhere(Condition::NoCarry), even),
            Part::Does(Instr::Inr(Operand::Of(Register::L))),
            Part::Here(even),
            Part::Does(Instr::Mov(Register::A, Operand::Of(Register::L))),
            Part::Does(Instr::Accumulate(Operation::Subtract, Operand::Of(Register::E))),
            Part::Does(Instr::Mov(Register::A, Operand::Of(Register::H))),
            Part::Does(Instr::Accumulate(Operation::SubtractWithBorrow, Operand::Of(Register::D))),
            Part::Goes(WordForm::JumpWhere(Condition::Carry), less),
            Part::Does(Instr::Mov(Register::H, Operand::Of(Register::A))),
            Part::Does(Instr::Mov(Register::A, Operand::Of(Register::L))),
            Part::Does(Instr::Accumulate(Operation::Subtract, Operand::Of(Register::E))),
            Part::Does(Instr::Mov(Register::L, Operand::Of(Register::A))),
            Part::Does(Instr::Inr(Operand::Of(Register::B))),
            Part::Here(less),
            Part::Does(Instr::Dcr(Operand::Of(Register::C))),
            Part::Goes(WordForm::JumpWhere(Condition::NotZero), next),
            Part::Does(Instr::Xchg),
            Part::Does(Instr::Mov(Register::L, Operand::Of(Register::B))),
            Part::Does(Instr::Mvi(Operand::Of(Register::H), 0)),
            Part::Does(Instr::Ret),
        ],
    )
}
