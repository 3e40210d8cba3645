//! The product.

ghost use Rattle.std.specs.Prelude.{◌≡◌, OnOk};
ghost use Rattle.runtime8080.specs.declared.routine.Routine.TheVariants.{Multiply};
ghost use Rattle.runtime8080.specs.internal.Emission.{with_routine};

use crate::parts::{Part, emit_parts, five_labels};
use asm8080::{Code, WordForm};
use isa8080::{Condition, Instr, Operand, Operation, Pair, Register};
use std::alloc::AllocError;

// HL and DE are multiplied bit by bit: first those of D, where it has any, and then those of E.
#[tactic(auto, using(crate::proofs::Added::done_multiply))]
pub(crate) fn multiply(code: &mut Code) -> Result<(), AllocError>
    ensures ok { OnOk result (code.new ≡ with_routine Multiply code.old) }
{
    let (high, low, high_skip, low_bits, low_skip) = five_labels(code)?;
    emit_parts(
        code,
        &[
            Part::Does(Instr::Mov(Register::B, Operand::Of(Register::H))),
            Part::Does(Instr::Mov(Register::C, Operand::Of(Register::L))),
            Part::Does(Instr::Lxi(Pair::Hl, 0)),
            Part::Does(Instr::Mov(Register::A, Operand::Of(Register::D))),
            Part::Does(Instr::Accumulate(Operation::Or, Operand::Of(Register::A))),
            Part::Goes(WordForm::JumpWhere(Condition::Zero), low),
            Part::Does(Instr::Mvi(Operand::Of(Register::D), 8)),
            Part::Here(high),
            Part::Does(Instr::Dad(Pair::Hl)),
            Part::Does(Instr::Accumulate(Operation::Add, Operand::Of(Register::A))),
            Part::Goes(WordForm::JumpWhere(Condition::NoCarry), high_skip),
            Part::Does(Instr::Dad(Pair::Bc)),
            Part::Here(high_skip),
            Part::Does(Instr::Dcr(Operand::Of(Register::D))),
            Part::Goes(WordForm::JumpWhere(Condition::NotZero), high),
            Part::Here(low),
            Part::Does(Instr::Mov(Register::A, Operand::Of(Register::E))),
            Part::Does(Instr::Mvi(Operand::Of(Register::D), 8)),
            Part::Here(low_bits),
            Part::Does(Instr::Dad(Pair::Hl)),
            Part::Does(Instr::Accumulate(Operation::Add, Operand::Of(Register::A))),
            Part::Goes(WordForm::JumpWhere(Condition::NoCarry), low_skip),
            Part::Does(Instr::Dad(Pair::Bc)),
            Part::Here(low_skip),
            Part::Does(Instr::Dcr(Operand::Of(Register::D))),
            Part::Goes(WordForm::JumpWhere(Condition::NotZero), low_bits),
            Part::Does(Instr::Ret),
        ],
    )
}
