//! MOVE.

ghost use Rattle.std.specs.Prelude.{◌≡◌, OnOk};
ghost use Rattle.runtime8080.specs.declared.routine.Routine.TheVariants as routines;
ghost use Rattle.runtime8080.specs.internal.Emission.{with_routine};

use crate::parts::{Part, emit_parts, two_labels};
use asm8080::{Code, WordForm};
use isa8080::{Condition, IndexPair, Instr, Operand, Pair, Register};
use std::alloc::AllocError;

// C counts the bytes of a page of 256, and B the pages.
#[tactic(auto, using(crate::proofs::Added::done_move))]
pub(crate) fn move_bytes(code: &mut Code) -> Result<(), AllocError>
    ensures ok { OnOk result (code.new ≡ with_routine routines.Move code.old) }
{
    let (next, whole) = two_labels(code)?;
    emit_parts(
        code,
        &[
            Part::Does(Instr::Inr(Operand::Of(Register::C))),
            Part::Does(Instr::Dcr(Operand::Of(Register::C))),
            Part::Goes(WordForm::JumpWhere(Condition::Zero), whole),
            Part::Does(Instr::Inr(Operand::Of(Register::B))),
            Part::Here(next),
            Part::Does(Instr::Ldax(IndexPair::IndexDe)),
            Part::Does(Instr::MovToMemory(Register::A)),
            Part::Does(Instr::Inx(Pair::De)),
            Part::Does(Instr::Inx(Pair::Hl)),
            Part::Does(Instr::Dcr(Operand::Of(Register::C))),
            Part::Goes(WordForm::JumpWhere(Condition::NotZero), next),
            Part::Does(Instr::Dcr(Operand::Of(Register::B))),
            Part::Goes(WordForm::JumpWhere(Condition::NotZero), next),
            Part::Does(Instr::Ret),
            Part::Here(whole),
            Part::Does(Instr::Inr(Operand::Of(Register::B))),
            Part::Does(Instr::Dcr(Operand::Of(Register::B))),
            Part::Goes(WordForm::JumpWhere(Condition::NotZero), next),
            Part::Does(Instr::Ret),
        ],
    )
}
