//! Jumps over code that is not yet there.

ghost use Rattle.std.specs.Prelude.{◌≡◌, ◌+◌, ◌-◌, suc, length, slice_set, IfOk, OnOk};
ghost use Rattle.stack_code.specs.declared.instruction.Instruction.TheVariants.{Jump, JumpUnless};
ghost use Rattle.stack_compiler.specs.internal.Loops.{turned_back};
ghost use Rattle.stack_compiler.specs.internal.Openings.{closed, holes};

use crate::purpose::emit;
use stack_code::Instruction;
use std::alloc::{AllocError, Global};

// Puts an instruction in the place of another.
fn replace(code: &mut Vec<Instruction>, at: usize, instruction: Instruction)
    ensures { code.new.items ≡ slice_set code.old.items at instruction }
{
    if let Some(entry) = code.get_mut(at) {
        *entry = instruction;
    }
}

/// Where the next instruction will stand.
pub(crate) fn next_place(code: &Vec<Instruction>) -> usize
    ensures { result ≡ length code.now.items }
{
    code.len()
}

// How many instructions follow one.
fn count_after(code: &Vec<Instruction>, at: usize) -> usize
    ensures { result ≡ length code.now.items - (at + 1) }
{
    code.len().saturating_sub(at).saturating_sub(1)
}

/// Makes the instruction at a place a jump past the end of the code so far.
pub(crate) fn close_jump(code: &mut Vec<Instruction>, at: usize)
    ensures { code.new.items
        ≡ slice_set code.old.items at (Jump (length code.old.items - (at + 1))) }
{
    let count = count_after(code, at);
    replace(code, at, Instruction::Jump(count));
}

/// Makes the instruction at a place a jump past the end of the code so far, if a condition does not hold.
pub(crate) fn close_jump_unless(code: &mut Vec<Instruction>, at: usize)
    ensures { code.new.items
        ≡ slice_set code.old.items at (JumpUnless (length code.old.items - (at + 1))) }
{
    let count = count_after(code, at);
    replace(code, at, Instruction::JumpUnless(count));
}

/// The end of a turn, which leads back to after an instruction.
pub(crate) fn emit_loop_back(code: &mut Vec<Instruction>, start: usize) -> Result<(), AllocError>
    ensures { OnOk result (code.new.items ≡ turned_back code.old.items start) }
{
    let count = count_after(code, start);
    emit(code, Instruction::LoopBack(count))
}

/// Jumps that are filled in later: `count` of them, and one more.
#[tactic(auto, using(crate::proofs::Cases::holes_made))]
pub(crate) fn holes(alloc: Global, count: usize) -> Result<Vec<Instruction>, AllocError>
    ensures { IfOk result (λ code. code.items ≡ holes (suc count)) }
{
    let mut code = Vec::new(alloc);
    code.resize(count, Instruction::Jump(0))?;
    code.push(Instruction::Jump(0))?;
    Ok(code)
}

/// Makes the instructions before some places jumps past the end of the code so far.
#[tactic(auto, using(crate::proofs::Cases::end_closed))]
pub(crate) fn close_cases(code: &mut Vec<Instruction>, ends: &[usize])
    ensures { code.new.items ≡ closed ends.now code.old.items }
{
    for end in ends {
        let count = code.len().saturating_sub(*end);
        replace(code, end.saturating_sub(1), Instruction::Jump(count));
    }
}
