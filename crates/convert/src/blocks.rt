//! The parts of IF: which of them apply.

ghost use Rattle.std.specs.Prelude.{◌≡◌, IfOk};
ghost use Rattle.convert.specs.Blocks.{after_else, after_elseif, applies, blocks_after, concern_at, concern_at_else, concern_at_elseif, concern_of, innermost, part_of, with_part};

use crate::controls::ControlKind;
use std::alloc::AllocError;

/// A part of an IF: whether its lines apply, and which later ones may.
#[derive(Clone, Copy)]
pub enum Branch {
    /// Its lines apply, and no later ones.
    Applies,
    /// Its lines do not apply; those of a later part may.
    Waits,
    /// Neither its lines apply nor later ones.
    Passed,
    /// Its condition is not understood, or an earlier one is not: its lines stay, and later ones.
    Stays,
    /// It follows ELSE, and its lines apply.
    ElseApplies,
    /// It follows ELSE, and its lines do not apply.
    ElsePassed,
    /// It follows ELSE, and its lines stay, since a condition before it is not understood.
    ElseStays,
}

/// An IF that is open: the part in it, and the line of its file on which it stands.
#[derive(Clone, Copy)]
pub struct Block {
    pub branch: Branch,
    pub line: usize,
}

/// What is wrong with a control of an IF.
#[derive(Clone, Copy)]
pub enum Concern {
    /// Nothing.
    Fine,
    /// Its condition is not understood.
    NoCondition,
    /// It belongs to no IF.
    NoIf,
}

/// The innermost of the open IFs; if none is open, one whose lines apply.
pub(crate) fn innermost(blocks: &[Block]) -> Block
    ensures { result ≡ innermost blocks.now }
{
    if blocks.is_empty() {
        Block {
            branch: Branch::Applies,
            line: 0,
        }
    } else {
        blocks[blocks.len() - 1]
    }
}

/// Whether lines apply where these IFs are open.
pub(crate) fn applies(blocks: &[Block]) -> bool
    ensures { result ≡ applies blocks.now }
{
    match innermost(blocks).branch {
        Branch::Applies | Branch::Stays | Branch::ElseApplies | Branch::ElseStays => true,
        Branch::Waits | Branch::Passed | Branch::ElsePassed => false,
    }
}

// The part of a condition.
fn part_of(value: Option<bool>) -> Branch
    ensures { result ≡ part_of value }
{
    match value {
        Some(true) => Branch::Applies,
        Some(false) => Branch::Waits,
        None => Branch::Stays,
    }
}

// The part after an ELSEIF.
fn after_elseif(value: Option<bool>, branch: Branch) -> Branch
    ensures { result ≡ after_elseif value branch }
{
    match branch {
        Branch::Applies => Branch::Passed,
        Branch::Waits => part_of(value),
        Branch::Passed => Branch::Passed,
        Branch::Stays => Branch::Stays,
        Branch::ElseApplies => Branch::ElseApplies,
        Branch::ElsePassed => Branch::ElsePassed,
        Branch::ElseStays => Branch::ElseStays,
    }
}

// The part after an ELSE.
fn after_else(branch: Branch) -> Branch
    ensures { result ≡ after_else branch }
{
    match branch {
        Branch::Applies | Branch::Passed | Branch::ElsePassed => Branch::ElsePassed,
        Branch::Waits | Branch::ElseApplies => Branch::ElseApplies,
        Branch::Stays | Branch::ElseStays => Branch::ElseStays,
    }
}

// Brings the innermost of the open IFs to another part.
fn come_to(branch: Branch, blocks: &mut Vec<Block>) -> Result<(), AllocError>
    ensures { IfOk result (λ _. blocks.new.items ≡ with_part branch blocks.old.items) }
{
    if blocks.is_empty() {
        return Ok(());
    }
    let line = innermost(blocks.as_slice()).line;
    let _ = blocks.pop();
    blocks.push(Block { branch, line })?;
    Ok(())
}

/// Changes the open IFs by a control on a line of this number, with what its condition says.
pub(crate) fn change_blocks(
    value: Option<bool>,
    kind: ControlKind,
    line: usize,
    blocks: &mut Vec<Block>,
) -> Result<(), AllocError>
    ensures { IfOk result (λ _. blocks.new.items ≡ blocks_after value kind line blocks.old.items) }
{
    match kind {
        ControlKind::If => {
            let branch = if applies(blocks.as_slice()) {
                part_of(value)
            } else {
                Branch::Passed
            };
            blocks.push(Block { branch, line })?;
            Ok(())
        }
        ControlKind::ElseIf => {
            let branch = after_elseif(value, innermost(blocks.as_slice()).branch);
            come_to(branch, blocks)
        }
        ControlKind::Else => {
            let branch = after_else(innermost(blocks.as_slice()).branch);
            come_to(branch, blocks)
        }
        ControlKind::EndIf => {
            let _ = blocks.pop();
            Ok(())
        }
        ControlKind::Include | ControlKind::Set | ControlKind::Reset | ControlKind::Other => Ok(()),
    }
}

// What is wrong with a condition that says this.
fn concern_of(value: Option<bool>) -> Concern
    ensures { result ≡ concern_of value }
{
    match value {
        Some(_) => Concern::Fine,
        None => Concern::NoCondition,
    }
}

// What is wrong with an ELSEIF after a part.
fn concern_at_elseif(value: Option<bool>, branch: Branch) -> Concern
    ensures { result ≡ concern_at_elseif value branch }
{
    match branch {
        Branch::Waits => concern_of(value),
        Branch::ElseApplies | Branch::ElsePassed | Branch::ElseStays => Concern::NoIf,
        Branch::Applies | Branch::Passed | Branch::Stays => Concern::Fine,
    }
}

// What is wrong with an ELSE after a part.
fn concern_at_else(branch: Branch) -> Concern
    ensures { result ≡ concern_at_else branch }
{
    match branch {
        Branch::ElseApplies | Branch::ElsePassed | Branch::ElseStays => Concern::NoIf,
        Branch::Applies | Branch::Waits | Branch::Passed | Branch::Stays => Concern::Fine,
    }
}

/// What is wrong with a control where these IFs are open, with what its condition says.
pub(crate) fn concern_at(value: Option<bool>, kind: ControlKind, blocks: &[Block]) -> Concern
    ensures { result ≡ concern_at value kind blocks.now }
{
    match kind {
        ControlKind::If => {
            if applies(blocks) {
                concern_of(value)
            } else {
                Concern::Fine
            }
        }
        ControlKind::ElseIf => {
            if blocks.is_empty() {
                Concern::NoIf
            } else {
                concern_at_elseif(value, innermost(blocks).branch)
            }
        }
        ControlKind::Else => {
            if blocks.is_empty() {
                Concern::NoIf
            } else {
                concern_at_else(innermost(blocks).branch)
            }
        }
        ControlKind::EndIf => {
            if blocks.is_empty() {
                Concern::NoIf
            } else {
                Concern::Fine
            }
        }
        ControlKind::Include | ControlKind::Set | ControlKind::Reset | ControlKind::Other => {
            Concern::Fine
        }
    }
}
