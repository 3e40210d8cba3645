//! The places of the variables and parameters of a call.

ghost use Rattle.std.specs.Prelude.{◌≡◌, IfOk};
ghost use Rattle.treecode.specs.declared.procedure.ProcedureKind.TheVariants.{Reentrant};
ghost use Rattle.frames.specs.internal.Frames.{distance_of, variable_bytes, HasFrame, HasNothing, IsPlanOf, LiesApart};
ghost use Rattle.frames.specs.internal.Distances.{capped, capped_parameter, distances_from, IsFound};

use std::alloc::{AllocError, Global};
use treecode::{FrameVariable, ProcedureKind, TreeProcedure};

/// The places of the variables and parameters of a call of a REENTRANT procedure on the stack. Upwards from the stack
/// pointer, when nothing is pushed, these are: the variables in the order of their declarations; a word with the last
/// parameter, a BYTE as its high byte; the return address; a word with each other parameter, from the last to the
/// first. Without parameters the return address follows the variables.
pub struct FramePlan {
    /// The distance from the stack pointer up to the start of each variable or parameter, by its number in the frame.
    distances: Vec<u16>,
    /// The number of bytes of the variables.
    pub variable_bytes: u16,
    /// The number of parameters.
    pub parameter_count: u16,
}

impl FramePlan {
    /// The plan of a procedure without a frame.
    pub fn empty(alloc: Global) -> FramePlan
        ensures { HasNothing result }
    {
        FramePlan {
            distances: Vec::new(alloc),
            variable_bytes: 0,
            parameter_count: 0,
        }
    }

    /// The distance from the stack pointer, when nothing is pushed, up to the start of a variable or parameter, by its
    /// number in the frame (0 if there is none with this number).
    pub fn distance(&self, variable: u16) -> u16
        ensures { result ≡ distance_of self.now variable }
    {
        match self.distances.get(variable as usize) {
            Some(distance) => *distance,
            None => 0,
        }
    }
}

// The number of bytes of the variables of a frame, without parameters (65,535 if it is more).
fn variable_bytes(frame: &[FrameVariable]) -> u16
    ensures { result ≡ capped (variable_bytes frame.now) }
{
    let mut bytes: u16 = 0;
    for variable in frame {
        if variable.parameter.is_none() {
            bytes = bytes.saturating_add(variable.size);
        }
    }
    bytes
}

// The distance from the stack pointer up to the start of a parameter with `followers` parameters after it. The return
// address is between the word of the last parameter and those of the others. A BYTE is the high byte of its word.
fn parameter_distance(variable_bytes: u16, followers: u16, size: u16) -> u16
    ensures { result ≡ capped_parameter variable_bytes followers size }
{
    let words = match followers {
        0 => 0,
        _ => followers.saturating_add(1),
    };
    let word = variable_bytes.saturating_add(words.saturating_mul(2));
    match size {
        1 => word.saturating_add(1),
        _ => word,
    }
}

// The distance from the stack pointer up to the start of each variable or parameter of a frame.
fn distances_of(
    alloc: Global,
    frame: &[FrameVariable],
    variable_bytes: u16,
    parameter_count: u16,
) -> Result<Vec<u16>, AllocError>
    ensures { IfOk result (λ made. made.items ≡ distances_from variable_bytes parameter_count 0 frame.now) }
{
    let mut distances = Vec::with_capacity(alloc, frame.len())?;
    let mut next: u16 = 0;
    for variable in frame {
        match variable.parameter {
            Some(index) => {
                let followers = parameter_count.saturating_sub(index).saturating_sub(1);
                distances.push(parameter_distance(variable_bytes, followers, variable.size))?;
            }
            None => {
                distances.push(next)?;
                next = next.saturating_add(variable.size);
            }
        }
    }
    Ok(distances)
}

// The places of the variables and parameters of a call of a REENTRANT procedure.
fn reentrant_plan(alloc: Global, procedure: &TreeProcedure) -> Result<FramePlan, AllocError>
    ensures { IfOk result (λ plan. IsFound procedure.now plan) }
{
    let frame = procedure.frame.as_slice();
    let variable_bytes = variable_bytes(frame);
    let parameter_count = u16::try_from(procedure.parameters.len()).unwrap_or(u16::MAX);
    Ok(FramePlan {
        distances: distances_of(alloc, frame, variable_bytes, parameter_count)?,
        variable_bytes,
        parameter_count,
    })
}

/// The places of the variables and parameters of a call of a procedure. The plan of a procedure that is not REENTRANT
/// is empty.
#[tactic(auto, using(crate::proofs::Distances::planned, crate::proofs::Places::frame_lies_apart))]
pub fn plan(alloc: Global, procedure: &TreeProcedure) -> Result<FramePlan, AllocError>
    ensures planned { procedure.now.kind ≡ Reentrant
        → HasFrame procedure.now → IfOk result (λ plan. IsPlanOf procedure.now plan) }
    ensures apart { procedure.now.kind ≡ Reentrant
        → HasFrame procedure.now → IfOk result (λ plan. LiesApart procedure.now plan) }
    ensures empty { (procedure.now.kind ≡ Reentrant → ⊥) → IfOk result (λ plan. HasNothing plan) }
{
    match procedure.kind {
        ProcedureKind::Reentrant => reentrant_plan(alloc, procedure),
        ProcedureKind::Static | ProcedureKind::External(_) => Ok(FramePlan::empty(alloc)),
    }
}

// Written out so that the fields are dropped in one place, which other crates call.
impl Drop for FramePlan {
    fn drop(self) {
        let FramePlan {
            distances: _,
            variable_bytes: _,
            parameter_count: _,
        } = self;
    }
}
