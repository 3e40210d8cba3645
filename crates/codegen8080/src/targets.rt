//! Targets of fixes.

ghost use Rattle.std.specs.Prelude.{◌≡◌, length, map, IfOk};
ghost use Rattle.codegen8080.specs.internal.Targets.{retargeted};
ghost use Rattle.codegen8080.specs.internal.Segments.{listed_target, retarget};

use object_modules::{Fix, Segment, Target};
use std::alloc::{AllocError, Global};

// The target of a name by its number, if it is below `count`; else the start of the code, which no code needs.
fn listed_target(number: Option<u16>, count: usize) -> Target
    ensures { result ≡ listed_target count number }
{
    match number {
        Some(number) if (number as usize) < count => Target::External(number),
        _ => Target::InSegment(Segment::Code),
    }
}

// A target, with new numbers, below `count`, for EXTERNAL names.
fn retarget(target: Target, numbers: &[u16], count: usize) -> Target
    ensures { result ≡ retarget numbers.now count target }
{
    match target {
        Target::External(number) => listed_target(numbers.get(number as usize).copied(), count),
        Target::InSegment(Segment::Absolute) => Target::InSegment(Segment::Code),
        Target::InSegment(_) => target,
    }
}

/// Fixups, with new numbers, below `count`, for EXTERNAL names.
pub(crate) fn retargeted(
    alloc: Global,
    fixes: &[Fix],
    numbers: &[u16],
    count: usize,
) -> Result<Vec<Fix>, AllocError>
    ensures { IfOk result (λ made. made.items ≡ map (retargeted (retarget numbers.now count)) fixes.now) }
{
    let mut made = Vec::new(alloc);
    for fix in fixes {
        made.push(Fix {
            kind: fix.kind,
            target: retarget(fix.target, numbers, count),
            offset: fix.offset,
        })?;
    }
    Ok(made)
}
