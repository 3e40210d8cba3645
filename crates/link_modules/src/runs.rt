//! The runs of a module with their fixes, added to a segment of a merge.

ghost use Rattle.std.specs.Prelude.{◌≡◌, ◌+◌, ◌≤◌, OnOk};
ghost use Rattle.object_modules.specs.Displacements.{start_of};
ghost use Rattle.object_modules.specs.Module.{IsObjectModule, length_of};
ghost use Rattle.object_modules.specs.internal.Joining.{fixes_below, fixes_past};
ghost use Rattle.link_laws.specs.internal.Growing.{grown_from};

use crate::growing::{GrowingSegment, Stretch};
use crate::resolved::Resolved;
use object_modules::{Fix, ObjectModule, Segment};
use std::alloc::{AllocError, Global};

// The fixes in front that begin before a place, and the others.
fn split_below(fixes: &[Fix], end: u32) -> (&[Fix], &[Fix])
    ensures below { result.0.now ≡ fixes_below end fixes.now }
    ensures past { result.1.now ≡ fixes_past end fixes.now }
{
    let mut count: usize = 0;
    for fix in fixes {
        if fix.offset as u32 >= end {
            return fixes.split_at(count);
        }
        count += 1;
    }
    (fixes, &[])
}

/// Adds the runs of a segment of a module, each with its fixes.
pub(crate) fn add_runs(
    alloc: Global,
    grown: &mut GrowingSegment,
    segment: Segment,
    object: &ObjectModule,
    resolved: &Resolved,
) -> Result<(), AllocError>
    requires valid { IsObjectModule object.now }
    requires room { start_of resolved.now.start segment + length_of object.now segment ≤ 65535 }
    ensures { OnOk result (grown.new ≡ grown_from resolved.now segment grown.old object.now) }
{
    let mut left = object.fixes(segment);
    let mut rest = object.runs(segment);
    while let [run, more @ ..] = rest {
        let bytes = run.bytes();
        let offset = run.offset();
        let (own, later) = split_below(left, offset as u32 + bytes.len() as u32);
        let stretch = Stretch {
            segment,
            offset,
            bytes,
        };
        grown.add(alloc, &stretch, own, resolved)?;
        left = later;
        rest = more;
    }
    Ok(())
}
