//! The contents of a file, one after another, each added to its segment of a merge.

ghost use Rattle.std.specs.Prelude.{◌≡◌, OnOk};
ghost use Rattle.object_modules.specs.declared.segment.Segment.TheVariants.{Code, Data};
ghost use Rattle.link_laws.specs.internal.Growing.{AllFitAt, grown_in};

use crate::fixes::ContentFixes;
use link_modules::{GrowingSegment, Resolved, Stretch};
use object_modules::Segment;
use objmod::Walk;
use std::alloc::{AllocError, Global};

/// Adds the contents that a walk has not handed out yet to the segments that they are in. It looks at one content
/// at a time.
#[tactic(auto, using(link_laws::proofs::ContentsFitAt::later_fit, link_laws::proofs::ContentsFitAt::first_room, link_laws::proofs::ContentsFitAt::first_within))]
pub(crate) fn add_contents(
    alloc: Global,
    code: &mut GrowingSegment,
    data_bytes: &mut GrowingSegment,
    fixes: &mut ContentFixes,
    resolved: &Resolved,
    walk: &mut Walk<'_>,
) -> Result<(), AllocError>
    requires code { AllFitAt resolved.now Code walk.old.contents }
    requires data_bytes { AllFitAt resolved.now Data walk.old.contents }
    ensures code { OnOk result (code.new ≡ grown_in resolved.now Code code.old walk.old.contents) }
    ensures data_bytes { OnOk result
        (data_bytes.new ≡ grown_in resolved.now Data data_bytes.old walk.old.contents) }
{
    while let Some(content) = walk.next_content() {
        fixes.take(walk, content.offset, content.bytes.len())?;
        let stretch = Stretch {
            segment: content.segment,
            offset: content.offset,
            bytes: content.bytes,
        };
        match content.segment {
            Segment::Code => code.add(alloc, &stretch, fixes.as_slice(), resolved)?,
            Segment::Data => data_bytes.add(alloc, &stretch, fixes.as_slice(), resolved)?,
            Segment::Absolute | Segment::Stack => {}
        }
    }
    Ok(())
}
