//! A segment of a merge, to which bytes of modules are added one after another.

ghost use Rattle.std.specs.Prelude.{◌≡◌, ◌+◌, ◌≤◌, ◌<◌, ◌++◌, length, filter_map, IfOk, OnOk};
ghost use Rattle.object_modules.specs.Displacements.{start_of};
ghost use Rattle.object_modules.specs.Module.{width_of};
ghost use Rattle.object_modules.specs.internal.Joining.{bytes_after, bytes_fixed, fix_kept, run_at, run_fixed};
ghost use Rattle.link_laws.specs.internal.Building.{AreWithin};
ghost use Rattle.link_laws.specs.internal.Growing.{gain_by, grown_with, kept_by, nothing_grown, runs_with};

use crate::resolved::Resolved;
use object_modules::{Alignment, Fix, FixKind, Run, Segment, SegmentBytes, push_run};
use std::alloc::{AllocError, Global};
use std::marker::Model;

/// Bytes of a segment of a module, one after another.
#[derive(Clone, Copy)]
pub struct Stretch<'b> {
    pub segment: Segment,
    /// Where the first of the bytes lies, from the start of the segment.
    pub offset: u16,
    pub bytes: &'b [u8],
}

/// A segment of a merge as far as bytes were added: its runs, its fixes, and whether a high byte is fixed to
/// a target that moves by a number that is not a multiple of 256.
#[derive(Drop)]
pub struct GrowingSegment {
    runs: Vec<Run>,
    fixes: Vec<Fix>,
    moves: bool,
}

impl Model for GrowingSegment {
    ghost use Rattle.link_laws.specs.internal.Growing.{Grown};

    ghost Value = { Grown };

    ghost view = { λ segment. record {
      runs = segment.runs.items;
      fixes = segment.fixes.items;
      moves = segment.moves;
    } };
}

// Adds a number to the byte at an index, or to the word that begins there.
fn fix_bytes(bytes: &mut [u8], kind: FixKind, index: usize, gain: u16)
    requires { index + width_of kind ≤ length bytes.old }
    ensures fixed { bytes.new ≡ bytes_fixed kind index gain bytes.old }
    ensures length { length bytes.new ≡ length bytes.old }
{
    match kind {
        FixKind::Low => {
            bytes[index] = bytes[index].wrapping_add((gain % 256) as u8);
        }
        FixKind::High => {
            bytes[index] = bytes[index].wrapping_add((gain / 256) as u8);
        }
        FixKind::Both => {
            let word = bytes[index] as u32 + 256 * bytes[index + 1] as u32 + gain as u32;
            bytes[index] = (word % 256) as u8;
            bytes[index + 1] = (word / 256 % 256) as u8;
        }
    }
}

// Applies fixes to bytes from a place on.
fn fix_all(bytes: &mut [u8], offset: u16, fixes: &[Fix], resolved: &Resolved)
    requires { AreWithin offset (length bytes.old) fixes.now }
    ensures { bytes.new ≡ bytes_after (gain_by resolved.now) offset fixes.now bytes.old }
{
    for fix in fixes {
        let index = (fix.offset - offset) as usize;
        fix_bytes(bytes, fix.kind, index, resolved.gain(fix.target));
    }
}

// Bytes at their place in a merge, after these fixes, which are within them.
fn moved_run(
    alloc: Global,
    stretch: &Stretch<'_>,
    fixes: &[Fix],
    resolved: &Resolved,
) -> Result<Run, AllocError>
    requires room { start_of resolved.now.start stretch.now.segment + stretch.now.offset < 65536 }
    requires within { AreWithin stretch.now.offset (length stretch.now.bytes.now) fixes.now }
    ensures { IfOk result (λ moved. moved
        ≡ run_fixed (start_of resolved.now.start stretch.now.segment) (gain_by resolved.now) fixes.now
        (run_at stretch.now.offset stretch.now.bytes.now)) }
{
    let mut bytes = Vec::from_slice(alloc, stretch.bytes)?;
    fix_all(bytes.as_mut_slice(), stretch.offset, fixes, resolved);
    Ok(Run::new(resolved.start(stretch.segment) + stretch.offset, bytes))
}

// Adds those fixes of bytes that stay, moved to their places.
fn add_fixes(
    fixes: &mut Vec<Fix>,
    stretch: &Stretch<'_>,
    own: &[Fix],
    resolved: &Resolved,
) -> Result<(), AllocError>
    requires room { start_of resolved.now.start stretch.now.segment + stretch.now.offset
        + length stretch.now.bytes.now ≤ 65535 }
    requires within { AreWithin stretch.now.offset (length stretch.now.bytes.now) own.now }
    ensures { OnOk result (fixes.new.items ≡ fixes.old.items
        ++ filter_map (fix_kept (start_of resolved.now.start stretch.now.segment) (kept_by resolved.now))
        own.now) }
{
    let start = resolved.start(stretch.segment);
    for fix in own {
        if let Some(target) = resolved.kept(fix.target) {
            fixes.push(Fix {
                kind: fix.kind,
                target,
                offset: start + fix.offset,
            })?;
        }
    }
    Ok(())
}

impl GrowingSegment {
    /// A segment without bytes.
    pub(crate) fn new(alloc: Global) -> GrowingSegment
        ensures { result ≡ nothing_grown }
    {
        GrowingSegment {
            runs: Vec::new(alloc),
            fixes: Vec::new(alloc),
            moves: false,
        }
    }

    // Adds bytes, after their fixes. No bytes add nothing.
    fn add_bytes(
        &mut self,
        alloc: Global,
        stretch: &Stretch<'_>,
        fixes: &[Fix],
        resolved: &Resolved,
    ) -> Result<(), AllocError>
        requires room { start_of resolved.now.start stretch.now.segment + stretch.now.offset < 65536 }
        requires within { AreWithin stretch.now.offset (length stretch.now.bytes.now) fixes.now }
        ensures { OnOk result (self.new ≡ record self.old {
          runs = runs_with resolved.now stretch.now.segment self.old.runs stretch.now.offset
              stretch.now.bytes.now fixes.now;
        }) }
    {
        if !stretch.bytes.is_empty() {
            let run = moved_run(alloc, stretch, fixes, resolved)?;
            push_run(&mut self.runs, run)?;
        }
        Ok(())
    }

    /// Adds bytes of the segment, with their fixes by their places.
    pub fn add(
        &mut self,
        alloc: Global,
        stretch: &Stretch<'_>,
        fixes: &[Fix],
        resolved: &Resolved,
    ) -> Result<(), AllocError>
        requires room { start_of resolved.now.start stretch.now.segment + stretch.now.offset
            + length stretch.now.bytes.now ≤ 65535 }
        requires within { AreWithin stretch.now.offset (length stretch.now.bytes.now) fixes.now }
        ensures { OnOk result (self.new ≡ grown_with resolved.now stretch.now.segment self.old
            stretch.now.offset stretch.now.bytes.now fixes.now) }
    {
        self.add_bytes(alloc, stretch, fixes, resolved)?;
        add_fixes(&mut self.fixes, stretch, fixes, resolved)?;
        self.moves = self.moves || resolved.any_moves(fixes);
        Ok(())
    }

    /// Whether a high byte is fixed to a target that moves by a number that is not a multiple of 256.
    pub(crate) fn moves(&self) -> bool
        ensures { result ≡ self.now.moves }
    {
        self.moves
    }

    /// The segment, of a size.
    pub(crate) fn into_segment(self, size: u16, alignment: Alignment) -> SegmentBytes
        ensures { result ≡ record {
          size = size;
          alignment = alignment;
          runs = self.runs;
          fixes = self.fixes;
        } }
    {
        let GrowingSegment {
            runs,
            fixes,
            moves: _,
        } = self;
        SegmentBytes::new(size, alignment, runs, fixes)
    }
}
