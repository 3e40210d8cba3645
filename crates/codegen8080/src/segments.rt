//! Segments of object modules, from assembled code.

ghost use Rattle.std.specs.Prelude.{◌≡◌, ◌≤◌, ◌<◌, All, Some, false, length, map, slice_index_or, slice_range, IfOk, OnOk};
ghost use Rattle.object_modules.specs.declared.segment.TheConstants.{SEGMENT_LIMIT};
ghost use Rattle.object_modules.specs.Text.{runs_from};
ghost use Rattle.object_modules.specs.internal.Joining.{with_runs};
ghost use Rattle.asm8080.specs.Assembled.{segment_of, set_bytes};
ghost use Rattle.codegen8080.specs.internal.Targets.{with_targets};
ghost use Rattle.codegen8080.specs.internal.Segments.{IsKept, KeepsFixes, retarget};

use crate::targets::retargeted;
use asm8080::CodeBytes;
use object_modules::{Alignment, Run, SegmentBytes, push_run};
use std::alloc::{AllocError, Global};

// Whether the byte at an index is set.
fn is_set_at(is_set: &[bool], index: usize) -> bool
    ensures { result ≡ slice_index_or is_set.now index false }
{
    match is_set.get(index) {
        Some(is_set) => *is_set,
        None => false,
    }
}

// Adds the bytes between two indices to runs, if there are any.
#[tactic(auto, using(crate::proofs::KeptSegments::none_added, crate::proofs::KeptSegments::some_added))]
fn add_bytes(
    alloc: Global,
    runs: &mut Vec<Run>,
    bytes: &[u8],
    start: usize,
    end: usize,
) -> Result<(), AllocError>
    requires order { start ≤ end }
    requires within { end ≤ length bytes.now }
    requires few { length bytes.now ≤ SEGMENT_LIMIT }
    ensures { OnOk result (runs.new.items
        ≡ with_runs runs.old.items (runs_from start (map Some (slice_range bytes.now start end)))) }
{
    if start == end {
        return Ok(());
    }
    let bytes = Vec::from_slice(alloc, &bytes[start..end])?;
    push_run(runs, Run::new(start as u16, bytes))
}

// The number of bytes.
fn count_of(bytes: &[u8]) -> usize
    ensures count { result ≡ length bytes.now }
    ensures bytes { All (λ byte. byte < 256) bytes.now }
{
    bytes.len()
}

// The maximal runs of bytes that are set.
#[tactic(auto, using(crate::proofs::KeptSegments::runs_begun, crate::proofs::KeptSegments::stretch_begun, crate::proofs::KeptSegments::stretch_more, crate::proofs::KeptSegments::stretch_ended, crate::proofs::KeptSegments::runs_unset, crate::proofs::KeptSegments::runs_ended))]
fn runs_of(alloc: Global, bytes: &[u8], is_set: &[bool]) -> Result<Vec<Run>, AllocError>
    requires { length bytes.now ≤ SEGMENT_LIMIT }
    ensures { IfOk result (λ runs. runs.items ≡ runs_from 0 (set_bytes bytes.now is_set.now)) }
{
    let mut runs = Vec::new(alloc);
    let mut start = 0;
    for index in 0..bytes.len() {
        if !is_set_at(is_set, index) {
            add_bytes(alloc, &mut runs, bytes, start, index)?;
            start = index + 1;
        }
    }
    add_bytes(alloc, &mut runs, bytes, start, bytes.len())?;
    Ok(runs)
}

/// The segment of code. A table maps the numbers of EXTERNAL names in its fixes to other numbers, below `count`.
pub(crate) fn segment_of(
    alloc: Global,
    code: CodeBytes,
    numbers: &[u16],
    count: usize,
) -> Result<SegmentBytes, AllocError>
    requires { KeepsFixes code }
    ensures kept { IfOk result (λ made. IsKept count made) }
    ensures same { IfOk result (λ made. made ≡ segment_of (with_targets (retarget numbers.now count) code)) }
{
    let size = count_of(code.bytes());
    let runs = runs_of(alloc, code.bytes(), code.is_set())?;
    let fixes = retargeted(alloc, code.fixes(), numbers, count)?;
    Ok(SegmentBytes::new(size as u16, Alignment::Byte, runs, fixes))
}
