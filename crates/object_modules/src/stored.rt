//! Segments as they are kept: runs of bytes, and the places that depend on where something lies.

ghost use Rattle.std.specs.Prelude.{◌≡◌, ◌∷◌, ◌++◌, [], OnErr, OnOk};
ghost use Rattle.object_modules.specs.Runs.{with_run};

use crate::segment::{Alignment, Fix};
use std::alloc::AllocError;
use std::marker::Model;

/// Bytes that are set one after another, the first at an offset from the start of their segment, 0 to 65535.
pub struct Run {
    offset: u16,
    bytes: Vec<u8>,
}

impl Model for Run {
    ghost use Rattle.std.specs.Prelude.{ℕ};
    ghost use Rattle.object_modules.specs.Text.{Run as Placed};

    ghost Value = { Placed ℕ };

    ghost view = { λ run. record { offset = run.offset; items = run.bytes.items } };
}

impl Run {
    /// Bytes from an offset on. Making a module of it requires that they lie within a segment.
    pub fn new(offset: u16, bytes: Vec<u8>) -> Run
        ensures { result ≡ record { offset = offset; items = bytes.items } }
    {
        Run { offset, bytes }
    }

    /// Where the first of its bytes is set, from the start of the segment, 0 to 65535.
    pub fn offset(&self) -> u16
        ensures { result ≡ self.now.offset }
    {
        self.offset
    }

    /// Its bytes: the one with index k is set at k places after `offset`.
    pub fn bytes(&self) -> &[u8]
        ensures { result.now ≡ self.now.items }
    {
        self.bytes.as_slice()
    }

    /// Adds bytes after its last one. Fails only if memory runs out, and then nothing changes.
    pub fn append(&mut self, bytes: &[u8]) -> Result<(), AllocError>
        ensures offset { self.new.offset ≡ self.old.offset }
        ensures ok { OnOk result (self.new.items ≡ self.old.items ++ bytes.now) }
        ensures err { OnErr result (self.new.items ≡ self.old.items) }
    {
        self.bytes.extend_from_slice(bytes)
    }
}

// Adds two runs after others, as one if the second begins at the end of the first.
fn push_after(runs: &mut Vec<Run>, last: Run, run: Run) -> Result<(), AllocError>
    ensures { OnOk result (runs.new.items ≡ runs.old.items ++ with_run (last ∷ []) run) }
{
    let mut last = last;
    if run.offset() as usize == last.offset() as usize + last.bytes().len() {
        last.append(run.bytes())?;
        runs.push(last)?;
    } else {
        runs.push(last)?;
        runs.push(run)?;
    }
    Ok(())
}

/// Adds a run after others: it continues the last of them if it begins at its end. Fails only if memory runs out, and
/// the last run may then be gone.
#[tactic(auto, using(crate::proofs::PushedRuns::with_run_last))]
pub fn push_run(runs: &mut Vec<Run>, run: Run) -> Result<(), AllocError>
    ensures { OnOk result (runs.new.items ≡ with_run runs.old.items run) }
{
    match runs.pop() {
        Some(last) => push_after(runs, last, run),
        None => {
            runs.push(run)?;
            Ok(())
        }
    }
}

/// A segment: how many bytes it has, set or not, where it may begin, the bytes that are set, and the fixes of
/// these.
pub struct SegmentBytes {
    size: u16,
    alignment: Alignment,
    runs: Vec<Run>,
    fixes: Vec<Fix>,
}

impl Model for SegmentBytes {
    ghost use Rattle.object_modules.specs.Stored.{StoredSegment};

    ghost Value = { StoredSegment };

    ghost view = { λ segment. record {
      size = segment.size;
      alignment = segment.alignment;
      runs = segment.runs.items;
      fixes = segment.fixes.items;
    } };
}

impl SegmentBytes {
    /// A segment of this many bytes, 0 to 65535, with these runs and fixes. Takes no memory. Making a module of it
    /// requires the longest runs, within the segment, and fixes within these runs, both in the order of their
    /// offsets.
    pub fn new(size: u16, alignment: Alignment, runs: Vec<Run>, fixes: Vec<Fix>) -> SegmentBytes
        ensures { result ≡ record {
          size = size;
          alignment = alignment;
          runs = runs.items;
          fixes = fixes.items;
        } }
    {
        SegmentBytes {
            size,
            alignment,
            runs,
            fixes,
        }
    }

    /// How many bytes it has, set or not, 0 to 65535.
    pub fn size(&self) -> u16
        ensures { result ≡ self.now.size }
    {
        self.size
    }

    /// Where it may begin.
    pub fn alignment(&self) -> Alignment
        ensures { result ≡ self.now.alignment }
    {
        self.alignment
    }

    /// The runs of bytes that are set, as they were handed in.
    pub fn runs(&self) -> &[Run]
        ensures { result.now ≡ self.now.runs }
    {
        self.runs.as_slice()
    }

    /// The places that depend on where something lies, as they were handed in.
    pub fn fixes(&self) -> &[Fix]
        ensures { result.now ≡ self.now.fixes }
    {
        self.fixes.as_slice()
    }
}

// Written out, so that these are freed here, and each crate that frees one calls this.
impl Drop for Run {
    fn drop(self) {
        let Run {
            offset: _,
            bytes: _,
        } = self;
    }
}

impl Drop for SegmentBytes {
    fn drop(self) {
        let SegmentBytes {
            size: _,
            alignment: _,
            runs: _,
            fixes: _,
        } = self;
    }
}
