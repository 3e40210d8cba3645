//! The frames of calls.

ghost use Rattle.std.specs.Prelude.{◌≡◌, ◌+◌, ◌++◌, ◌≤◌, MatchResult, if◌then◌else◌, length, nat_lt, replicate, slice_index, slice_set};

use crate::slots::{FrameSlots, Part};
use std::alloc::{AllocError, Global};
use std::marker::Model;
use trees::ScalarType;

/// The frame of a call: where the objects of its module lie, its procedure, and where it begins among the bytes of all frames.
#[derive(Clone, Copy)]
pub(crate) struct OpenFrame<'a> {
    slots: &'a FrameSlots,
    procedure: usize,
    base: usize,
}

/// The frames of the calls that are under way, the last one first. The bytes of all frames lie one after another.
#[derive(Drop)]
pub struct Frames<'a> {
    current: Option<OpenFrame<'a>>,
    callers: Vec<OpenFrame<'a>>,
    bytes: Vec<u8>,
}

impl<'a> Model for Frames<'a> {
    ghost use Rattle.std.specs.Prelude.{List, ℕ};
    ghost use Rattle.declared.specs.internal.Nesting.{AreFrames, frames_in, open_frames};

    ghost Value = { List (List (List ℕ)) };

    ghost view = { λ frames. frames_in (open_frames frames.current frames.callers.items) frames.bytes.items };

    ghost invariant = { λ frames. AreFrames frames.current frames.callers.items frames.bytes.items };
}

// Adds `count` zeros. Fails past the greatest usize, which is out of memory.
fn add_zeros(bytes: &mut Vec<u8>, count: usize) -> Result<(), AllocError>
    ensures { MatchResult result (λ _. bytes.new.items ≡ bytes.old.items ++ replicate count 0)
        (λ _. bytes.new.items ≡ bytes.old.items) }
{
    let Some(end) = bytes.len().checked_add(count) else {
        // No memory has this many bytes.
        return Err(AllocError);
    };
    bytes.resize(end, 0)
}

// A byte of some bytes, 0 past their end.
#[inline(always)]
fn byte_of(bytes: &[u8], offset: usize) -> u8
    ensures { result ≡ slice_index bytes.now offset }
{
    if offset < bytes.len() {
        bytes[offset]
    } else {
        0
    }
}

// Changes a byte of a part of some bytes. Past its end nothing changes.
#[inline(always)]
fn set_byte_of(bytes: &mut [u8], part: Part, offset: usize, byte: u8)
    requires { part.start + part.size ≤ length bytes.old }
    ensures { bytes.new
        ≡ (if nat_lt offset part.size then slice_set bytes.old (part.start + offset) byte else bytes.old) }
{
    if offset < part.size {
        bytes[part.start + offset] = byte;
    }
}

impl OpenFrame<'_> {
    ghost use Rattle.std.specs.Prelude.{◌≡◌, ◌+◌, ◌^◌, ◌<◌, ◌≤◌, slice_index, take};
    ghost use Rattle.declared.specs.internal.Cuts.{total};
    ghost use Rattle.declared.specs.internal.Nesting.{sizes_of};

    // The bytes of an object among those of all frames: none if it is not in the frame.
    #[inline(always)]
    fn part(&self, object: u32) -> Part
        requires procedure { (self.now).procedure < ((self.now).slots.now).procedures }
        requires end { (self.now).base + total (sizes_of self.now) < 2 ^ 64 }
        ensures size { result.size ≡ slice_index (sizes_of self.now) object }
        ensures start { 0 < result.size
            → result.start ≡ (self.now).base + total (take object (sizes_of self.now)) }
        ensures within { result.start + result.size ≤ (self.now).base + total (sizes_of self.now) }
    {
        let part = self.slots.part(self.procedure, object);
        Part {
            start: self.base + part.start,
            size: part.size,
        }
    }
}

impl<'a> Frames<'a> {
    ghost use Rattle.std.specs.Prelude.{◌≡◌, ◌∷◌, ◌+◌, ◌*◌, ◌<◌, [], MatchResult, drop, slice_index};
    ghost use Rattle.meaning.specs.Access.{frame_bytes};
    ghost use Rattle.declared.specs.internal.Frames.{current_frame, frame_scalar, frame_with_byte, frame_with_scalar, with_current, zeroed_frame};

    /// No frames: only the main program runs.
    pub fn new(alloc: Global) -> Frames<'a>
        ensures { result ≡ [] }
    {
        Frames {
            current: None,
            callers: Vec::new(alloc),
            bytes: Vec::new(alloc),
        }
    }

    /// Opens the frame of a call of a procedure, each of its bytes 0. Fails if memory runs out, and then nothing
    /// changes.
    pub fn open(&mut self, slots: &'a FrameSlots, procedure: usize) -> Result<(), AllocError>
        requires { procedure < (slots.now).procedures }
        ensures { MatchResult result (λ _. self.new ≡ zeroed_frame procedure slots.now ∷ self.old)
            (λ _. self.new ≡ self.old) }
    {
        let base = self.bytes.len();
        add_zeros(&mut self.bytes, slots.frame_size(procedure))?;
        if let Some(caller) = self.current {
            if let Err(_) = self.callers.push(caller) {
                self.bytes.truncate(base);
                // Memory ran out.
                return Err(AllocError);
            }
        }
        self.current = Some(OpenFrame {
            slots,
            procedure,
            base,
        });
        Ok(())
    }

    /// Closes the last frame, if there is one.
    pub fn close(&mut self)
        ensures { self.new ≡ drop 1 self.old }
    {
        if let Some(frame) = self.current {
            self.bytes.truncate(frame.base);
            self.current = self.callers.pop();
        }
    }

    // The bytes of an object in the last frame: none if it is not there.
    #[inline(always)]
    fn bytes_of(&self, object: u32) -> &[u8]
        ensures { result.now ≡ frame_bytes (current_frame self.now) object }
    {
        let Some(frame) = self.current else {
            return &[];
        };
        let part = frame.part(object);
        &self.bytes[part.start..part.start + part.size]
    }

    /// Reads a byte of an object in the last frame, at an offset from the start of the object: 0 if it has no such byte.
    #[inline(always)]
    pub fn read(&self, object: u32, offset: usize) -> u8
        ensures { result ≡ slice_index (frame_bytes (current_frame self.now) object) offset }
    {
        byte_of(self.bytes_of(object), offset)
    }

    /// Writes a byte of an object in the last frame. Nothing changes if it has no such byte.
    #[inline(always)]
    pub fn write(&mut self, object: u32, offset: usize, byte: u8)
        ensures { self.new ≡ with_current (frame_with_byte object offset byte) self.old }
    {
        self.write_scalar(ScalarType::Byte, object, offset, byte as u16);
    }

    /// Reads a scalar of an object in the last frame; of an ADDRESS the low byte comes first.
    #[inline(always)]
    #[tactic(auto, using(crate::proofs::FrameBytes::next_read))]
    pub fn read_scalar(&self, scalar: ScalarType, object: u32, offset: usize) -> u16
        ensures { result ≡ frame_scalar scalar (current_frame self.now) object offset }
    {
        let bytes = self.bytes_of(object);
        let low = byte_of(bytes, offset) as u16;
        match scalar {
            ScalarType::Byte => low,
            ScalarType::Address => low + 256 * byte_of(bytes, offset.saturating_add(1)) as u16,
        }
    }

    /// Writes a scalar of an object in the last frame; of a BYTE the low byte of the number.
    #[inline(always)]
    pub fn write_scalar(&mut self, scalar: ScalarType, object: u32, offset: usize, number: u16)
        ensures { self.new ≡ with_current (frame_with_scalar scalar object offset number) self.old }
    {
        let Some(frame) = self.current else {
            return;
        };
        let part = frame.part(object);
        set_byte_of(&mut self.bytes, part, offset, (number % 256) as u8);
        match scalar {
            ScalarType::Byte => (),
            ScalarType::Address => {
                let next = offset.saturating_add(1);
                set_byte_of(&mut self.bytes, part, next, (number / 256) as u8);
            }
        }
    }
}
