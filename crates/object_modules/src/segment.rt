//! Segments of object modules, and the places in them that depend on where something lies.

/// The greatest number of bytes of a segment, whose length stands in two bytes (Module Header Record).
pub const SEGMENT_LIMIT: u32 = 65_535;

/// What an offset is counted from.
#[derive(Clone, Copy, Debug)]
pub enum Segment {
    /// Segment 0: addresses that stay as they are.
    Absolute,
    /// Segment 1.
    Code,
    /// Segment 2.
    Data,
    /// Segment 3: it has a length and no bytes. What is fixed to it becomes the address just past the stack.
    Stack,
}

/// Where a segment may begin.
#[derive(Clone, Copy, Debug)]
pub enum Alignment {
    /// Anywhere.
    Byte,
    /// At a multiple of 256.
    Page,
}

/// Which part of an address stands at a fixed place.
#[derive(Clone, Copy, Debug)]
pub enum FixKind {
    /// Kind 1: its low byte.
    Low,
    /// Kind 2: its high byte.
    High,
    /// Kind 3: both, the low byte first.
    Both,
}

/// What the address at a fixed place is counted from.
#[derive(Clone, Copy, Debug)]
pub enum Target {
    /// A segment of the module.
    InSegment(Segment),
    /// The external name of this number, from 0.
    External(u16),
}

/// A place that depends on where its target lies.
#[derive(Clone, Copy, Debug)]
pub struct Fix {
    pub kind: FixKind,
    pub target: Target,
    /// The place of its first byte, from the start of the segment that it lies in, 0 to 65535.
    pub offset: u16,
}
