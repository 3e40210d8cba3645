//! Places in segments.

/// The greatest number of bytes of a segment.
pub const SEGMENT_LIMIT: u32 = 65_535;

/// A segment that holds objects. The code segment begins with the constants of the module.
#[derive(Clone, Copy)]
pub enum Segment {
    Code,
    Data,
}

/// Where something lies in its segment, and how many bytes it takes.
#[derive(Clone, Copy)]
pub struct Slot {
    pub segment: Segment,
    pub offset: u32,
    pub size: u32,
}

/// Where the objects and the constant lists of a module lie, by their numbers, and how many bytes the data segment and
/// the constants have. An object with AT, BASED, in a frame or in another module lies in no segment.
pub struct Layout {
    pub objects: Vec<Option<Slot>>,
    pub lists: Vec<Slot>,
    pub data_size: u32,
    pub constant_size: u32,
}

// Written out, so that it is freed here, and each crate that frees one calls this.
impl Drop for Layout {
    fn drop(self) {
        let Layout {
            objects: _,
            lists: _,
            data_size: _,
            constant_size: _,
        } = self;
    }
}
