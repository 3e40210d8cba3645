//! Lists of numbers, each in a table of its module.

ghost use Rattle.std.specs.Prelude.{◌≡◌};
ghost use Rattle.treecode.specs.internal.Nodes.{entry_of};

/// Consecutive entries of a table.
#[derive(Clone, Copy)]
pub struct Range {
    /// The index of the first entry.
    pub first: u32,
    pub count: u32,
}

/// The index in its table of an item of a range, counted from 0.
pub(crate) fn entry(range: Range, index: u32) -> Option<usize>
    ensures { result ≡ entry_of range index }
{
    if index < range.count {
        Some(range.first as usize + index as usize)
    } else {
        None
    }
}
