//! Ranges of addresses, and pieces of bytes that belong at an address.

ghost use Rattle.std.specs.Prelude.{◌≡◌, ◌↔◌, IsTrue};
ghost use Rattle.mem80.specs.Range.{Meets};

use std::marker::Model;

/// The addresses from `start` on, `len` of them; with `len` 0 none.
#[derive(Clone, Copy, Debug)]
pub struct Range {
    pub start: u32,
    pub len: u32,
}

/// Whether an address lies in both ranges. An empty range meets nothing.
pub fn overlap(left: &Range, right: &Range) -> bool
    ensures meets { IsTrue result ↔ Meets left.now right.now }
{
    let left_end = left.start as u64 + left.len as u64;
    let right_end = right.start as u64 + right.len as u64;
    let start = if left.start < right.start {
        right.start as u64
    } else {
        left.start as u64
    };
    start < left_end && start < right_end
}

/// A list of bytes, which gives its `Vec` back without taking memory.
#[derive(Drop)]
pub struct Bytes {
    items: Vec<u8>,
}

impl Model for Bytes {
    ghost use Rattle.std.specs.Prelude.{List, ℕ};

    ghost Value = { List ℕ };

    ghost view = { λ b. b.items.items };
}

impl Bytes {
    /// The bytes of a `Vec`.
    pub fn from_vec(items: Vec<u8>) -> Bytes
        ensures same { result ≡ items.items }
    {
        Bytes { items }
    }

    /// The `Vec` again.
    pub fn into_vec(self) -> Vec<u8>
        ensures same { result.items ≡ self }
    {
        let Bytes { items } = self;
        items
    }

    /// The bytes, to look at.
    pub fn as_slice(&self) -> &[u8]
        ensures same { result.now ≡ self.now }
    {
        self.items.as_slice()
    }
}

/// Bytes that belong at an address, one after another.
#[derive(Drop)]
pub struct Piece {
    pub start: u16,
    pub bytes: Bytes,
}
