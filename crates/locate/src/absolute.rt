//! Placed modules.

ghost use Rattle.std.specs.Prelude.{◌≡◌, ◌+◌, ◌<◌, ◌≤◌, ◌∷◌, [], All, IsTrue, IfOk, length, map};
ghost use Rattle.mem80.specs.declared.memory.TheConstants.{MEMORY_SIZE};
ghost use Rattle.mem80.specs.Pieces.{AreWritable, EndsInMemory, IsLoaded, are_runs, byte_in};
ghost use Rattle.locate.specs.Locating.{loaded, symbol_view};

use mem80::{Bytes, Memory, Piece};
use object_modules::Name;
use std::alloc::{AllocError, Global};
use std::marker::Model;

/// A public name with its address.
#[derive(Clone, Copy)]
pub struct Symbol {
    pub name: Name,
    pub address: u16,
}

/// A placed module: the bytes that it sets, where it starts, and the addresses of its public names.
pub struct Absolute {
    pieces: Vec<Piece>,
    start: u16,
    symbols: Vec<Symbol>,
}

impl Model for Absolute {
    ghost use Rattle.std.specs.Prelude.{map};
    ghost use Rattle.locate.specs.Locating.{Absolute as AbsoluteValue, IsAbsolute, symbol_view};

    ghost Value = { AbsoluteValue };

    ghost view = { λ a. record {
      pieces = a.pieces.items;
      start = a.start;
      symbols = map symbol_view a.symbols.items;
    } };

    ghost invariant = { λ a. IsAbsolute (record {
      pieces = a.pieces.items;
      start = a.start;
      symbols = map symbol_view a.symbols.items;
    }) };
}

// Written out, so that it is freed here, and each crate that frees one calls this.
impl Drop for Absolute {
    fn drop(self) {
        let Absolute {
            pieces: _,
            start: _,
            symbols: _,
        } = self;
    }
}

impl Absolute {
    // A placed module of these parts.
    pub(crate) fn new(pieces: Vec<Piece>, start: u16, symbols: Vec<Symbol>) -> Absolute
        requires runs { IsTrue (are_runs pieces.items) }
        requires in_memory { All EndsInMemory pieces.items }
        ensures pieces { result.pieces ≡ pieces.items }
        ensures start { result.start ≡ start }
        ensures symbols { result.symbols ≡ map symbol_view symbols.items }
    {
        Absolute {
            pieces,
            start,
            symbols,
        }
    }

    /// A placed module that sets these bytes alone, from an address on, and starts at the first of them. It has no symbols.
    pub fn of_bytes(alloc: Global, start: u16, bytes: Vec<u8>) -> Result<Absolute, AllocError>
        requires some { 0 < length bytes.items }
        requires in_memory { start + length bytes.items ≤ MEMORY_SIZE }
        ensures pieces { IfOk result
            (λ absolute. absolute.pieces ≡ record { start = start; bytes = bytes.items } ∷ []) }
        ensures start { IfOk result (λ absolute. absolute.start ≡ start) }
    {
        let mut pieces = Vec::new(alloc);
        pieces.push(Piece {
            start,
            bytes: Bytes::from_vec(bytes),
        })?;
        let absolute = Absolute::new(pieces, start, Vec::new(alloc));
        Ok(absolute)
    }

    /// The bytes that it sets, as the longest runs, in the order of their addresses: each has bytes, and the
    /// next one begins after the address where it ends.
    #[tactic(auto, using(crate::proofs::Loads::runs_writable))]
    pub fn pieces(&self) -> &[Piece]
        ensures same { result.now ≡ self.now.pieces }
        ensures runs { IsTrue (are_runs result.now) }
        ensures writable { AreWritable result.now }
    {
        self.pieces.as_slice()
    }

    /// The address where it starts.
    pub fn start(&self) -> u16
        ensures { result ≡ self.now.start }
    {
        self.start
    }

    /// Its public names, in their order.
    pub fn symbols(&self) -> &[Symbol]
        ensures { map symbol_view result.now ≡ self.now.symbols }
    {
        self.symbols.as_slice()
    }

    /// Puts its bytes into a memory, which is as before elsewhere.
    pub fn load(&self, memory: &mut Memory)
        ensures bytes { IsLoaded (byte_in self.now.pieces) memory.old memory.new }
        ensures pieces { loaded self.now.pieces memory.old ≡ memory.new }
    {
        put_pieces(self.pieces.as_slice(), memory);
    }
}

// Puts pieces into a memory.
#[tactic(auto, using(crate::proofs::Loads::all_loaded))]
fn put_pieces(pieces: &[Piece], memory: &mut Memory)
    requires runs { IsTrue (are_runs pieces.now) }
    requires in_memory { All EndsInMemory pieces.now }
    ensures bytes { IsLoaded (byte_in pieces.now) memory.old memory.new }
    ensures pieces { loaded pieces.now memory.old ≡ memory.new }
{
    for piece in pieces {
        memory.load(piece.start, piece.bytes.as_slice());
    }
}
