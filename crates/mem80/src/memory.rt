//! The whole memory of an 8080.

ghost use Rattle.std.specs.Prelude.{◌≡◌, ◌≤◌, ◌+◌, length, slice_index, slice_set, IfOk};
ghost use Rattle.mem80.specs.Memory.{IsMemory, IsZeroed, with_bytes};
ghost use Rattle.mem80.specs.declared.memory.TheConstants.{MEMORY_SIZE};

use std::alloc::{AllocError, Global};
use std::marker::Model;

/// How many bytes an 8080 can address.
pub const MEMORY_SIZE: usize = 65536;

/// Why a memory could not be made: the host has none for it.
pub type Memory80Fault = AllocError;

/// 65,536 bytes, at the addresses 0 to 65535.
#[derive(Drop)]
pub struct Memory {
    bytes: Box<[u8; MEMORY_SIZE]>,
}

impl Model for Memory {
    ghost use Rattle.std.specs.Prelude.{List, ℕ};

    ghost Value = { List ℕ };

    ghost use Rattle.mem80.specs.Memory.{IsMemory};

    ghost view = { λ m. m.bytes.value };

    ghost invariant = { λ m. IsMemory m.bytes.value };
}

impl Memory {
    /// A memory of zeros, on the heap. Fails only where the host has no memory for it.
    pub fn new(alloc: Global) -> Result<Memory, Memory80Fault>
        ensures zeroed { IfOk result IsZeroed }
    {
        let bytes = Box::new(alloc, [0; MEMORY_SIZE])?;
        Ok(Memory { bytes })
    }

    /// The byte at an address.
    #[inline(always)]
    pub fn get(&self, address: u16) -> u8
        ensures byte { result ≡ slice_index self.now address }
        ensures memory { IsMemory self.now }
    {
        self.bytes[address as usize]
    }

    /// Puts a byte at an address.
    #[inline(always)]
    pub fn set(&mut self, address: u16, value: u8)
        ensures after { self.new ≡ slice_set self.old address value }
        ensures memory { IsMemory self.new }
    {
        let place = address as usize;
        self.bytes[place] = value;
    }

    /// Puts bytes one after another, from an address on. They must end within the memory.
    pub fn load(&mut self, start: u16, bytes: &[u8])
        requires { start + length bytes.now ≤ MEMORY_SIZE }
        ensures after { self.new ≡ with_bytes bytes.now start self.old }
        ensures memory { IsMemory self.old }
    {
        put_bytes(&mut *self.bytes, start, bytes);
    }
}

// Copies bytes to the places from an address on.
fn put_bytes(memory: &mut [u8; MEMORY_SIZE], start: u16, bytes: &[u8])
    requires { start + length bytes.now ≤ MEMORY_SIZE }
    ensures { memory.new ≡ with_bytes bytes.now start memory.old }
{
    let start = start as usize;
    let end = start + bytes.len();
    memory[start..end].copy_from_slice(bytes);
}
