//! Bytes and words, put one after another. None is put past the end of memory.

ghost use Rattle.std.specs.Prelude.{◌≡◌, slice_set};
ghost use Rattle.mem80.specs.Memory.{IsMemory};
ghost use Rattle.layout.specs.StartingMemory.{bytes_of_word, written};
ghost use Rattle.interpreter.specs.internal.Contents.{IsAfter};

use mem80::Memory;

/// Puts a byte at an address, and gives the next address, if there is one.
pub(crate) fn put_byte(memory: &mut Memory, address: u16, byte: u8) -> Option<u16>
    ensures memory { IsMemory memory.new }
    ensures byte { memory.new ≡ slice_set memory.old address byte }
    ensures next { IsAfter result address 1 }
{
    memory.set(address, byte);
    address.checked_add(1)
}

/// Puts a word at an address, its low byte first, and gives the address after it, if there is one.
pub(crate) fn put_word(memory: &mut Memory, address: u16, word: u16) -> Option<u16>
    ensures memory { IsMemory memory.new }
    ensures word { memory.new ≡ written memory.old address (bytes_of_word word) }
    ensures next { IsAfter result address 2 }
{
    let low = (word % 256) as u8;
    let high = (word / 256) as u8;
    match put_byte(memory, address, low) {
        Some(next) => put_byte(memory, next, high),
        None => None,
    }
}

/// Puts bytes one after another, from an address on.
#[tactic(auto, using(crate::proofs::Loops::byte_put, crate::proofs::Loops::bytes_put))]
pub(crate) fn put_bytes(memory: &mut Memory, start: u16, bytes: &[u8])
    ensures { memory.new ≡ written memory.old start bytes.now }
{
    let mut address = start;
    for byte in bytes {
        match put_byte(memory, address, *byte) {
            Some(next) => address = next,
            None => return,
        }
    }
}
