//! The memory at the start, as options write it.

ghost use Rattle.std.specs.Prelude.{◌≡◌, IfOk, IsOk, map, option_map};
ghost use Rattle.failure.specs.Failure.{IfFault};
ghost use Rattle.command_line.specs.Settings.{Reads, address_of, all_groups, bytes_from, digits_byte, fill_read};
ghost use Rattle.command_line.specs.Settings.{memory_bytes, memory_group, memory_read};
ghost use Rattle.command_line.specs.internal.Reads.{if_read, in_front};

use crate::values::{ValueFault, byte, groups};
use failure::Failure;
use mem80::MEMORY_SIZE;
use std::alloc::{AllocError, Global};

/// A byte of the memory at the start.
#[derive(Clone, Copy)]
pub struct MemoryByte {
    /// The address.
    pub address: u16,
    /// The byte.
    pub byte: u8,
}

/// The byte of a text of two hexadecimal digits.
pub(crate) fn digits_value(digits: &[u8]) -> Option<u8>
    ensures { result ≡ digits_byte digits.now }
{
    match digits {
        [high, low] => byte(*high, *low),
        _ => None,
    }
}

/// The byte that a text writes, for all memory at the start.
pub(crate) fn fill<'a>(text: &'a str) -> Result<u8, ValueFault<'a>>
    ensures { Reads (fill_read text.entry.now) result }
{
    match digits_value(text.as_bytes()) {
        Some(byte) => Ok(byte),
        None => Err(ValueFault { text }),
    }
}

// The address that four hexadecimal digits write, the high byte first.
fn address(a: u8, b: u8, c: u8, d: u8) -> Option<u16>
    ensures { result ≡ address_of a b c d }
{
    let high = byte(a, b)?;
    let low = byte(c, d)?;
    Some(u16::from(high) * 256 + u16::from(low))
}

#[tactic(auto, using(crate::proofs::MemoryBytes::no_byte, crate::proofs::MemoryBytes::past_end, crate::proofs::MemoryBytes::bytes_end))]
// Adds the bytes that digits write from an address on, and answers whether all of them were read and none passes the
// end of memory.
fn add_bytes(memory: &mut Vec<MemoryByte>, start: u16, digits: &[u8]) -> Result<bool, AllocError>
    ensures { IfOk result (λ is_read.
        in_front memory.old.items (bytes_from start digits.now) ≡ if_read is_read memory.new.items) }
{
    let mut rest = digits;
    let mut next = start as usize;
    while let [high, low, more @ ..] = rest {
        if next >= MEMORY_SIZE {
            return Ok(false);
        }
        let Some(byte) = byte(*high, *low) else {
            return Ok(false);
        };
        let address = next as u16;
        memory.push(MemoryByte { address, byte })?;
        next += 1;
        rest = more;
    }
    Ok(rest.is_empty())
}

// Adds the bytes of a group, and answers whether all of it was read.
fn add_group(memory: &mut Vec<MemoryByte>, group: &[u8]) -> Result<bool, AllocError>
    ensures { IfOk result (λ is_read.
        in_front memory.old.items (memory_group group.now) ≡ if_read is_read memory.new.items) }
{
    let [a, b, c, d, colon, digits @ ..] = group else {
        return Ok(false);
    };
    if *colon != b':' {
        return Ok(false);
    }
    match address(*a, *b, *c, *d) {
        Some(start) => add_bytes(memory, start, digits),
        None => Ok(false),
    }
}

#[tactic(auto, using(crate::proofs::Inputs::no_group, crate::proofs::Inputs::groups_end))]
// Adds the bytes of groups, and answers whether all of them were read.
fn add_groups(memory: &mut Vec<MemoryByte>, groups: &[&str]) -> Result<bool, AllocError>
    ensures { IfOk result (λ is_read.
        in_front memory.old.items (all_groups memory_group (map (λ group. group.now) groups.now))
        ≡ if_read is_read memory.new.items) }
{
    let mut rest = groups;
    while let [group, more @ ..] = rest {
        if !add_group(memory, group.as_bytes())? {
            return Ok(false);
        }
        rest = more;
    }
    Ok(true)
}

// The bytes of memory that a text writes, or nothing where it writes none.
fn bytes_in(alloc: Global, text: &str) -> Result<Option<Vec<MemoryByte>>, AllocError>
    ensures { IfOk result (λ found. option_map (λ bytes. bytes.items) found ≡ memory_bytes text.now) }
{
    let groups = groups(alloc, text)?;
    let mut bytes = Vec::new(alloc);
    let adding = add_groups(&mut bytes, groups.as_slice());
    drop(groups);
    if adding? { Ok(Some(bytes)) } else { Ok(None) }
}

/// The bytes of memory that an order writes.
pub(crate) fn memory<'a>(
    alloc: Global,
    text: Option<&'a str>,
) -> Result<Vec<MemoryByte>, Failure<ValueFault<'a>>>
    ensures ok { IfOk result (λ bytes.
        memory_read (option_map (λ text. text.now) text.entry) ≡ Ok bytes.items) }
    ensures fault { IfFault result (λ fault.
        memory_read (option_map (λ text. text.now) text.entry) ≡ Err fault.text.now) }
    ensures memory { text.entry ≡ None → IsOk result }
{
    let Some(text) = text else {
        return Ok(Vec::new(alloc));
    };
    match bytes_in(alloc, text)? {
        Some(bytes) => Ok(bytes),
        None => Err(Failure::Fault(ValueFault { text })),
    }
}
