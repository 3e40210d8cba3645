//! The values that fill an object.

ghost use Rattle.std.specs.Prelude.{◌≡◌, flat_map, length};
ghost use Rattle.mem80.specs.Memory.{IsMemory};
ghost use Rattle.layout.specs.StartingMemory.{bytes_of_value, written};
ghost use Rattle.meaning.specs.Access.{address_of};
ghost use Rattle.resolving.specs.internal.Views.{site_view};
ghost use Rattle.interpreter.specs.internal.Contents.{IsAfter};

use crate::contents::bytes::{put_byte, put_word};
use mem80::Memory;
use resolving::Site;
use typed_trees::InitialValue;

// Puts a value at an address, and gives the address after it, if there is one.
fn put_value(site: &Site<'_>, memory: &mut Memory, address: u16, value: InitialValue) -> Option<u16>
    ensures memory { IsMemory memory.new }
    ensures value { memory.new
        ≡ written memory.old address (bytes_of_value (address_of (site_view site.now)) value) }
    ensures next { IsAfter result address (length (bytes_of_value (address_of (site_view site.now)) value)) }
{
    match value {
        InitialValue::ByteValue(byte) => put_byte(memory, address, byte),
        InitialValue::WordValue(word) => put_word(memory, address, word),
        InitialValue::LocationValue { object, offset } => {
            put_word(
                memory,
                address,
                site.address_of(object).wrapping_add(offset),
            )
        }
    }
}

/// Puts values one after another, from an address on.
#[tactic(auto, using(crate::proofs::Loops::value_put, crate::proofs::Loops::values_put))]
pub(crate) fn put_values(site: &Site<'_>, memory: &mut Memory, start: u16, values: &[InitialValue])
    ensures { memory.new
        ≡ written memory.old start (flat_map (bytes_of_value (address_of (site_view site.now))) values.now) }
{
    let mut address = start;
    for value in values {
        match put_value(site, memory, address, *value) {
            Some(next) => address = next,
            None => return,
        }
    }
}
