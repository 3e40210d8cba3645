//! Addresses and sizes at the end of a line.

ghost use Rattle.std.specs.Prelude.{◌≡◌, ◌∷◌, ◌++◌, [], OnOk};
ghost use Rattle.std.specs.Fmt.{decimal};
ghost use Rattle.object_commands.specs.Placing.{address_digits};

use std::io;
use std::io::Write;

/// Adds a space and an address.
pub(crate) fn put_address(lines: &mut Vec<u8>, address: u16) -> io::Result<()>
    ensures { OnOk result (lines.new.items ≡ lines.old.items ++ 32 ∷ address_digits address) }
{
    write!(lines, " {address:04X}")
}

/// Adds a space, an address, another space and a number of bytes, and ends the line.
#[tactic(auto, using(std::proofs::lemmas::List::append_assoc))]
pub(crate) fn put_range(lines: &mut Vec<u8>, address: u16, size: u32) -> io::Result<()>
    ensures { OnOk result (lines.new.items
        ≡ lines.old.items ++ 32 ∷ address_digits address ++ 32 ∷ decimal size ++ 10 ∷ []) }
{
    put_address(lines, address)?;
    writeln!(lines, " {size}")
}
