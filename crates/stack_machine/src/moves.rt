//! Copies of bytes.

ghost use Rattle.std.specs.Prelude.{◌≡◌};
ghost use Rattle.placing.specs.Views.{placement_view};
ghost use Rattle.declared.specs.internal.Access.{AreKindsOf};
ghost use Rattle.join.specs.Views.{modules_in};
ghost use Rattle.stack_machine.specs.internal.Moves.{bytes_moved};

use declared::{read_byte, write_byte};
use join::Joined;
use meaning::Reason;
use mem80::Memory;
use placing::{ByteKinds, Placement};

/// Copies `count` bytes, one after another; the address after 65535 is 0.
#[tactic(auto, using(crate::proofs::Copies::one_copied, crate::proofs::Copies::not_read, crate::proofs::Copies::not_written, crate::proofs::Copies::all_copied))]
pub fn copy(
    joined: &Joined,
    placement: &Placement,
    kinds: &ByteKinds,
    memory: &mut Memory,
    count: u16,
    source: u16,
    destination: u16,
) -> Result<(), Reason>
    requires { AreKindsOf joined.now placement.now kinds.now }
    ensures answer { result
        ≡ (bytes_moved (modules_in joined.now) (placement_view placement.now) memory.old
        count source destination).answer }
    ensures memory { memory.new
        ≡ (bytes_moved (modules_in joined.now) (placement_view placement.now) memory.old
        count source destination).memory }
{
    let mut left = count;
    let mut from = source;
    let mut to = destination;
    while left > 0 {
        let byte = read_byte(joined, placement, kinds, memory, from)?;
        write_byte(joined, placement, kinds, memory, to, byte)?;
        left -= 1;
        from = from.wrapping_add(1);
        to = to.wrapping_add(1);
    }
    Ok(())
}
