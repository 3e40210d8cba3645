//! Bytes of memory.

ghost use Rattle.std.specs.Prelude.{◌≡◌};
ghost use Rattle.placing.specs.Views.{placement_view};
ghost use Rattle.declared.specs.internal.Access.{AreKindsOf, byte_read, byte_written, is_constant_at, is_declared_at};
ghost use Rattle.join.specs.Views.{modules_in};
ghost use Rattle.declared.specs.internal.Kinds.{says_constant, says_declared};

use join::Joined;
use meaning::Reason;
use mem80::Memory;
use placing::{ByteKind, ByteKinds, Placement};

// What the byte at an address is to the program.
#[inline(always)]
fn kind_of(joined: &Joined, placement: &Placement, kinds: &ByteKinds, address: u16) -> ByteKind
    requires { AreKindsOf joined.now placement.now kinds.now }
    ensures declared { is_declared_at (modules_in joined.now) (placement_view placement.now) address
        ≡ says_declared result }
    ensures constant { is_constant_at (modules_in joined.now) (placement_view placement.now) address
        ≡ says_constant result }
{
    let _program = joined;
    let _placement = placement;
    kinds.kind_at(address)
}

/// Reads the byte at an address. A byte that the program does not declare is outside the language.
#[inline(always)]
pub fn read_byte(
    joined: &Joined,
    placement: &Placement,
    kinds: &ByteKinds,
    memory: &Memory,
    address: u16,
) -> Result<u8, Reason>
    requires { AreKindsOf joined.now placement.now kinds.now }
    ensures { result ≡ byte_read (modules_in joined.now) (placement_view placement.now) memory.now address }
{
    match kind_of(joined, placement, kinds, address) {
        ByteKind::Undeclared => Err(Reason::Byte),
        ByteKind::Writable => Ok(memory.get(address)),
        ByteKind::Constant => Ok(memory.get(address)),
    }
}

/// Writes the byte at an address. A byte that the program does not declare, or that a constant has, is outside the language,
/// and then nothing changes.
#[inline(always)]
pub fn write_byte(
    joined: &Joined,
    placement: &Placement,
    kinds: &ByteKinds,
    memory: &mut Memory,
    address: u16,
    byte: u8,
) -> Result<(), Reason>
    requires { AreKindsOf joined.now placement.now kinds.now }
    ensures answer { result ≡ (byte_written (modules_in joined.now) (placement_view placement.now)
        memory.old address byte).answer }
    ensures memory { memory.new ≡ (byte_written (modules_in joined.now) (placement_view placement.now)
        memory.old address byte).memory }
{
    match kind_of(joined, placement, kinds, address) {
        ByteKind::Undeclared => Err(Reason::Byte),
        ByteKind::Constant => Err(Reason::Constant),
        ByteKind::Writable => {
            memory.set(address, byte);
            Ok(())
        }
    }
}
