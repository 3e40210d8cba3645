//! Scalars in memory.

ghost use Rattle.std.specs.Prelude.{◌≡◌};
ghost use Rattle.placing.specs.Views.{placement_view};
ghost use Rattle.declared.specs.internal.Access.{AreKindsOf, scalar_read, scalar_written};
ghost use Rattle.join.specs.Views.{modules_in};

use crate::bytes::{read_byte, write_byte};
use join::Joined;
use meaning::Reason;
use mem80::Memory;
use placing::{ByteKinds, Placement};
use trees::ScalarType;

/// Reads the scalar at an address. The low byte of an ADDRESS comes first, and the high byte is the next one, at 0 after 65535.
#[inline(always)]
pub fn read_scalar(
    joined: &Joined,
    placement: &Placement,
    kinds: &ByteKinds,
    memory: &Memory,
    scalar: ScalarType,
    address: u16,
) -> Result<u16, Reason>
    requires { AreKindsOf joined.now placement.now kinds.now }
    ensures { result
        ≡ scalar_read (modules_in joined.now) (placement_view placement.now) memory.now scalar address }
{
    let low = read_byte(joined, placement, kinds, memory, address)?;
    match scalar {
        ScalarType::Byte => Ok(low as u16),
        ScalarType::Address => {
            let high = read_byte(joined, placement, kinds, memory, address.wrapping_add(1))?;
            Ok(low as u16 + 256 * high as u16)
        }
    }
}

/// Writes the scalar at an address; of a BYTE the low byte of the number. If the high byte of an ADDRESS is refused, the low
/// byte stays written.
#[inline(always)]
pub fn write_scalar(
    joined: &Joined,
    placement: &Placement,
    kinds: &ByteKinds,
    memory: &mut Memory,
    scalar: ScalarType,
    address: u16,
    number: u16,
) -> Result<(), Reason>
    requires { AreKindsOf joined.now placement.now kinds.now }
    ensures answer { result ≡ (scalar_written (modules_in joined.now) (placement_view placement.now)
        memory.old scalar address number).answer }
    ensures memory { memory.new ≡ (scalar_written (modules_in joined.now) (placement_view placement.now)
        memory.old scalar address number).memory }
{
    let low = (number % 256) as u8;
    write_byte(joined, placement, kinds, memory, address, low)?;
    match scalar {
        ScalarType::Byte => Ok(()),
        ScalarType::Address => {
            let high = (number / 256) as u8;
            let next = address.wrapping_add(1);
            write_byte(joined, placement, kinds, memory, next, high)
        }
    }
}
