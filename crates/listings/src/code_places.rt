//! Addresses of places in the code of a module.

ghost use Rattle.std.specs.Prelude.{◌≡◌};
ghost use Rattle.listings.specs.Names.{code_address};

/// The address of a place of code that begins at an address.
pub(crate) fn address_of(code_base: u32, place: u32) -> u16
    ensures { result ≡ code_address code_base place }
{
    ((code_base as u64 + place as u64) % 65_536) as u16
}
