//! Numbers of what a module declares, from 0.

ghost use Rattle.std.specs.Prelude.{◌≡◌, ◌+◌, IfOk, OnErr};

use std::alloc::AllocError;

/// The number after this one. Fails only after the greatest number of 32 bits, which no source reaches.
pub fn next_number(number: u32) -> Result<u32, AllocError>
    ensures ok { IfOk result (λ next. next ≡ number + 1) }
    ensures err { OnErr result (number ≡ 4294967295) }
{
    match number.checked_add(1) {
        Some(next) => Ok(next),
        // The last number of 32 bits is in use.
        None => Err(AllocError),
    }
}
