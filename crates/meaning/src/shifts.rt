//! Shifts and rotations of values.

ghost use Rattle.std.specs.Prelude.{◌≡◌, ◌*◌, ◌/◌, ◌%◌, ◌^◌, ◌<◌};
ghost use Rattle.meaning.specs.Values.{shifted, turned, values_of};

use crate::operators::wrapped;
use trees::ScalarType;
use typed_trees::ShiftFunction;

/// A value of a type shifted by a count, which is 0 by as many bits as it has or more; or its low byte turned.
#[inline(always)]
pub fn shift(scalar: ScalarType, function: ShiftFunction, number: u16, count: u16) -> u16
    ensures { result ≡ shifted scalar function number count }
{
    match function {
        ShiftFunction::ShiftLeft => shift_left(scalar, number, count),
        ShiftFunction::ShiftRight => shift_right(number, count),
        ShiftFunction::RotateLeft => turn(number % 256, count % 8),
        ShiftFunction::RotateRight => turn(number % 256, (8 - count % 8) % 8),
    }
}

#[inline(always)]
#[tactic(auto, using(crate::proofs::Powers::left_far, crate::proofs::Powers::left_near))]
fn shift_left(scalar: ScalarType, number: u16, count: u16) -> u16
    ensures { result ≡ (number * 2 ^ count) % values_of scalar }
{
    if count >= 16 {
        0
    } else {
        wrapped(scalar, (number as u32) << count)
    }
}

#[inline(always)]
#[tactic(auto, using(crate::proofs::Powers::right_far))]
fn shift_right(number: u16, count: u16) -> u16
    ensures { result ≡ number / 2 ^ count }
{
    if count >= 16 { 0 } else { number >> count }
}

// A byte turned to the left by a count below 8.
#[inline(always)]
#[tactic(auto, using(crate::proofs::Powers::turned_near))]
fn turn(byte: u16, count: u16) -> u16
    requires byte { byte < 256 }
    requires count { count < 8 }
    ensures { result ≡ turned byte count }
{
    let moved = byte << count;
    moved % 256 + moved / 256
}
