//! Each operation of the arithmetic unit.

ghost use Rattle.std.specs.Prelude.{◌≡◌, ◌+◌, false};
ghost use Rattle.isa8080.specs.State.{carries, wrap};
ghost use Rattle.isa8080.specs.Arithmetic.{add_of, subtract_of, and_of, xor_of, or_of, increment_of, decrement_of, rotate_left_of, rotate_right_of, rotate_left_carry_of, rotate_right_carry_of, decimal_adjust_of};

use crate::bits::ConditionBits;

/// ADD, ADC: the sum of two bytes and a carry.
#[inline(always)]
pub fn add<F: ConditionBits>(x: u8, y: u8, carry: bool) -> (u8, F)
    ensures value { result.0 ≡ (add_of x y carry).value }
    ensures flags { F.flags result.1 ≡ (add_of x y carry).flags }
{
    let sum = x as u16 + y as u16 + carry as u16;
    let digit_sum = x % 16 + y % 16 + carry as u8;
    let value = (sum % 256) as u8;
    (value, F::of_result(value, digit_sum, sum >= 256))
}

/// SUB, SBB: the difference of two bytes and a borrow, which is the sum with the complement.
#[inline(always)]
pub fn subtract<F: ConditionBits>(x: u8, y: u8, borrow: bool) -> (u8, F)
    ensures value { result.0 ≡ (subtract_of x y borrow).value }
    ensures flags { F.flags result.1 ≡ (subtract_of x y borrow).flags }
{
    let complement = 255 - y;
    let sum = x as u16 + complement as u16 + !borrow as u16;
    let digit_sum = x % 16 + complement % 16 + !borrow as u8;
    let value = (sum % 256) as u8;
    (value, F::of_result(value, digit_sum, sum < 256))
}

/// CMP: the condition bits of a difference. Zero says that the bytes are equal, and the carry that the first
/// is less.
#[inline(always)]
pub fn compare<F: ConditionBits>(x: u8, y: u8) -> F
    ensures { F.flags result ≡ (subtract_of x y false).flags }
{
    let (_, flags) = subtract(x, y, false);
    flags
}

/// ANA: the bits that both bytes have.
#[inline(always)]
pub fn and<F: ConditionBits>(x: u8, y: u8) -> (u8, F)
    ensures value { result.0 ≡ (and_of x y).value }
    ensures flags { F.flags result.1 ≡ (and_of x y).flags }
{
    let value = x & y;
    let digit_sum = x / 8 % 2 * 16 + y / 8 % 2 * 16;
    (value, F::of_result(value, digit_sum, false))
}

/// XRA: the bits that one byte has and the other has not.
#[inline(always)]
pub fn xor<F: ConditionBits>(x: u8, y: u8) -> (u8, F)
    ensures value { result.0 ≡ (xor_of x y).value }
    ensures flags { F.flags result.1 ≡ (xor_of x y).flags }
{
    let value = x ^ y;
    (value, F::of_result(value, 0, false))
}

/// ORA: the bits that either byte has.
#[inline(always)]
pub fn or<F: ConditionBits>(x: u8, y: u8) -> (u8, F)
    ensures value { result.0 ≡ (or_of x y).value }
    ensures flags { F.flags result.1 ≡ (or_of x y).flags }
{
    let value = x | y;
    (value, F::of_result(value, 0, false))
}

/// INR: counts up, 0 after 255. CY stays, so that a counter does not disturb a sum of several bytes.
#[inline(always)]
pub fn increment<F: ConditionBits>(x: u8, flags: &mut F) -> u8
    ensures value { result ≡ (increment_of x (F.flags flags.old)).value }
    ensures flags { F.flags flags.new ≡ (increment_of x (F.flags flags.old)).flags }
{
    let value = ((x as u16 + 1) % 256) as u8;
    *flags = F::of_result(value, x % 16 + 1, flags.cy());
    value
}

/// DCR: counts down, 255 after 0. CY stays.
#[inline(always)]
pub fn decrement<F: ConditionBits>(x: u8, flags: &mut F) -> u8
    ensures value { result ≡ (decrement_of x (F.flags flags.old)).value }
    ensures flags { F.flags flags.new ≡ (decrement_of x (F.flags flags.old)).flags }
{
    let value = ((x as u16 + 254 + 1) % 256) as u8;
    *flags = F::of_result(value, x % 16 + 14 + 1, flags.cy());
    value
}

/// RLC: rotates the bits one place to the left, bit 7 to bit 0 and to CY.
#[inline(always)]
pub fn rotate_left<F: ConditionBits>(x: u8, flags: &mut F) -> u8
    ensures value { result ≡ (rotate_left_of x (F.flags flags.old)).value }
    ensures flags { F.flags flags.new ≡ (rotate_left_of x (F.flags flags.old)).flags }
{
    flags.set_cy(x >= 128);
    (x as u16 * 2 % 256) as u8 + x / 128
}

/// RRC: rotates the bits one place to the right, bit 0 to bit 7 and to CY.
#[inline(always)]
pub fn rotate_right<F: ConditionBits>(x: u8, flags: &mut F) -> u8
    ensures value { result ≡ (rotate_right_of x (F.flags flags.old)).value }
    ensures flags { F.flags flags.new ≡ (rotate_right_of x (F.flags flags.old)).flags }
{
    flags.set_cy(x % 2 == 1);
    x / 2 + 128 * (x % 2)
}

/// RAL: rotates nine bits to the left, bit 7 to CY and CY to bit 0.
#[inline(always)]
pub fn rotate_left_carry<F: ConditionBits>(x: u8, flags: &mut F) -> u8
    ensures value { result ≡ (rotate_left_carry_of x (F.flags flags.old)).value }
    ensures flags { F.flags flags.new ≡ (rotate_left_carry_of x (F.flags flags.old)).flags }
{
    let carry = flags.cy() as u8;
    flags.set_cy(x >= 128);
    (x as u16 * 2 % 256) as u8 + carry
}

/// RAR: rotates nine bits to the right, bit 0 to CY and CY to bit 7.
#[inline(always)]
pub fn rotate_right_carry<F: ConditionBits>(x: u8, flags: &mut F) -> u8
    ensures value { result ≡ (rotate_right_carry_of x (F.flags flags.old)).value }
    ensures flags { F.flags flags.new ≡ (rotate_right_carry_of x (F.flags flags.old)).flags }
{
    let carry = flags.cy() as u8;
    flags.set_cy(x % 2 == 1);
    x / 2 + 128 * carry
}

/// DAA: adjusts a byte after an addition of packed decimal digits, two to a byte, so that it holds the digits
/// of their sum. The carry then counts hundreds.
pub fn decimal_adjust<F: ConditionBits>(x: u8, flags: &mut F) -> u8
    ensures value { result ≡ (decimal_adjust_of x (F.flags flags.old)).value }
    ensures flags { F.flags flags.new ≡ (decimal_adjust_of x (F.flags flags.old)).flags }
{
    let low = if x % 16 > 9 || flags.ac() { 6 } else { 0 };
    let high = x > 153 || flags.cy();
    let value = ((x as u16 + low as u16 + 96 * high as u16) % 256) as u8;
    *flags = F::of_result(value, x % 16 + low, high);
    value
}

/// DAD: the sum of two 16-bit values, and whether it went past 16 bits.
#[inline(always)]
pub fn double_add(x: u16, y: u16) -> (u16, bool)
    ensures value { result.0 ≡ wrap (x + y) }
    ensures carry { result.1 ≡ carries (x + y) }
{
    x.overflowing_add(y)
}
