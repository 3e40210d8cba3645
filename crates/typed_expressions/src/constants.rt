//! Constants and the numbers that they stand for.

ghost use Rattle.std.specs.Prelude.{◌≡◌, ◌++◌, map, IfOk};
ghost use Rattle.trees.specs.internal.Views.{constant_tree, offset_tree};
ghost use Rattle.typing.specs.Constants.{place_of_constant as place_in_constant, moved_by as sum_moved_by, number_of_characters as characters_number, bytes_of_constant, bytes_of_constants as list_bytes, bytes_of_number};
ghost use Rattle.typing.specs.internal.ConstantChecks.{number_of_constant as constant_number, with_offsets as sum_with_offsets};
ghost use Rattle.typing.specs.internal.Results.{Answers};

use crate::checks::refuse;
use failure::Failure;
use std::alloc::{AllocError, Global};
use trees::{Constant, Offset, Place, Sign};
use typing::{Cause, Fault};

/// The number that a string of one or two characters stands for, the first character high.
pub(crate) fn number_of_characters(characters: &[u8]) -> Option<u16>
    ensures { result ≡ characters_number characters.now }
{
    match characters {
        [character] => Some(u16::from(*character)),
        [high, low] => Some(256 * u16::from(*high) + u16::from(*low)),
        _ => None,
    }
}

/// The number that a constant is. A string that is empty or has more than two characters is not a number.
pub(crate) fn number_of_constant(constant: &Constant) -> Result<u16, Failure<Fault>>
    ensures { Answers (λ number. number) result (constant_number (constant_tree constant.now)) }
{
    match constant {
        Constant::Number(number) => Ok(number.value),
        Constant::String(string) => match number_of_characters(string.characters.as_slice()) {
            Some(number) => Ok(number),
            None => Err(refuse(Cause::StringNotNumber, string.place)),
        },
    }
}

// A number added to a sum, or subtracted from it, modulo 65536.
fn moved_by(sum: u16, sign: Sign, number: u16) -> u16
    ensures { result ≡ sum_moved_by sum sign number }
{
    match sign {
        Sign::Plus => sum.wrapping_add(number),
        Sign::Minus => sum.wrapping_sub(number),
    }
}

/// A number with constants added to it and subtracted from it, from the left.
pub(crate) fn with_offsets(sum: u16, offsets: &[Offset]) -> Result<u16, Failure<Fault>>
    ensures { Answers (λ number. number) result (sum_with_offsets sum (map offset_tree offsets.now)) }
{
    let mut sum = sum;
    for offset in offsets {
        let number = number_of_constant(&offset.constant)?;
        sum = moved_by(sum, offset.sign, number);
    }
    Ok(sum)
}

/// The place of a constant.
pub(crate) fn place_of_constant(constant: &Constant) -> Place
    ensures { result ≡ place_in_constant (constant_tree constant.now) }
{
    match constant {
        Constant::Number(number) => number.place,
        Constant::String(string) => string.place,
    }
}

// Adds the bytes of a number to others: one up to 255, else two, the low one first.
fn push_number(bytes: &mut Vec<u8>, number: u16) -> Result<(), AllocError>
    ensures { IfOk result (λ _. bytes.new.items ≡ bytes.old.items ++ bytes_of_number number) }
{
    if number <= 255 {
        bytes.push(number as u8)?;
    } else {
        bytes.push((number % 256) as u8)?;
        bytes.push((number / 256) as u8)?;
    }
    Ok(())
}

// Adds the bytes of a constant to others.
fn push_constant(bytes: &mut Vec<u8>, constant: &Constant) -> Result<(), AllocError>
    ensures { IfOk result (λ _. bytes.new.items ≡ bytes.old.items
        ++ bytes_of_constant (constant_tree constant.now)) }
{
    match constant {
        Constant::Number(number) => push_number(bytes, number.value),
        Constant::String(string) => {
            bytes.extend_from_slice(string.characters.as_slice())?;
            Ok(())
        }
    }
}

/// The bytes of the constants of a list.
pub(crate) fn bytes_of_constants(alloc: Global, list: &[Constant]) -> Result<Vec<u8>, AllocError>
    ensures { IfOk result (λ made. made.items ≡ list_bytes (map constant_tree list.now)) }
{
    let mut bytes = Vec::new(alloc);
    for constant in list {
        push_constant(&mut bytes, constant)?;
    }
    Ok(bytes)
}
