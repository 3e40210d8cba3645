//! The bytes of an image, by their addresses.

ghost use Rattle.std.specs.Prelude.{◌≡◌, ◌+◌, ◌≤◌, IfSome, IsSomeAnd, length, take, unwrap_or};
ghost use Rattle.isa8080.specs.Code.{bytes_of};
ghost use Rattle.isa8080.specs.declared.instr.Instr.{Instr};
ghost use Rattle.listings.specs.Listing.{AllThere, byte_among, byte_in, byte_of_piece};
ghost use Rattle.listings.specs.internal.Reading.{IsCoded, IsCodedAt, are_there, is_byte};

use isa8080::{Instr, decode, encode};
use mem80::{MEMORY_SIZE, Piece};

// The byte of a piece at an address, if it has one there.
fn byte_of_piece(piece: &Piece, address: u64) -> Option<u8>
    ensures { result ≡ byte_of_piece piece.now address }
{
    let start = piece.start as u64;
    if address < start {
        return None;
    }
    piece
        .bytes
        .as_slice()
        .get((address - start) as usize)
        .copied()
}

// The byte of pieces at an address, if one of them has one there.
fn byte_among(pieces: &[Piece], address: u64) -> Option<u8>
    ensures { result ≡ byte_among pieces.now address }
{
    let mut rest = pieces;
    while let [piece, more @ ..] = rest {
        if let Some(byte) = byte_of_piece(piece, address) {
            return Some(byte);
        }
        rest = more;
    }
    None
}

/// The byte at an address of the memory, if there is one.
#[tactic(auto, unfolding(crate::specs::Listing::byte_in))]
pub(crate) fn byte_at(pieces: &[Piece], address: u64) -> Option<u8>
    ensures { result ≡ byte_in pieces.now address }
{
    if address < MEMORY_SIZE as u64 {
        byte_among(pieces, address)
    } else {
        None
    }
}

/// An instruction, its bytes, and how many they are; the places after them are 0.
#[derive(Clone, Copy)]
pub(crate) struct Coded {
    pub(crate) instr: Instr,
    pub(crate) bytes: [u8; 3],
    pub(crate) size: u8,
}

// Whether the byte at an address is this one.
fn is_there(pieces: &[Piece], address: u64, byte: u8) -> bool
    ensures { result ≡ is_byte (byte_in pieces.now address) byte }
{
    match byte_at(pieces, address) {
        Some(there) => there == byte,
        None => false,
    }
}

// Whether the bytes of an instruction lie at an address.
fn are_there(pieces: &[Piece], address: u64, code: Coded) -> bool
    requires { address ≤ 8589934592 }
    ensures { result ≡ are_there pieces.now address code.bytes code.size }
{
    is_there(pieces, address, code.bytes[0])
        && ((code.size < 2 || is_there(pieces, address + 1, code.bytes[1]))
            && (code.size < 3 || is_there(pieces, address + 2, code.bytes[2])))
}

// The byte at an address of the memory, or 0.
fn byte_or_0(pieces: &[Piece], address: u64) -> u8
    ensures { result ≡ unwrap_or (byte_in pieces.now address) 0 }
{
    byte_at(pieces, address).unwrap_or(0)
}

// The bytes of an instruction.
#[tactic(auto, using(crate::proofs::Codes::bytes_taken))]
fn coded_of(instr: Instr) -> Coded
    ensures instr { result.instr ≡ instr }
    ensures three { length result.bytes ≡ 3 }
    ensures some { 1 ≤ result.size }
    ensures few { result.size ≤ 3 }
    ensures sized { result.size ≡ length (bytes_of instr) }
    ensures bytes { take result.size result.bytes ≡ bytes_of instr }
{
    let (bytes, size) = encode(instr);
    Coded { instr, bytes, size }
}

// The instruction that the bytes at an address begin with, if those that are not there were 0.
#[tactic(auto, using(crate::proofs::Codes::code_of, crate::proofs::Codes::code_read))]
fn decoded_at(pieces: &[Piece], address: u64) -> Option<Coded>
    requires { address ≤ 8589934592 }
    ensures code { IfSome result IsCoded }
    ensures whole { (i : Instr) → AllThere pieces.now address (bytes_of i)
        → IsSomeAnd result (λ code. code.instr ≡ i) }
{
    let first = byte_or_0(pieces, address);
    let second = byte_or_0(pieces, address + 1);
    let third = byte_or_0(pieces, address + 2);
    let (instr, _) = decode([first, second, third])?;
    Some(coded_of(instr))
}

/// The instruction that the bytes at an address encode, if they are all there.
#[tactic(auto, using(crate::proofs::Codes::coded_at))]
pub(crate) fn instruction_at(pieces: &[Piece], address: u64) -> Option<Coded>
    requires { address ≤ 8589934592 }
    ensures code { IfSome result (IsCodedAt pieces.now address) }
    ensures whole { (i : Instr) → AllThere pieces.now address (bytes_of i)
        → IsSomeAnd result (λ code. code.instr ≡ i) }
{
    let code = decoded_at(pieces, address)?;
    if are_there(pieces, address, code) {
        Some(code)
    } else {
        None
    }
}
