//! The lines of a listing: the bytes of a placed object, with the instructions that they encode.

ghost use Rattle.std.specs.Prelude.{◌≡◌, ◌≤◌, ◌<◌, ◌-◌, ◌*◌, ◌++◌, ◌∷◌, [], All, IfOk, OnOk, codes, length, map, replicate, slice_index, take};
ghost use Rattle.std.specs.List.{flat_map};
ghost use Rattle.isa8080.specs.Code.{first_instruction};
ghost use Rattle.isa8080.specs.Text.{byte_digits, text_of};
ghost use Rattle.locate.specs.Locating.{symbol_view};
ghost use Rattle.mem80.specs.Pieces.{EndsInMemory};
ghost use Rattle.object_commands.specs.Listing.{ListsModule, if_whole, is_named_within, is_whole, label_line, part_line, part_lines, shown_at, shown_text, size_of, start_of};
ghost use Rattle.object_commands.specs.internal.Listed.{ListsPiece, ListsPieces};

use crate::jumps::range_from;
use isa8080::{Instr, decode};
use locate::{Absolute, Symbol};
use mem80::{Piece, Plan, Range};
use object_modules::{ObjectModule, Segment};
use std::alloc::Global;
use std::io;
use std::io::Write;

// Adds the line of a public name, where it lies at this address.
fn put_label(lines: &mut Vec<u8>, symbol: &Symbol, address: u16) -> io::Result<()>
    ensures { OnOk result (lines.new.items ≡ lines.old.items ++ label_line address (symbol_view symbol.now)) }
{
    if symbol.address == address {
        let name = &symbol.name;
        writeln!(lines, "{name}:")?;
    }
    Ok(())
}

// Adds the lines of the public names that lie at an address.
fn put_labels(lines: &mut Vec<u8>, symbols: &[Symbol], address: u16) -> io::Result<()>
    ensures { OnOk result (lines.new.items
        ≡ lines.old.items ++ flat_map (label_line address) (map symbol_view symbols.now)) }
{
    for symbol in symbols {
        put_label(lines, symbol, address)?;
    }
    Ok(())
}

// Adds a byte as two digits.
fn put_digits(lines: &mut Vec<u8>, byte: u8) -> io::Result<()>
    ensures { OnOk result (lines.new.items ≡ lines.old.items ++ byte_digits byte) }
{
    write!(lines, "{byte:02X}")
}

// Adds a byte, with a space after it.
fn put_byte(lines: &mut Vec<u8>, byte: u8) -> io::Result<()>
    ensures { OnOk result (lines.new.items ≡ lines.old.items ++ (byte_digits byte ++ 32 ∷ [])) }
{
    put_digits(lines, byte)?;
    write!(lines, " ")
}

// Adds bytes, with a space after each.
fn put_bytes(lines: &mut Vec<u8>, bytes: &[u8]) -> io::Result<()>
    ensures { OnOk result (lines.new.items
        ≡ lines.old.items ++ flat_map (λ byte. byte_digits byte ++ 32 ∷ []) bytes.now) }
{
    let mut rest = bytes;
    while let [byte, more @ ..] = rest {
        put_byte(lines, *byte)?;
        rest = more;
    }
    Ok(())
}

// The spaces that are left of the room of three bytes.
fn room_left(count: usize) -> &'static str
    requires { count ≤ 3 }
    ensures { result.now ≡ replicate (9 - 3 * count) 32 }
{
    match count {
        0 => "         ",
        1 => "      ",
        2 => "   ",
        _ => "",
    }
}

// Whether a public name lies at one of the `size` addresses from `address` on, other than the first.
fn is_named_within(symbols: &[Symbol], address: u16, size: u16) -> bool
    ensures { result ≡ is_named_within (map symbol_view symbols.now) address size }
{
    let end = address as u32 + size as u32;
    let mut rest = symbols;
    while let [symbol, more @ ..] = rest {
        if address < symbol.address && (symbol.address as u32) < end {
            return true;
        }
        rest = more;
    }
    false
}

// The byte of this number, or 0.
fn byte_at(bytes: &[u8], number: usize) -> u8
    ensures { result ≡ slice_index bytes.now number }
{
    match bytes.get(number) {
        Some(byte) => *byte,
        None => 0,
    }
}

// Whether the first `size` of the `count` bytes that are there can be one instruction.
fn is_whole(symbols: &[Symbol], code: Range, address: u16, count: usize, size: u8) -> bool
    ensures { result ≡ is_whole (map symbol_view symbols.now) code address count size }
{
    let end = address as u64 + size as u64;
    size as usize <= count
        && code.start <= address as u32
        && end <= code.start as u64 + code.len as u64
        && !is_named_within(symbols, address, size as u16)
}

// The instruction that bytes begin with, and its number of bytes. Bytes that are not there are 0.
fn instruction_in(bytes: &[u8]) -> Option<(Instr, u8)>
    ensures { result ≡ first_instruction bytes.now }
{
    decode([byte_at(bytes, 0), byte_at(bytes, 1), byte_at(bytes, 2)])
}

// An instruction, where all its bytes can be one.
fn if_whole(
    symbols: &[Symbol],
    code: Range,
    address: u16,
    count: usize,
    first: Option<(Instr, u8)>,
) -> Option<(Instr, u8)>
    ensures { result ≡ if_whole (map symbol_view symbols.now) code address count first }
{
    let (instr, size) = first?;
    if is_whole(symbols, code, address, count, size) {
        Some((instr, size))
    } else {
        None
    }
}

// What the line at an address shows: an instruction, with its number of bytes, or none.
#[tactic(auto, using(crate::proofs::Listings::shown_by, crate::proofs::Listings::shown_some, crate::proofs::Listings::shown_few, crate::proofs::Listings::shown_there))]
fn shown_at(symbols: &[Symbol], code: Range, address: u16, bytes: &[u8]) -> Option<(Instr, u8)>
    ensures some { 0 < size_of result }
    ensures few { size_of result ≤ 3 }
    ensures there { 0 < length bytes.now → size_of result ≤ length bytes.now }
    ensures shown { result ≡ shown_at (map symbol_view symbols.now) code address bytes.now }
{
    let first = instruction_in(bytes);
    if_whole(symbols, code, address, bytes.len(), first)
}

/// Adds an address and the bytes there.
pub fn put_start(lines: &mut Vec<u8>, address: u16, bytes: &[u8]) -> io::Result<()>
    requires { length bytes.now ≤ 3 }
    ensures { OnOk result (lines.new.items ≡ lines.old.items ++ start_of address bytes.now) }
{
    put_digits(lines, (address / 256) as u8)?;
    put_byte(lines, (address % 256) as u8)?;
    put_bytes(lines, bytes)?;
    let room = room_left(bytes.len());
    write!(lines, "{room} ")
}

// Adds the line of an instruction.
fn put_instruction(lines: &mut Vec<u8>, address: u16, bytes: &[u8], instr: &Instr) -> io::Result<()>
    requires { length bytes.now ≤ 3 }
    ensures { OnOk result (lines.new.items
        ≡ lines.old.items ++ part_line address bytes.now (text_of instr.now)) }
{
    put_start(lines, address, bytes)?;
    writeln!(lines, "{instr}")
}

/// Adds the line of a byte that is shown alone.
pub fn put_lone(lines: &mut Vec<u8>, address: u16, byte: u8) -> io::Result<()>
    ensures { OnOk result (lines.new.items
        ≡ lines.old.items ++ part_line address (byte ∷ []) (codes "DB " ++ byte_digits byte)) }
{
    put_start(lines, address, &[byte])?;
    write!(lines, "DB ")?;
    put_digits(lines, byte)?;
    writeln!(lines)
}

// Adds the line of what begins bytes.
fn put_shown(
    lines: &mut Vec<u8>,
    address: u16,
    bytes: &[u8],
    shown: &Option<(Instr, u8)>,
) -> io::Result<()>
    requires some { 0 < length bytes.now }
    requires there { size_of shown.now ≤ length bytes.now }
    requires few { size_of shown.now ≤ 3 }
    ensures { OnOk result (lines.new.items ≡ lines.old.items
        ++ part_line address (take (size_of shown.now) bytes.now) (shown_text shown.now bytes.now)) }
{
    match shown {
        Some((instr, size)) => put_instruction(lines, address, &bytes[..*size as usize], instr),
        None => put_lone(lines, address, bytes[0]),
    }
}

// How many bytes a line shows.
fn size_of(shown: &Option<(Instr, u8)>) -> u8
    ensures { result ≡ size_of shown.now }
{
    match shown {
        Some((_, size)) => *size,
        None => 1,
    }
}

// Adds the lines of what begins bytes at an address, and answers how many bytes these show.
#[tactic(auto, using(crate::proofs::Listings::part_added))]
fn put_next(
    lines: &mut Vec<u8>,
    symbols: &[Symbol],
    code: Range,
    address: u16,
    bytes: &[u8],
) -> io::Result<u8>
    requires { 0 < length bytes.now }
    ensures some { IfOk result (λ size. 0 < size) }
    ensures there { IfOk result (λ size. size ≤ length bytes.now) }
    ensures size { IfOk result (λ size.
        size ≡ size_of (shown_at (map symbol_view symbols.now) code address bytes.now)) }
    ensures lines { OnOk result (lines.new.items ≡ lines.old.items
        ++ part_lines (map symbol_view symbols.now) address bytes.now
        (shown_at (map symbol_view symbols.now) code address bytes.now)) }
{
    let shown = shown_at(symbols, code, address, bytes);
    put_labels(lines, symbols, address)?;
    put_shown(lines, address, bytes, &shown)?;
    Ok(size_of(&shown))
}

// Adds the lines of a piece.
fn put_piece(lines: &mut Vec<u8>, symbols: &[Symbol], code: Range, piece: &Piece) -> io::Result<()>
    requires { EndsInMemory piece.now }
    ensures { OnOk result
        (ListsPiece (map symbol_view symbols.now) code piece.now lines.old.items lines.new.items) }
{
    let mut rest = piece.bytes.as_slice();
    let mut address = piece.start as u32;
    while let [_, ..] = rest {
        let size = put_next(lines, symbols, code, address as u16, rest)?;
        address += size as u32;
        rest = &rest[size as usize..];
    }
    Ok(())
}

// Adds the lines of pieces.
fn put_pieces(
    lines: &mut Vec<u8>,
    symbols: &[Symbol],
    code: Range,
    pieces: &[Piece],
) -> io::Result<()>
    requires { All EndsInMemory pieces.now }
    ensures { OnOk result
        (ListsPieces (map symbol_view symbols.now) code pieces.now lines.old.items lines.new.items) }
{
    for piece in pieces {
        put_piece(lines, symbols, code, piece)?;
    }
    Ok(())
}

/// The lines of an object that was placed by a plan. Only memory can fail them.
#[tactic(auto, using(crate::proofs::Listings::module_listed))]
pub(crate) fn listing_of(
    alloc: Global,
    object: &ObjectModule,
    absolute: &Absolute,
    plan: &Plan,
) -> io::Result<Vec<u8>>
    ensures { IfOk result (λ lines. ListsModule plan.now object.now absolute.now lines.items) }
{
    let code = range_from(plan.code, object.length(Segment::Code));
    let mut lines = Vec::new(alloc);
    put_pieces(&mut lines, absolute.symbols(), code, absolute.pieces())?;
    Ok(lines)
}
