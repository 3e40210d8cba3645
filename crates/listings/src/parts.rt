//! What is shown of the bytes of a module, part by part.

ghost use Rattle.std.specs.Prelude.{◌≡◌, ℕ, ◌∷◌, ◌++◌, [], ◌+◌, ◌-◌, ◌<◌, ◌≤◌, IfSome, None, OnOk, Some, option_to_list, take};
ghost use Rattle.object_modules.specs.Module.{is_both};
ghost use Rattle.listings.specs.Listing.{cells_in, has_names, is_address_at};
ghost use Rattle.listings.specs.internal.Parts.{AddsParts, IsByteAt, IsCodeIn, IsLone, IsNoCode, IsPartOf, StepsOver, room_of};

use crate::image::{Coded, byte_at, instruction_at};
use crate::marked::{MarkedLine, line_at};
use isa8080::Instr;
use mem80::Piece;
use object_modules::{Fix, FixKind, Segment, Target};
use std::alloc::AllocError;
use tool::SourceMark;

/// What is shown of an address, below a line of the source: an instruction, and whether the word that it ends in is an address
/// that may have a name; or one byte.
#[derive(Clone, Copy)]
pub(crate) struct Part {
    pub(crate) line: u32,
    pub(crate) address: u16,
    pub(crate) bytes: [u8; 3],
    pub(crate) size: u8,
    pub(crate) instr: Option<Instr>,
    pub(crate) is_address: bool,
}

/// The code segment of a module: the address where it begins, how many bytes it has, how many bytes of constants come first,
/// and its fixes.
#[derive(Clone, Copy)]
pub(crate) struct CodeSegment<'a> {
    pub(crate) start: u32,
    pub(crate) length: u32,
    pub(crate) constants: u32,
    pub(crate) fixes: &'a [Fix],
}

// Whether something at a target may have a name: code, data or what an EXTERNAL name stands for, and not the stack.
fn has_names(target: Target) -> bool
    ensures { result ≡ has_names target }
{
    match target {
        Target::InSegment(Segment::Code) | Target::InSegment(Segment::Data) => true,
        Target::InSegment(Segment::Absolute) | Target::InSegment(Segment::Stack) => false,
        Target::External(_) => true,
    }
}

// Whether a fix is one of both bytes of an address.
fn is_both(kind: FixKind) -> bool
    ensures { result ≡ is_both kind }
{
    matches!(kind, FixKind::Both)
}

// Whether the word at a place of a segment with these fixes is an address that may have a name.
fn is_address_at(fixes: &[Fix], place: u64) -> bool
    ensures { result ≡ is_address_at fixes.now place }
{
    let mut rest = fixes;
    while let [fix, more @ ..] = rest {
        if fix.offset as u64 == place {
            return is_both(fix.kind) && has_names(fix.target);
        }
        rest = more;
    }
    false
}

// The part that shows one byte.
fn alone(line: u32, address: u16, byte: u8) -> Part
    ensures address { result.address ≡ address }
    ensures size { result.size ≡ 1 }
    ensures line { result.line ≡ line }
    ensures instr { result.instr ≡ None }
    ensures bytes { take 1 result.bytes ≡ byte ∷ [] }
{
    Part {
        line,
        address,
        bytes: [byte, 0, 0],
        size: 1,
        instr: None,
        is_address: false,
    }
}

// The part that shows an instruction at an offset of a code segment.
fn instruction_part(
    line: u32,
    address: u16,
    segment: CodeSegment<'_>,
    offset: u32,
    code: Coded,
) -> Part
    ensures address { result.address ≡ address }
    ensures size { result.size ≡ code.size }
    ensures bytes { result.bytes ≡ code.bytes }
    ensures instr { result.instr ≡ Some code.instr }
    ensures named { result.is_address ≡ is_address_at segment.entry.fixes.now (offset + 1) }
{
    let bytes = code.bytes;
    Part {
        line,
        address,
        bytes,
        size: code.size,
        instr: Some(code.instr),
        is_address: is_address_at(segment.fixes, offset as u64 + 1),
    }
}

// What is shown of an address where bytes stand alone, if one is there.
#[tactic(auto, using(crate::proofs::Stepping::steps_by_byte, crate::proofs::Stepping::steps_nowhere, crate::proofs::Stepping::byte_shown))]
fn byte_part(pieces: &[Piece], line: u32, address: u64) -> Option<Part>
    ensures steps { (room : ℕ) → 0 < room → StepsOver pieces.now address room result }
    ensures one { room_of result ≡ 1 }
    ensures lone { IfSome result (IsByteAt line address) }
{
    match byte_at(pieces, address) {
        Some(byte) => Some(alone(line, (address % 65_536) as u16, byte)),
        None => None,
    }
}

// The instruction at an offset of a code segment, unless a constant lies there.
#[tactic(auto, using(crate::proofs::Codes::code_found, crate::proofs::Codes::constant_there, crate::proofs::Codes::code_missing, crate::proofs::Codes::code_too_long))]
fn code_in(pieces: &[Piece], segment: CodeSegment<'_>, offset: u32) -> Option<Coded>
    requires { offset < segment.length }
    ensures some { IfSome result (IsCodeIn pieces.now segment.entry offset) }
    ensures none { result ≡ None → IsNoCode pieces.now segment.entry offset }
{
    if offset < segment.constants {
        return None;
    }
    let code = instruction_at(pieces, segment.start as u64 + offset as u64)?;
    if code.size as u32 <= segment.length - offset {
        Some(code)
    } else {
        None
    }
}

// What is shown of an offset of a code segment, if a byte is there: an instruction or the byte.
#[tactic(auto, using(crate::proofs::Stepping::code_steps, crate::proofs::Stepping::code_part, crate::proofs::Stepping::byte_parts))]
fn part_at(pieces: &[Piece], segment: CodeSegment<'_>, line: u32, offset: u32) -> Option<Part>
    requires within { offset < segment.length }
    requires beside { offset < segment.constants → line ≡ 0 }
    ensures steps { StepsOver pieces.now (segment.entry.start + offset) (segment.entry.length - offset) result }
    ensures some { 0 < room_of result }
    ensures within { room_of result ≤ segment.entry.length - offset }
    ensures part { IfSome result (IsPartOf pieces.now segment.entry) }
{
    let address = segment.start as u64 + offset as u64;
    match code_in(pieces, segment, offset) {
        Some(code) => {
            let place = (address % 65_536) as u16;
            Some(instruction_part(line, place, segment, offset, code))
        }
        None => byte_part(pieces, line, address),
    }
}

// How many places a part takes, if there is one.
fn room_of(part: &Option<Part>) -> u32
    ensures { result ≡ room_of part.now }
{
    match part {
        Some(part) => part.size as u32,
        None => 1,
    }
}

// Adds a part, if there is one.
fn push_if(parts: &mut Vec<Part>, part: Option<Part>) -> Result<(), AllocError>
    ensures { OnOk result (parts.new.items ≡ parts.old.items ++ option_to_list part) }
{
    if let Some(part) = part {
        parts.push(part)?;
    }
    Ok(())
}

/// Adds the parts of a code segment, by rising addresses: its constants byte by byte, and then what its bytes encode. The marks
/// say where the code of a line begins.
#[tactic(auto, using(crate::proofs::Stepping::places_begin, crate::proofs::Stepping::code_goes_on, crate::proofs::Stepping::places_end))]
pub(crate) fn push_code(
    parts: &mut Vec<Part>,
    pieces: &[Piece],
    segment: CodeSegment<'_>,
    marks: &[SourceMark],
) -> Result<(), AllocError>
    ensures { OnOk result (AddsParts (IsPartOf pieces.now segment.entry)
        (cells_in pieces.now segment.entry.start segment.entry.length) parts.old.items parts.new.items) }
{
    let mut known = MarkedLine {
        line: 0,
        after: marks,
    };
    let mut offset: u32 = 0;
    while offset < segment.length {
        known = line_at(known, offset, segment.constants);
        let part = part_at(pieces, segment, known.line, offset);
        push_if(parts, part)?;
        offset += room_of(&part);
    }
    Ok(())
}

/// Adds parts of one byte each for the `count` addresses from `start` on, as far as bytes are there.
#[tactic(auto, using(crate::proofs::Stepping::places_begin, crate::proofs::Stepping::bytes_go_on, crate::proofs::Stepping::places_end))]
pub(crate) fn push_bytes(
    parts: &mut Vec<Part>,
    pieces: &[Piece],
    start: u32,
    count: u32,
) -> Result<(), AllocError>
    ensures { OnOk result (AddsParts IsLone (cells_in pieces.now start count) parts.old.items parts.new.items) }
{
    for index in 0..count {
        let part = byte_part(pieces, 0, start as u64 + index as u64);
        push_if(parts, part)?;
    }
    Ok(())
}
