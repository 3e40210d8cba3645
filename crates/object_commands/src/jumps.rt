//! Jumps to the start of an object that is placed.

ghost use Rattle.std.specs.Prelude.{◌≡◌, ◌||◌, IfOk, None, Some, option_map};
ghost use Rattle.mem80.specs.Pieces.{AreWritable};
ghost use Rattle.mem80.specs.Range.{ranges_meet};
ghost use Rattle.isa8080.specs.Code.{bytes_of};
ghost use Rattle.object_modules.specs.Image.{passes_memory, range_at};
ghost use Rattle.locate.specs.Locating.{refusal_of};
ghost use Rattle.object_commands.specs.Placing.{jump_meets, jump_piece, jump_range, jump_refusal, pieces_with};
ghost use Rattle.object_commands.specs.internal.Rooms.{LeavesRoom};

use isa8080::{Instr, encode};
use locate::{Absolute, LocateFault};
use mem80::{Bytes, MEMORY_SIZE, Piece, Plan, Range, overlap};
use object_modules::{ObjectModule, Segment};
use std::alloc::{AllocError, Global};

/// How many bytes a jump has.
pub const JUMP_SIZE: u16 = 3;

/// The `size` addresses from `base` on.
pub(crate) fn range_from(base: u16, size: u16) -> Range
    ensures { result ≡ range_at base size }
{
    Range {
        start: base as u32,
        len: size as u32,
    }
}

// Whether a range has an address in common with the `size` addresses from `base` on.
fn meets(range: Range, base: u16, size: u16) -> bool
    ensures { result ≡ ranges_meet range (range_at base size) }
{
    let other = range_from(base, size);
    overlap(&range, &other)
}

// Whether a jump has an address in common with the code, the data or the stack.
fn jump_meets(object: &ObjectModule, plan: &Plan, address: u16) -> bool
    ensures { result ≡ jump_meets plan.now object.now address }
{
    let jump = range_from(address, JUMP_SIZE);
    meets(jump, plan.code, object.length(Segment::Code))
        || meets(jump, plan.data_base, object.length(Segment::Data))
        || meets(jump, plan.stack, plan.stack_size)
}

// Whether a jump passes the end of memory.
fn jump_passes(address: u16) -> bool
    ensures { result ≡ passes_memory (jump_range address) }
{
    address as usize + JUMP_SIZE as usize > MEMORY_SIZE
}

/// Why there is no room for a jump beside an object that is placed by a plan, where one is wanted.
#[tactic(auto, using(crate::proofs::Rooms::nothing_wrong, crate::proofs::Rooms::passes_first, crate::proofs::Rooms::meets_next))]
pub(crate) fn refusal_of_jump(
    object: &ObjectModule,
    plan: &Plan,
    jump: Option<u16>,
) -> Option<LocateFault>
    ensures { option_map refusal_of result ≡ jump_refusal plan.now object.now jump }
{
    let address = jump?;
    if jump_passes(address) {
        return Some(LocateFault::PassesMemory);
    }
    if jump_meets(object, plan, address) {
        return Some(LocateFault::SegmentsMeet);
    }
    None
}

// A jump at an address to where an object starts.
#[tactic(auto, using(crate::proofs::Rooms::jump_bytes))]
fn jump_to(alloc: Global, address: u16, start: u16) -> Result<Piece, AllocError>
    ensures { IfOk result (λ piece. piece ≡ jump_piece address start) }
{
    let (code, _) = encode(Instr::Jmp(start));
    let bytes = Vec::from_slice(alloc, &code)?;
    Ok(Piece {
        start: address,
        bytes: Bytes::from_vec(bytes),
    })
}

// The same bytes at the same address.
fn copy_of(alloc: Global, piece: &Piece) -> Result<Piece, AllocError>
    ensures { IfOk result (λ copy. copy ≡ piece.now) }
{
    let bytes = Vec::from_slice(alloc, piece.bytes.as_slice())?;
    Ok(Piece {
        start: piece.start,
        bytes: Bytes::from_vec(bytes),
    })
}

/// The pieces of an object that is placed, after that of a jump at an address to its start.
pub(crate) fn pieces_with_jump(
    alloc: Global,
    absolute: &Absolute,
    address: u16,
) -> Result<Vec<Piece>, AllocError>
    requires { LeavesRoom (Some address) absolute.now }
    ensures pieces { IfOk result (λ pieces. pieces.items ≡ pieces_with (Some address) absolute.now) }
    ensures writable { IfOk result (λ pieces. AreWritable pieces.items) }
{
    let placed = absolute.pieces();
    let mut pieces = Vec::new(alloc);
    let jump = jump_to(alloc, address, absolute.start())?;
    pieces.push(jump)?;
    for piece in placed {
        let copy = copy_of(alloc, piece)?;
        pieces.push(copy)?;
    }
    Ok(pieces)
}
