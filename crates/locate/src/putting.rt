//! The runs of segments as pieces of memory, in the order of their addresses.

ghost use Rattle.std.specs.Prelude.{◌≡◌, ◌∷◌, ◌++◌, [], IfOk, OnOk};
ghost use Rattle.object_modules.specs.Image.{gain_at};
ghost use Rattle.locate.specs.Locating.{plan_view};
ghost use Rattle.locate.specs.internal.Putting.{LieInMemory, joined, pieces_from, with_piece, with_pieces};

use crate::walk::moved_bytes;
use mem80::{Bytes, Piece, Plan};
use object_modules::{Fix, Run};
use std::alloc::{AllocError, Global};

// A piece and the bytes of the next as one.
fn whole_of(last: Piece, next: &Piece) -> Result<Piece, AllocError>
    ensures { IfOk result (λ whole.
        whole ≡ record { start = last.start; bytes = last.bytes ++ next.now.bytes }) }
{
    let Piece { start, bytes } = last;
    let mut held = bytes.into_vec();
    held.extend_from_slice(next.bytes.as_slice())?;
    Ok(Piece {
        start,
        bytes: Bytes::from_vec(held),
    })
}

// Puts a piece after two others. The second of them is the last, and becomes one with the piece if they touch.
fn add_after(pieces: &mut Vec<Piece>, last: Piece, next: Piece) -> Result<(), AllocError>
    ensures { OnOk result (pieces.new.items ≡ pieces.old.items ++ joined last next) }
{
    let end = last.start as usize + last.bytes.as_slice().len();
    if end == next.start as usize {
        let whole = whole_of(last, &next)?;
        pieces.push(whole)?;
    } else {
        pieces.push(last)?;
        pieces.push(next)?;
    }
    Ok(())
}

// Puts a piece after others.
#[tactic(auto, using(crate::proofs::Pieces::with_last))]
fn add_piece(pieces: &mut Vec<Piece>, next: Piece) -> Result<(), AllocError>
    ensures { OnOk result (pieces.new.items ≡ with_piece pieces.old.items next) }
{
    match pieces.pop() {
        Some(last) => add_after(pieces, last, next),
        None => {
            pieces.push(next)?;
            Ok(())
        }
    }
}

/// Puts the runs of a segment, from a base on, after other pieces.
pub(crate) fn add_segment(
    alloc: Global,
    pieces: &mut Vec<Piece>,
    base: u16,
    runs: &[Run],
    fixes: &[Fix],
    plan: &Plan,
) -> Result<(), AllocError>
    requires { LieInMemory base runs.now }
    ensures { OnOk result (pieces.new.items ≡ with_pieces pieces.old.items
        (pieces_from (gain_at (plan_view plan.now)) base runs.now fixes.now)) }
{
    let mut rest = runs;
    let mut left = fixes;
    while let [run, more @ ..] = rest {
        let (bytes, after) = moved_bytes(alloc, run, left, plan)?;
        add_piece(
            pieces,
            Piece {
                start: base + run.offset(),
                bytes: Bytes::from_vec(bytes),
            },
        )?;
        left = after;
        rest = more;
    }
    Ok(())
}
