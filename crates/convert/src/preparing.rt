//! What of a file is the source.

ghost use Rattle.std.specs.Prelude.{◌≡◌, ◌++◌, map, true, IfOk};
ghost use Rattle.convert.specs.Comments.{comment_notes};
ghost use Rattle.convert.specs.Lines.{plain};
ghost use Rattle.convert.specs.Listings.{listed_text, listing_notes_from};
ghost use Rattle.convert.specs.Preparing.{from_listing, loses_lines, notes_of_ends, notes_of_listing, prepared, prepared_notes};

use crate::advice::Advice;
use crate::assembly::PlacedNote;
use crate::cards::carded;
use crate::comments::note_comments;
use crate::lines::{is_control, is_unbroken, lines_of, plain};
use crate::listings::{join_listed, note_listing, tell};
use std::alloc::{AllocError, Global};

/// How a file holds its source.
#[derive(Clone, Copy)]
pub struct Medium {
    /// As a listing, which a compiler printed.
    pub listing: bool,
    /// On cards, which have numbers after column 72.
    pub cards: bool,
}

/// The source of a file, and what is told of lines that are none of a listing.
#[derive(Drop)]
pub struct Prepared {
    pub text: Vec<u8>,
    pub notes: Vec<PlacedNote>,
}

/// The source of a file: that of a listing, and then what is in the columns of cards.
pub fn prepare(
    alloc: Global,
    advice: &Advice,
    medium: Medium,
    file: &[u8],
) -> Result<Prepared, AllocError>
    ensures text { IfOk result (λ made. made.text.items ≡ prepared medium file.now) }
    ensures notes { IfOk result (λ made. made.notes.items ≡ prepared_notes advice.now medium file.now) }
{
    let mut made = from_medium(alloc, advice, medium, file)?;
    let text = plain(alloc, file)?;
    note_ends(advice, medium, text.as_slice(), &mut made.notes)?;
    note_source(alloc, advice, &mut made)?;
    Ok(made)
}

// Adds what is told of comments in a source.
fn note_source(alloc: Global, advice: &Advice, source: &mut Prepared) -> Result<(), AllocError>
    ensures text { IfOk result (λ _. source.new.text ≡ source.old.text) }
    ensures notes { IfOk result (λ _. source.new.notes.items
        ≡ source.old.notes.items ++ comment_notes advice.now 0 (plain source.old.text.items)) }
{
    let text = plain(alloc, source.text.as_slice())?;
    note_comments(alloc, advice, 0, text.as_slice(), &mut source.notes)
}

// Whether what a file holds would be lost after its first line.
fn loses_lines(medium: Medium, text: &[u8]) -> bool
    ensures { result ≡ loses_lines medium text.now }
{
    is_control(text) || medium.listing || medium.cards
}

// Adds what is told of a file, which is plain, if all of it is one line.
fn note_ends(
    advice: &Advice,
    medium: Medium,
    text: &[u8],
    notes: &mut Vec<PlacedNote>,
) -> Result<(), AllocError>
    ensures { IfOk result (λ _. notes.new.items
        ≡ notes.old.items ++ notes_of_ends advice.now medium text.now) }
{
    if is_unbroken(text) && loses_lines(medium, text) {
        tell(1, advice.no_feed, notes)
    } else {
        Ok(())
    }
}

// The source of a file, and what is told of the lines of a listing.
fn from_medium(
    alloc: Global,
    advice: &Advice,
    medium: Medium,
    file: &[u8],
) -> Result<Prepared, AllocError>
    ensures text { IfOk result (λ made. made.text.items ≡ prepared medium file.now) }
    ensures notes { IfOk result (λ made. made.notes.items
        ≡ notes_of_listing advice.now medium.listing file.now) }
{
    let source = from_listing(alloc, advice, medium.listing, file)?;
    if medium.cards {
        let text = carded(alloc, source.text.as_slice())?;
        Ok(Prepared {
            text,
            notes: source.notes,
        })
    } else {
        Ok(source)
    }
}

// The source of a listing, if it is one.
fn from_listing(
    alloc: Global,
    advice: &Advice,
    is_one: bool,
    file: &[u8],
) -> Result<Prepared, AllocError>
    ensures text { IfOk result (λ made. made.text.items ≡ from_listing is_one file.now) }
    ensures notes { IfOk result (λ made. made.notes.items ≡ notes_of_listing advice.now is_one file.now) }
{
    if is_one {
        unlist(alloc, advice, file)
    } else {
        let text = Vec::from_slice(alloc, file)?;
        Ok(Prepared {
            text,
            notes: Vec::new(alloc),
        })
    }
}

// The source of a listing.
fn unlist(alloc: Global, advice: &Advice, file: &[u8]) -> Result<Prepared, AllocError>
    ensures text { IfOk result (λ made. made.text.items ≡ from_listing true file.now) }
    ensures notes { IfOk result (λ made. made.notes.items ≡ notes_of_listing advice.now true file.now) }
{
    let plain = plain(alloc, file)?;
    let lines = lines_of(alloc, plain.as_slice())?;
    unlist_lines(alloc, advice, lines.as_slice())
}

// The source in the lines of a listing.
fn unlist_lines(alloc: Global, advice: &Advice, lines: &[&[u8]]) -> Result<Prepared, AllocError>
    ensures text { IfOk result (λ made. made.text.items ≡ listed_text (map (λ line. line.now) lines.now)) }
    ensures notes { IfOk result (λ made. made.notes.items
        ≡ listing_notes_from advice.now 1 (map (λ line. line.now) lines.now)) }
{
    let text = join_listed(alloc, lines)?;
    let mut notes = Vec::new(alloc);
    note_listing(advice, lines, &mut notes)?;
    Ok(Prepared { text, notes })
}
