//! From which lines those of a converted text come.

ghost use Rattle.std.specs.Prelude.{◌≡◌, ◌≤◌, ◌+◌, ◌∷◌, ◌++◌, min, length, take, IfOk};
ghost use Rattle.convert.specs.Assembly.{parts_of};
ghost use Rattle.convert.specs.Edits.{changes_of};
ghost use Rattle.convert.specs.Origins.{HasOneRowEachOf, counted, line_at, line_feeds, line_table, lines_after, lines_for, lines_in, row, rows};

use crate::assembly::{Assembly, Place};
use crate::edit::Edit;
use crate::includes::{Entry, name_of_file};
use crate::source::place_at;
use crate::texts::between;
use itoa::Buffer;
use std::alloc::{AllocError, Global};

// A place in a text, and its line, counted from 1.
#[derive(Clone, Copy)]
struct Mark {
    place: usize,
    line: usize,
}

// How many line feeds a text has.
fn line_feeds(text: &[u8]) -> usize
    ensures count { result ≡ line_feeds text.now }
    ensures within { result ≤ length text.now }
{
    let mut count = 0;
    let mut rest = text;
    while let [byte, more @ ..] = rest {
        rest = more;
        if *byte == b'\n' {
            count += 1;
        }
    }
    count
}

// The bytes of a text before a place.
fn before(source: &[u8], place: usize) -> &[u8]
    ensures { result.now ≡ take place source.now }
{
    if place <= source.len() {
        &source[..place]
    } else {
        source
    }
}

// The line of a place. Takes the time of the way from a place that is marked, where that comes no later.
#[tactic(auto, using(crate::proofs::LinesOfPlaces::further, crate::proofs::LinesOfPlaces::countable, crate::proofs::LinesOfPlaces::from_the_top))]
fn line_from(source: &[u8], mark: Mark, place: usize) -> usize
    requires { mark.line ≡ line_at source.now mark.place }
    ensures { result ≡ line_at source.now place }
{
    if mark.place <= place && place <= source.len() {
        mark.line + line_feeds(&source[mark.place..place])
    } else {
        line_feeds(before(source, place)) + 1
    }
}

// The next line, or the last.
fn next_line(line: usize, last: usize) -> usize
    ensures { result ≡ min (line + 1) last }
{
    if line < last { line + 1 } else { last }
}

// Adds the lines that follow the line feeds of a piece, which begins on a line.
fn add_lines(
    first: usize,
    last: usize,
    piece: &[u8],
    lines: &mut Vec<usize>,
) -> Result<(), AllocError>
    ensures { IfOk result (λ _. lines.new.items ≡ lines.old.items ++ lines_in first last piece.now) }
{
    let mut line = first;
    let mut rest = piece;
    while let [byte, more @ ..] = rest {
        rest = more;
        if *byte == b'\n' {
            line = next_line(line, last);
            lines.push(line)?;
        }
    }
    Ok(())
}

// The same of a piece that stands for the bytes from a place that is marked up to another. The answer marks that one.
fn add_piece(
    source: &[u8],
    mark: Mark,
    to: usize,
    piece: &[u8],
    lines: &mut Vec<usize>,
) -> Result<Mark, AllocError>
    requires { mark.line ≡ line_at source.now mark.place }
    ensures lines { IfOk result (λ _. lines.new.items
        ≡ lines.old.items ++ lines_for source.now mark.place to piece.now) }
    ensures place { IfOk result (λ after. after.place ≡ to) }
    ensures line { IfOk result (λ after. after.line ≡ line_at source.now to) }
{
    let line = line_from(source, mark, to);
    add_lines(mark.line, line, piece, lines)?;
    Ok(Mark { place: to, line })
}

// The lines of a text from which those come of what it is changed to.
fn lines_of_changes(alloc: Global, source: &[u8], edits: &[Edit]) -> Result<Vec<usize>, AllocError>
    ensures { IfOk result (λ lines. lines.items ≡ 1 ∷ lines_after 0 source.now (changes_of edits.now)) }
{
    let mut lines = Vec::new(alloc);
    lines.push(1)?;
    let mut mark = Mark { place: 0, line: 1 };
    let mut rest = edits;
    while let [edit, more @ ..] = rest {
        let kept = between(source, mark.place, edit.from);
        let before = add_piece(source, mark, edit.from, kept, &mut lines)?;
        mark = add_piece(source, before, edit.to, edit.text.as_slice(), &mut lines)?;
        rest = more;
    }
    let kept = between(source, mark.place, source.len());
    add_piece(source, mark, source.len(), kept, &mut lines)?;
    Ok(lines)
}

// The lines of a text, without the last if that is empty.
fn counted<'a>(text: &[u8], lines: &'a [usize]) -> &'a [usize]
    ensures { result.now ≡ counted text.now lines.now }
{
    if text.is_empty() || text[text.len() - 1] == b'\n' {
        &lines[..lines.len().saturating_sub(1)]
    } else {
        lines
    }
}

// Adds the row of a line.
fn write_row(
    name: &str,
    entries: &[Entry],
    place: Place,
    table: &mut Vec<u8>,
) -> Result<(), AllocError>
    ensures { IfOk result (λ _. table.new.items ≡ table.old.items ++ row name.now entries.now place) }
{
    let mut digits = Buffer::new();
    let line = digits.format(place.line);
    table.extend_from_slice(name_of_file(name.as_bytes(), entries, place.file))?;
    table.push(b' ')?;
    table.extend_from_slice(line.as_bytes())?;
    table.push(b'\n')?;
    Ok(())
}

// The rows of lines of a text whose lines stand at these places.
fn rows(
    alloc: Global,
    name: &str,
    entries: &[Entry],
    places: &[Place],
    lines: &[usize],
) -> Result<Vec<u8>, AllocError>
    ensures { IfOk result (λ table. table.items ≡ rows name.now entries.now places.now lines.now) }
{
    let mut table = Vec::new(alloc);
    let mut rest = lines;
    while let [line, more @ ..] = rest {
        write_row(name, entries, place_at(places, *line), &mut table)?;
        rest = more;
    }
    Ok(table)
}

/// A table of the lines of a text that was made of an assembly by changes: for each, in order, a line `NAME LINE` with the
/// name of its file, which is this of the source, and the line there, counted from 1, from which it comes. After a line feed
/// that a change wrote the lines go on one by one, but not beyond the last line that was replaced. Takes memory and time
/// that grow with both texts, where the changes are in the order of the text.
pub fn line_table(
    alloc: Global,
    name: &str,
    entries: &[Entry],
    assembly: &Assembly,
    edits: &[Edit],
    text: &[u8],
) -> Result<Vec<u8>, AllocError>
    ensures table { IfOk result (λ table. table.items
        ≡ line_table name.now entries.now (parts_of assembly.now) (changes_of edits.now) text.now) }
    ensures rows { IfOk result (λ table. HasOneRowEachOf name.now entries.now (parts_of assembly.now)
        (changes_of edits.now) text.now table.items) }
{
    let lines = lines_of_changes(alloc, assembly.text.as_slice(), edits)?;
    let places = assembly.places.as_slice();
    rows(
        alloc,
        name,
        entries,
        places,
        counted(text, lines.as_slice()),
    )
}
