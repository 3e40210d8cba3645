//! Conversion of a source.

ghost use Rattle.std.specs.Prelude.{◌≡◌, ◌≤◌, ◌++◌, length, map, IfOk};
ghost use Rattle.failure.specs.Failure.{IfFault};
ghost use Rattle.words.specs.declared.limits.TheConstants.{LONGEST_SOURCE};
ghost use Rattle.convert.specs.Assembly.{parts_of};
ghost use Rattle.convert.specs.Conversion.{IsRefused};
ghost use Rattle.convert.specs.Edits.{changes_of};
ghost use Rattle.convert.specs.Sources.{IsConverted, note_line, note_lines, number_text, place_at, placed};

use crate::assembly::{Assembly, Place, PlacedNote};
use crate::conversion::{Conversion, convert};
use crate::converting::Note;
use crate::edit::Edit;
use crate::includes::{Entry, name_of_file};
use crate::rule::Rule;
use failure::Failure;
use itoa::Buffer;
use literally::Fault;
use std::alloc::{AllocError, Global};
use words::LONGEST_SOURCE;

/// A converted source: its text, the changes that made it, and what could not be carried out or changed.
#[derive(Drop)]
pub struct Converted {
    pub text: Vec<u8>,
    pub edits: Vec<Edit>,
    pub notes: Vec<PlacedNote>,
}

/// Where a line stands, counted from 1, of a text whose lines stand at these places; for another number line 0 of the source.
pub fn place_at(places: &[Place], line: usize) -> Place
    ensures { result ≡ place_at places.now line }
{
    if 1 <= line && line <= places.len() {
        places[line - 1]
    } else {
        Place { file: 0, line: 0 }
    }
}

/// A source that was put together in this language: its words are changed by rules, as `RULES`. A text that is not a list of
/// words, or in which a definition by LITERALLY is refused, is refused with that fault. Takes memory and time that grow with
/// the text and its expansion.
pub fn convert_source(
    alloc: Global,
    rules: &[Rule],
    assembly: &Assembly,
) -> Result<Converted, Failure<Fault>>
    requires { length assembly.now.text.items ≤ LONGEST_SOURCE }
    ensures converted { IfOk result (λ converted. IsConverted rules.now (parts_of assembly.now)
        (changes_of converted.edits.items) converted.text.items converted.notes.items) }
    ensures fault { IfFault result (IsRefused (parts_of assembly.now).text) }
{
    let conversion = convert(alloc, rules, assembly.text.as_slice())?;
    let converted = join_notes(
        alloc,
        assembly.notes.as_slice(),
        assembly.places.as_slice(),
        conversion,
    )?;
    Ok(converted)
}

// What is told of lines, and then what is told of words.
fn join_notes(
    alloc: Global,
    first: &[PlacedNote],
    places: &[Place],
    conversion: Conversion,
) -> Result<Converted, AllocError>
    ensures text { IfOk result (λ converted. converted.text ≡ conversion.text) }
    ensures edits { IfOk result (λ converted. converted.edits ≡ conversion.edits) }
    ensures notes { IfOk result (λ converted. converted.notes.items
        ≡ first.now ++ map (placed places.now) conversion.notes.items) }
{
    let mut notes = Vec::from_slice(alloc, first)?;
    add_notes(places, conversion.notes.as_slice(), &mut notes)?;
    Ok(Converted {
        text: conversion.text,
        edits: conversion.edits,
        notes,
    })
}

// Adds notes at the places of their lines.
fn add_notes(places: &[Place], notes: &[Note], all: &mut Vec<PlacedNote>) -> Result<(), AllocError>
    ensures { IfOk result (λ _. all.new.items ≡ all.old.items ++ map (placed places.now) notes.now) }
{
    let mut rest = notes;
    while let [note, more @ ..] = rest {
        let place = place_at(places, note.line);
        all.push(PlacedNote {
            place,
            text: note.text,
            number: note.number,
        })?;
        rest = more;
    }
    Ok(())
}

/// The lines that tell notes of a source of a name, and of the files that were put in.
pub fn note_lines(
    alloc: Global,
    name: &str,
    entries: &[Entry],
    notes: &[PlacedNote],
) -> Result<Vec<u8>, AllocError>
    ensures { IfOk result (λ text. text.items ≡ note_lines name.now entries.now notes.now) }
{
    let mut text = Vec::new(alloc);
    let mut rest = notes;
    while let [note, more @ ..] = rest {
        write_note(name, entries, note, &mut text)?;
        rest = more;
    }
    Ok(text)
}

// Adds the line that tells a note.
fn write_note(
    name: &str,
    entries: &[Entry],
    note: &PlacedNote,
    text: &mut Vec<u8>,
) -> Result<(), AllocError>
    ensures { IfOk result (λ _. text.new.items ≡ text.old.items ++ note_line name.now entries.now note.now) }
{
    let mut digits = Buffer::new();
    let line = digits.format(note.place.line);
    text.extend_from_slice(name_of_file(name.as_bytes(), entries, note.place.file))?;
    text.push(b' ')?;
    text.extend_from_slice(line.as_bytes())?;
    text.extend_from_slice(b": ")?;
    text.extend_from_slice(note.text.as_bytes())?;
    write_number(note.number, text)?;
    text.push(b'\n')?;
    Ok(())
}

// Adds the number that ends a note, after a blank.
fn write_number(number: Option<u16>, text: &mut Vec<u8>) -> Result<(), AllocError>
    ensures { IfOk result (λ _. text.new.items ≡ text.old.items ++ number_text number) }
{
    let Some(number) = number else {
        return Ok(());
    };
    let mut digits = Buffer::new();
    let number = digits.format(number);
    text.push(b' ')?;
    text.extend_from_slice(number.as_bytes())?;
    Ok(())
}
