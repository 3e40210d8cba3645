//! A source with its files put in.

ghost use Rattle.std.specs.Prelude.{◌≡◌, ◌++◌, [], map, None, IfOk};
ghost use Rattle.convert.specs.Assembly.{as_it_is, assembled, begun, conditioned, controlled, blocks_put, file_put, included, line_of_source, line_put, lines_put, notes_of_sets, parts_of, parts_with, places_from, switched, switched_by, told_on, told_open, value_at, with_comments, with_ends, with_line, with_names, with_note, with_told, with_wanted};
ghost use Rattle.convert.specs.Controls.{argument_of, kind_at};
ghost use Rattle.convert.specs.Lines.{lines_of};
ghost use Rattle.convert.specs.Blocks.{blocks_after};
ghost use Rattle.convert.specs.Switches.{items_of};

use crate::advice::Advice;
use crate::blocks::{Block, Concern, applies, change_blocks, concern_at};
use crate::comments::note_comments;
use crate::controls::{
    ControlKind, after_word, argument_of, is_last, kind_at, last_control, step_at,
};
use crate::includes::{Answer, Entry, answer_of, file_name};
use crate::lines::{is_control, is_unbroken, lines_of, lines_of_file, return_of};
use crate::switches::{
    Switch, add_switches, are_names, are_switches, condition_value, items_of, set_switches,
};
use std::alloc::{AllocError, Global};

/// How deep files may include others: the source may include one that includes one, and so on.
pub const DEEPEST_FILE: usize = 8;

/// Where a line stands: in the file of this number, the source being 0, and there on this line, counted from 1.
#[derive(Clone, Copy)]
pub struct Place {
    pub file: usize,
    pub line: usize,
}

/// What could not be carried out or changed at a place, what to write, and the number that ends it.
#[derive(Clone, Copy)]
pub struct PlacedNote {
    pub place: Place,
    pub text: &'static str,
    pub number: Option<u16>,
}

impl PlacedNote {
    /// What is told at a place, without a number.
    pub(crate) fn new(place: Place, text: &'static str) -> PlacedNote
        ensures { result ≡ record { place = place; text = text.entry; number = None } }
    {
        PlacedNote {
            place,
            text,
            number: None,
        }
    }
}

/// A text that is put together: where each of its lines stands, what is told, the switches that were set and reset, and the
/// names of files that were not looked for.
#[derive(Drop)]
pub struct Assembly<'a> {
    pub text: Vec<u8>,
    pub places: Vec<Place>,
    pub notes: Vec<PlacedNote>,
    pub switches: Vec<Switch<'a>>,
    pub wanted: Vec<Vec<u8>>,
}

// Adds a line to the text.
fn add_line(place: Place, line: &[u8], assembly: &mut Assembly) -> Result<(), AllocError>
    ensures { IfOk result (λ _. parts_of assembly.new ≡ with_line place line.now (parts_of assembly.old)) }
{
    if !assembly.places.is_empty() {
        assembly.text.push(b'\n')?;
    }
    assembly.text.extend_from_slice(line)?;
    assembly.places.push(place)?;
    Ok(())
}

// Adds what is told.
fn tell(note: PlacedNote, assembly: &mut Assembly) -> Result<(), AllocError>
    ensures { IfOk result (λ _. parts_of assembly.new ≡ with_note note (parts_of assembly.old)) }
{
    assembly.notes.push(note)?;
    Ok(())
}

// The same, of a line that comes out empty.
fn tell_line(line: &[u8], note: PlacedNote, assembly: &mut Assembly) -> Result<(), AllocError>
    ensures { IfOk result (λ _. parts_of assembly.new ≡ with_told line.now note (parts_of assembly.old)) }
{
    tell(note, assembly)?;
    add_line(note.place, return_of(line), assembly)
}

// Adds what is told of a control of an IF.
fn tell_concern(
    advice: &Advice,
    place: Place,
    concern: Concern,
    assembly: &mut Assembly,
) -> Result<(), AllocError>
    ensures { IfOk result (λ _. parts_of assembly.new
        ≡ told_on advice.now place concern (parts_of assembly.old)) }
{
    match concern {
        Concern::Fine => Ok(()),
        Concern::NoCondition => {
            let text = advice.no_condition;
            tell(PlacedNote::new(place, text), assembly)
        }
        Concern::NoIf => {
            let text = advice.no_if;
            tell(PlacedNote::new(place, text), assembly)
        }
    }
}

// Adds what is told of IFs that are open at the end of their file.
fn tell_open(
    advice: &Advice,
    file: usize,
    blocks: &[Block],
    assembly: &mut Assembly,
) -> Result<(), AllocError>
    ensures { IfOk result (λ _. parts_of assembly.new
        ≡ told_open advice.now file blocks.now (parts_of assembly.old)) }
{
    let mut rest = blocks;
    while let [block, more @ ..] = rest {
        let place = Place {
            file,
            line: block.line,
        };
        let text = advice.no_end;
        tell(PlacedNote::new(place, text), assembly)?;
        rest = more;
    }
    Ok(())
}

// Adds what is told of a file that is included, if a line with controls is all of it.
fn tell_ends(
    advice: &Advice,
    file: usize,
    text: &[u8],
    assembly: &mut Assembly,
) -> Result<(), AllocError>
    ensures { IfOk result (λ _. parts_of assembly.new
        ≡ with_ends advice.now file text.now (parts_of assembly.old)) }
{
    if is_unbroken(text) && is_control(text) {
        let place = Place { file, line: 1 };
        let text = advice.no_feed;
        tell(PlacedNote::new(place, text), assembly)
    } else {
        Ok(())
    }
}

// Adds what is told of comments in a file that is included.
fn tell_comments(
    alloc: Global,
    advice: &Advice,
    file: usize,
    text: &[u8],
    assembly: &mut Assembly,
) -> Result<(), AllocError>
    ensures { IfOk result (λ _. parts_of assembly.new
        ≡ with_comments advice.now file text.now (parts_of assembly.old)) }
{
    note_comments(alloc, advice, file, text, &mut assembly.notes)
}

// Adds what is told of a file that is included, before its lines.
fn begin_file(
    alloc: Global,
    advice: &Advice,
    file: usize,
    text: &[u8],
    assembly: &mut Assembly,
) -> Result<(), AllocError>
    ensures { IfOk result (λ _. parts_of assembly.new
        ≡ begun advice.now file text.now (parts_of assembly.old)) }
{
    tell_ends(advice, file, text, assembly)?;
    tell_comments(alloc, advice, file, text, assembly)
}

// Adds the name of a file that was not looked for.
fn want(alloc: Global, name: &[u8], assembly: &mut Assembly) -> Result<(), AllocError>
    ensures { IfOk result (λ _. parts_of assembly.new ≡ with_wanted name.now (parts_of assembly.old)) }
{
    let copy = Vec::from_slice(alloc, name)?;
    assembly.wanted.push(copy)?;
    Ok(())
}

// Sets or resets the switches in the group of the control at the front of a line.
fn add_group<'a>(
    alloc: Global,
    advice: &Advice,
    place: Place,
    on: bool,
    line: &'a [u8],
    assembly: &mut Assembly<'a>,
) -> Result<(), AllocError>
    ensures { IfOk result (λ _. parts_of assembly.new
        ≡ with_names advice.now place on (items_of (argument_of line.now)) (parts_of assembly.old)) }
{
    let items = items_of(alloc, argument_of(line))?;
    if are_names(items.as_slice()) {
        add_switches(on, items.as_slice(), &mut assembly.switches)
    } else {
        let text = advice.no_names;
        tell(PlacedNote::new(place, text), assembly)
    }
}

// Sets or resets the switches of the control at the front of a line, if it has any.
fn switch_by<'a>(
    alloc: Global,
    advice: &Advice,
    place: Place,
    line: &'a [u8],
    assembly: &mut Assembly<'a>,
) -> Result<(), AllocError>
    ensures { IfOk result (λ _. parts_of assembly.new
        ≡ switched_by advice.now place line.now (kind_at line.now) (parts_of assembly.old)) }
{
    match kind_at(line) {
        ControlKind::Set => add_group(alloc, advice, place, true, line, assembly),
        ControlKind::Reset => add_group(alloc, advice, place, false, line, assembly),
        ControlKind::Include
        | ControlKind::If
        | ControlKind::ElseIf
        | ControlKind::Else
        | ControlKind::EndIf
        | ControlKind::Other => Ok(()),
    }
}

// Sets and resets the switches of a line, up to a control that ends it.
fn switch_line<'a>(
    alloc: Global,
    advice: &Advice,
    place: Place,
    line: &'a [u8],
    assembly: &mut Assembly<'a>,
) -> Result<(), AllocError>
    ensures { IfOk result (λ _. parts_of assembly.new
        ≡ switched advice.now place 0 line.now (parts_of assembly.old)) }
{
    let mut passed = 0;
    let mut rest = line;
    while let [_, more @ ..] = rest {
        if passed > 0 {
            passed -= 1;
            rest = more;
            continue;
        }
        if is_last(kind_at(rest)) {
            return Ok(());
        }
        switch_by(alloc, advice, place, rest, assembly)?;
        passed = step_at(rest).saturating_sub(1);
        rest = more;
    }
    Ok(())
}

// A line with a control of an IF, or without one that ends it.
fn put_condition(
    alloc: Global,
    advice: &Advice,
    place: Place,
    line: &[u8],
    control: &[u8],
    kind: ControlKind,
    blocks: &mut Vec<Block>,
    assembly: &mut Assembly,
) -> Result<(), AllocError>
    ensures parts { IfOk result (λ _. parts_of assembly.new
        ≡ conditioned advice.now place line.now control.now kind blocks.old.items (parts_of assembly.old)) }
    ensures blocks { IfOk result (λ _. blocks.new.items
        ≡ blocks_after (value_at (parts_of assembly.old).switches control.now) kind place.line blocks.old.items) }
{
    let value = condition_value(alloc, assembly.switches.as_slice(), after_word(control))?;
    let concern = concern_at(value, kind, blocks.as_slice());
    tell_concern(advice, place, concern, assembly)?;
    add_line(place, return_of(line), assembly)?;
    change_blocks(value, kind, place.line, blocks)
}

// The lines of a file that is included, and of those that it includes, where files may be so deep.
#[cycle(putting)]
#[tactic(auto, using(crate::proofs::Deeper::deeper, crate::proofs::Deeper::deepest))]
fn put_file<'a>(
    alloc: Global,
    advice: &Advice,
    entries: &'a [Entry],
    depth: usize,
    place: Place,
    line: &[u8],
    file: usize,
    text: &'a [u8],
    assembly: &mut Assembly<'a>,
) -> Result<(), AllocError>
    ensures { IfOk result (λ _. parts_of assembly.new
        ≡ file_put advice.now entries.now depth place line.now file text.now (parts_of assembly.old)) }
{
    if depth == 0 {
        let text = advice.too_deep;
        return tell_line(line, PlacedNote::new(place, text), assembly);
    }
    begin_file(alloc, advice, file, text, assembly)?;
    let lines = lines_of_file(alloc, text)?;
    put_lines(
        alloc,
        advice,
        entries,
        depth - 1,
        file,
        lines.as_slice(),
        assembly,
    )
}

// A line with an INCLUDE.
#[cycle(putting)]
fn put_include<'a>(
    alloc: Global,
    advice: &Advice,
    entries: &'a [Entry],
    depth: usize,
    place: Place,
    line: &[u8],
    argument: &[u8],
    assembly: &mut Assembly<'a>,
) -> Result<(), AllocError>
    ensures { IfOk result (λ _. parts_of assembly.new
        ≡ included advice.now entries.now (file_put advice.now entries.now depth) place line.now argument.now
        (parts_of assembly.old)) }
{
    let name = file_name(argument);
    match answer_of(entries, name) {
        Answer::NoName => {
            let text = advice.no_name;
            tell_line(line, PlacedNote::new(place, text), assembly)
        }
        Answer::Unknown => {
            want(alloc, name, assembly)?;
            let text = advice.not_looked_for;
            tell_line(line, PlacedNote::new(place, text), assembly)
        }
        Answer::Absent => {
            let text = advice.no_file;
            tell_line(line, PlacedNote::new(place, text), assembly)
        }
        Answer::Present(file, text) => {
            put_file(
                alloc, advice, entries, depth, place, line, file, text, assembly,
            )
        }
    }
}

// A line with controls whose switches were set and reset already; `control` is the last of its controls.
#[cycle(putting)]
fn put_control<'a>(
    alloc: Global,
    advice: &Advice,
    entries: &'a [Entry],
    depth: usize,
    place: Place,
    line: &'a [u8],
    control: &'a [u8],
    blocks: &mut Vec<Block>,
    assembly: &mut Assembly<'a>,
) -> Result<(), AllocError>
    ensures parts { IfOk result (λ _. parts_of assembly.new
        ≡ controlled advice.now entries.now (file_put advice.now entries.now depth) place line.now control.now
        (kind_at control.now) blocks.old.items (parts_of assembly.old)) }
    ensures blocks { IfOk result (λ _. blocks.new.items
        ≡ blocks_after (value_at (parts_of assembly.old).switches control.now) (kind_at control.now) place.line
        blocks.old.items) }
{
    let kind = kind_at(control);
    match kind {
        ControlKind::Include => {
            if applies(blocks.as_slice()) {
                let argument = argument_of(control);
                put_include(
                    alloc, advice, entries, depth, place, line, argument, assembly,
                )
            } else {
                add_line(place, return_of(line), assembly)
            }
        }
        ControlKind::If
        | ControlKind::ElseIf
        | ControlKind::Else
        | ControlKind::EndIf
        | ControlKind::Set
        | ControlKind::Reset
        | ControlKind::Other => put_condition(
            alloc, advice, place, line, control, kind, blocks, assembly,
        ),
    }
}

// A line of a file.
#[cycle(putting)]
fn put_line<'a>(
    alloc: Global,
    advice: &Advice,
    entries: &'a [Entry],
    depth: usize,
    place: Place,
    line: &'a [u8],
    blocks: &mut Vec<Block>,
    assembly: &mut Assembly<'a>,
) -> Result<(), AllocError>
    ensures parts { IfOk result (λ _. parts_of assembly.new
        ≡ line_put advice.now entries.now (file_put advice.now entries.now depth) place line.now blocks.old.items
        (parts_of assembly.old)) }
    ensures blocks { IfOk result (λ _. blocks.new.items
        ≡ blocks_put advice.now place line.now blocks.old.items (parts_of assembly.old)) }
{
    let applying = applies(blocks.as_slice());
    if !is_control(line) {
        let kept = if applying { line } else { return_of(line) };
        return add_line(place, kept, assembly);
    }
    if applying {
        switch_line(alloc, advice, place, line, assembly)?;
    }
    let control = last_control(line);
    put_control(
        alloc, advice, entries, depth, place, line, control, blocks, assembly,
    )
}

// The lines of a file.
#[cycle(putting)]
fn put_lines<'a>(
    alloc: Global,
    advice: &Advice,
    entries: &'a [Entry],
    depth: usize,
    file: usize,
    lines: &[&'a [u8]],
    assembly: &mut Assembly<'a>,
) -> Result<(), AllocError>
    ensures { IfOk result (λ _. parts_of assembly.new
        ≡ lines_put advice.now entries.now (file_put advice.now entries.now depth) file 1
        (map (λ line. line.now) lines.now) [] (parts_of assembly.old)) }
{
    let mut blocks = Vec::new(alloc);
    let mut number = 1;
    let mut rest = lines;
    while let [line, more @ ..] = rest {
        let place = Place { file, line: number };
        put_line(
            alloc,
            advice,
            entries,
            depth,
            place,
            line,
            &mut blocks,
            assembly,
        )?;
        number += 1;
        rest = more;
    }
    tell_open(advice, file, blocks.as_slice(), assembly)
}

// Adds what is told of switches that are set from the beginning, if one has no name.
fn note_sets(advice: &Advice, sets: &[&str], notes: &mut Vec<PlacedNote>) -> Result<(), AllocError>
    ensures { IfOk result (λ _. notes.new.items
        ≡ notes.old.items ++ notes_of_sets advice.now (map (λ name. name.now) sets.now)) }
{
    if are_switches(sets) {
        return Ok(());
    }
    let place = line_of_source(0);
    let text = advice.no_switch;
    notes.push(PlacedNote::new(place, text))?;
    Ok(())
}

// Nothing but what was told before, and switches that are set.
fn begin<'a>(
    alloc: Global,
    advice: &Advice,
    before: &[PlacedNote],
    sets: &[&'a str],
) -> Result<Assembly<'a>, AllocError>
    ensures { IfOk result (λ assembly. parts_of assembly
        ≡ parts_with advice.now before.now (map (λ name. name.now) sets.now)) }
{
    let mut switches = Vec::new(alloc);
    set_switches(sets, &mut switches)?;
    let mut notes = Vec::from_slice(alloc, before)?;
    note_sets(advice, sets, &mut notes)?;
    Ok(Assembly {
        text: Vec::new(alloc),
        places: Vec::new(alloc),
        notes,
        switches,
        wanted: Vec::new(alloc),
    })
}

/// A source, which is plain, with its files put in, with these files and with these switches set, after what was told before.
/// Lines with controls come out empty, and so do those that do not apply. Takes memory and time that grow with the text.
pub fn assemble<'a>(
    alloc: Global,
    advice: &Advice,
    entries: &'a [Entry],
    before: &[PlacedNote],
    sets: &[&'a str],
    source: &'a [u8],
) -> Result<Assembly<'a>, AllocError>
    ensures { IfOk result (λ assembly. parts_of assembly
        ≡ assembled advice.now entries.now before.now (map (λ name. name.now) sets.now) source.now) }
{
    let mut assembly = begin(alloc, advice, before, sets)?;
    let lines = lines_of(alloc, source)?;
    put_lines(
        alloc,
        advice,
        entries,
        DEEPEST_FILE,
        0,
        lines.as_slice(),
        &mut assembly,
    )?;
    Ok(assembly)
}

/// The line of a number of the source.
pub(crate) fn line_of_source(number: usize) -> Place
    ensures { result ≡ line_of_source number }
{
    Place {
        file: 0,
        line: number,
    }
}

// The places of lines of the source, counted from 1.
fn places_of(alloc: Global, lines: &[&[u8]]) -> Result<Vec<Place>, AllocError>
    ensures { IfOk result (λ places. places.items ≡ places_from 1 (map (λ line. line.now) lines.now)) }
{
    let mut places = Vec::new(alloc);
    let mut number = 1;
    let mut rest = lines;
    while let [_, more @ ..] = rest {
        places.push(line_of_source(number))?;
        number += 1;
        rest = more;
    }
    Ok(places)
}

// Where the lines of a source stand.
fn places_of_source(alloc: Global, source: &[u8]) -> Result<Vec<Place>, AllocError>
    ensures { IfOk result (λ places. places.items ≡ places_from 1 (lines_of source.now)) }
{
    let lines = lines_of(alloc, source)?;
    places_of(alloc, lines.as_slice())
}

/// A source as it is, after what was told before.
pub fn assemble_as_is<'a>(
    alloc: Global,
    before: &[PlacedNote],
    source: &[u8],
) -> Result<Assembly<'a>, AllocError>
    ensures { IfOk result (λ assembly. parts_of assembly ≡ as_it_is before.now source.now) }
{
    let places = places_of_source(alloc, source)?;
    let text = Vec::from_slice(alloc, source)?;
    let notes = Vec::from_slice(alloc, before)?;
    Ok(Assembly {
        text,
        places,
        notes,
        switches: Vec::new(alloc),
        wanted: Vec::new(alloc),
    })
}
