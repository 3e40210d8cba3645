//! The listing of a module: its lines, each with its code, and what begins in no line.

ghost use Rattle.std.specs.Prelude.{◌≡◌, ◌∷◌, ◌++◌, ◌%◌, [], IfOk, OnOk, length, map};
ghost use Rattle.std.specs.List.{AllByRecursion};
ghost use Rattle.mem80.specs.declared.memory.TheConstants.{MEMORY_SIZE};
ghost use Rattle.object_commands.specs.Placing.{range_line};
ghost use Rattle.object_modules.specs.Image.{range_at};
ghost use Rattle.listings.specs.Listing.{cells_in, lines_of, listed_from, sizes_text};
ghost use Rattle.listings.specs.internal.Adding.{Adds};
ghost use Rattle.listings.specs.internal.Modules.{code_text};
ghost use Rattle.listings.specs.internal.Parts.{AddsParts, IsGood, IsLone, lined};
ghost use Rattle.listings.specs.internal.Programs.{IsPartOfCode, ListsView, code_size, data_size, typed_of};
ghost use Rattle.listings.specs.internal.Views.{name_at, named_view};

use crate::constants::constant_size;
use crate::lines::{put_line, put_parts_beside, put_parts_in};
use crate::named::Named;
use crate::parts::{CodeSegment, Part, push_bytes, push_code};
use crate::places::put_range;
use crate::text_lines::{after_line, line_length};
use crate::view::ModuleView;
use mem80::Piece;
use object_modules::{Name, Segment};
use std::alloc::{AllocError, Global};
use std::io;
use std::io::Write;
use trees::next_number;

/// What the modules of a program have in common: the pieces of its image, and its names.
#[derive(Clone, Copy)]
pub(crate) struct Shared<'a> {
    pub(crate) pieces: &'a [Piece],
    pub(crate) names: &'a [Named],
}

// The parts of the code segment of a module, by rising addresses.
#[tactic(auto, using(crate::proofs::Shown::code_of_module))]
fn code_parts(alloc: Global, pieces: &[Piece], view: &ModuleView) -> Result<Vec<Part>, AllocError>
    ensures { IfOk result (λ parts. AddsParts (IsPartOfCode pieces.now view.now)
        (cells_in pieces.now view.now.code_base (code_size view.now)) [] parts.items) }
{
    let segment = CodeSegment {
        start: view.code_base,
        length: view.object.length(Segment::Code) as u32,
        constants: constant_size(view.typed),
        fixes: view.object.fixes(Segment::Code),
    };
    let mut parts = Vec::new(alloc);
    push_code(&mut parts, pieces, segment, view.marks.marks.as_slice())?;
    Ok(parts)
}

// The parts of the data segment of a module, by rising addresses.
fn data_parts(alloc: Global, pieces: &[Piece], view: &ModuleView) -> Result<Vec<Part>, AllocError>
    ensures { IfOk result (λ parts. AddsParts IsLone
        (cells_in pieces.now view.now.data_base (data_size view.now)) [] parts.items) }
{
    let mut parts = Vec::new(alloc);
    let count = view.object.length(Segment::Data) as u32;
    push_bytes(&mut parts, pieces, view.data_base, count)?;
    Ok(parts)
}

// Adds the lines of a source, each with the parts below it, and answers how many they are.
#[tactic(auto, using(crate::proofs::SourceLines::next_line, crate::proofs::SourceLines::next_count, crate::proofs::SourceLines::lines_done, crate::proofs::SourceLines::count_done))]
fn put_lines(lines: &mut Vec<u8>, names: &[Named], source: &[u8], parts: &[Part]) -> io::Result<u32>
    requires good { AllByRecursion IsGood parts.now }
    ensures lines { OnOk result (lines.new.items ≡ lines.old.items
        ++ listed_from 1 (name_at names.now) (lines_of source.now) (map (lined (name_at names.now)) parts.now)) }
    ensures count { IfOk result (λ count. count ≡ length (lines_of source.now)) }
{
    let mut text = source;
    let mut number: u32 = 0;
    while let [_, ..] = text {
        number = next_number(number)?;
        let length = line_length(text);
        put_line(lines, number, &text[..length])?;
        put_parts_in(lines, names, parts, number)?;
        text = after_line(text, length);
    }
    Ok(number)
}

// Adds the line of where a segment of a module begins, and how many bytes it has.
fn put_size(lines: &mut Vec<u8>, word: &str, name: &Name, base: u32, size: u16) -> io::Result<()>
    ensures { OnOk result (lines.new.items ≡ lines.old.items
        ++ range_line (word.now ++ 32 ∷ name.now) (base % MEMORY_SIZE) size) }
{
    write!(lines, "{word} {name}")?;
    put_range(lines, (base % 65_536) as u16, size as u32)
}

// Adds the lines of where the segments of a module begin, and how many bytes they have.
fn put_sizes(lines: &mut Vec<u8>, view: &ModuleView) -> io::Result<()>
    ensures { OnOk result (lines.new.items ≡ lines.old.items ++ sizes_text (typed_of view.now).name
        (range_at view.now.code_base (code_size view.now)) (range_at view.now.data_base (data_size view.now))) }
{
    let name = &view.typed.name;
    let code_size = view.object.length(Segment::Code);
    put_size(lines, "CODE", name, view.code_base, code_size)?;
    let data_size = view.object.length(Segment::Data);
    put_size(lines, "DATA", name, view.data_base, data_size)
}

// Adds the lines of a source with its code, and then the code that begins in no line.
fn put_code(lines: &mut Vec<u8>, names: &[Named], source: &[u8], parts: &[Part]) -> io::Result<()>
    requires good { AllByRecursion IsGood parts.now }
    ensures { OnOk result (lines.new.items ≡ lines.old.items
        ++ code_text (name_at names.now) (lines_of source.now) (map (lined (name_at names.now)) parts.now)) }
{
    let count = put_lines(lines, names, source, parts)?;
    put_parts_beside(lines, names, parts, count)
}

/// Adds the listing of a module.
#[tactic(auto, using(crate::proofs::ModuleLists::module_listed, crate::proofs::Shown::code_added, crate::proofs::Shown::lone_added))]
pub(crate) fn put_module(
    alloc: Global,
    lines: &mut Vec<u8>,
    shared: Shared<'_>,
    view: &ModuleView,
) -> io::Result<()>
    ensures { OnOk result
        (Adds (ListsView (map named_view shared.entry.names.now) shared.entry.pieces.now view.now)
        lines.old.items lines.new.items) }
{
    let names = shared.names;
    let parts = code_parts(alloc, shared.pieces, view)?;
    put_code(lines, names, view.text, parts.as_slice())?;
    drop(parts);
    let parts = data_parts(alloc, shared.pieces, view)?;
    put_parts_in(lines, names, parts.as_slice(), 0)?;
    put_sizes(lines, view)
}
