//! Where the code of a source comes from.

ghost use Rattle.std.specs.Prelude.{◌≡◌, map, IfOk};
ghost use Rattle.sources.specs.Reading.{IsSource};
ghost use Rattle.tool.specs.Marks.{mark_of};

use codegen8080::{CodePart, Mark};
use sources::{SourceLines, source_lines};
use std::alloc::{AllocError, Global};

/// Where a part of the code of a module begins: its line in the source, or 0 if it is a routine, and its offset from the
/// start of the code segment.
#[derive(Clone, Copy)]
pub struct SourceMark {
    pub part: CodePart,
    pub line: u32,
    pub place: u16,
}

/// What is known of a source beside its module. No statement about the module speaks of it.
#[derive(Drop)]
pub struct SourceMarks {
    /// The parts of its code after the constants, in the order of the code.
    pub marks: Vec<SourceMark>,
    /// Of each object, by its number, the number of the procedure in which it is declared, if it is in one.
    pub owners: Vec<Option<usize>>,
}

// An entry of a table of lines, or 0.
fn entry(lines: &[u32], number: u32) -> u32 {
    match lines.get(number as usize) {
        Some(line) => *line,
        None => 0,
    }
}

// The line at which a part of code begins.
fn line_of(lines: &SourceLines, part: CodePart) -> u32 {
    match part {
        CodePart::Main => lines.module,
        CodePart::Procedure(number) => entry(lines.procedures.as_slice(), number),
        CodePart::Statement(number) => entry(lines.statements.as_slice(), number.index),
        CodePart::Routine(_) => 0,
    }
}

// Marks of code, with their lines.
fn with_lines(
    alloc: Global,
    lines: &SourceLines,
    marks: &[Mark],
) -> Result<Vec<SourceMark>, AllocError>
    ensures { IfOk result (λ lined. map mark_of lined.items ≡ marks.now) }
{
    let mut lined = Vec::with_capacity(alloc, marks.len())?;
    for mark in marks {
        lined.push(SourceMark {
            part: mark.part,
            line: line_of(lines, mark.part),
            place: mark.place,
        })?;
    }
    Ok(lined)
}

/// Where the parts of the code of a module begin, by the marks of its code, with their lines in the source of the module.
pub fn marks_of(alloc: Global, text: &[u8], marks: &[Mark]) -> Result<SourceMarks, AllocError>
    requires source { IsSource text.now }
    ensures { IfOk result (λ found. map mark_of found.marks.items ≡ marks.now) }
{
    let lines = source_lines(alloc, text)?;
    let marks = with_lines(alloc, &lines, marks)?;
    Ok(SourceMarks {
        marks,
        owners: lines.into_owners(),
    })
}
