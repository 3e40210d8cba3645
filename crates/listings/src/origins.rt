//! From which lines of its sources the code of a program comes, by address.

ghost use Rattle.std.specs.Prelude.{◌≡◌, ◌≤◌, length, slice_set, IfOk};
ghost use Rattle.sources.specs.Programs.{IsProgramOf, program_modules, texts_of};
ghost use Rattle.sources.specs.declared.sources.TheConstants.{MOST_SOURCES};
ghost use Rattle.listings.specs.internal.Origins.{AreLinesOf, AreOriginsIn, IsOriginOf, KeepsOrigins, KeepsWith};

use crate::view::ModuleView;
use crate::views::{all_marks, views_of};
use codegen8080::CodePart;
use mem80::MEMORY_SIZE;
use object_modules::Segment;
use std::alloc::{AllocError, Global};
use tool::{Built, Source, SourceMark};
use trees::next_number;

/// A line of a source of a program: the number of its module, and its own, counted from 1.
#[derive(Clone, Copy)]
pub struct SourceLine {
    pub module: u32,
    pub line: u32,
}

/// What code has a byte at an address.
#[derive(Clone, Copy)]
pub enum CodeOrigin {
    /// That of a line of a source.
    Line(SourceLine),
    /// That of a routine, which statements call.
    Routine,
    /// None.
    Outside,
}

/// From which lines of its sources the code of a program comes.
#[derive(Drop)]
pub struct CodeLines {
    /// What code each address has.
    origins: Vec<CodeOrigin>,
}

impl CodeLines {
    ghost use Rattle.std.specs.Prelude.{◌≡◌};
    ghost use Rattle.listings.specs.internal.Origins.{origin_at};

    /// What code has a byte at an address.
    pub fn origin(&self, address: u16) -> CodeOrigin
        ensures { result ≡ origin_at self.now address }
    {
        match self.origins.get(address as usize) {
            Some(origin) => *origin,
            None => CodeOrigin::Outside,
        }
    }
}

// What code comes after a mark of the module of this number.
fn origin_of(mark: &SourceMark, number: u32) -> CodeOrigin
    ensures { IsOriginOf number result }
{
    match mark.part {
        CodePart::Routine(_) => CodeOrigin::Routine,
        CodePart::Main | CodePart::Procedure(_) | CodePart::Statement(_) => {
            CodeOrigin::Line(SourceLine {
                module: number,
                line: mark.line,
            })
        }
    }
}

// The place at which the code after a mark ends: the next mark, or the end of all code.
fn end_of(later: &[SourceMark], length: u16) -> u32 {
    match later.first() {
        Some(next) => next.place as u32,
        None => length as u32,
    }
}

// Notes what code has the byte at an address, if it is one of memory.
fn note_at(origins: &mut Vec<CodeOrigin>, address: u32, origin: CodeOrigin)
    ensures { origins.new.items ≡ slice_set origins.old.items address origin }
{
    if let Some(noted) = origins.get_mut(address as usize) {
        *noted = origin;
    }
}

// Notes what code has the bytes from one address on, up to another.
fn note(origins: &mut Vec<CodeOrigin>, from: u32, to: u32, origin: CodeOrigin)
    ensures { KeepsWith origin origins.old.items origins.new.items }
{
    for address in from..to {
        note_at(origins, address, origin);
    }
}

// Notes what code has the bytes of a module with this number.
fn note_module(origins: &mut Vec<CodeOrigin>, view: &ModuleView, number: u32)
    ensures { KeepsOrigins number origins.old.items origins.new.items }
{
    let length = view.object.length(Segment::Code);
    let mut rest = view.marks.marks.as_slice();
    while let [mark, more @ ..] = rest {
        let from = view.code_base.saturating_add(mark.place as u32);
        let to = view.code_base.saturating_add(end_of(more, length));
        note(origins, from, to, origin_of(mark, number));
        rest = more;
    }
}

// No code at any of `size` addresses.
#[tactic(auto, using(crate::proofs::LineOrigins::no_lines))]
fn no_code(alloc: Global, size: usize) -> Result<Vec<CodeOrigin>, AllocError>
    ensures { IfOk result (λ origins. AreOriginsIn 0 origins.items) }
{
    let mut origins = Vec::new(alloc);
    origins.resize(size, CodeOrigin::Outside)?;
    Ok(origins)
}

// What code has the bytes of modules.
fn origins_of(alloc: Global, views: &[ModuleView]) -> Result<Vec<CodeOrigin>, AllocError>
    ensures { IfOk result (λ origins. AreOriginsIn (length views.now) origins.items) }
{
    let mut origins = no_code(alloc, MEMORY_SIZE)?;
    let mut number: u32 = 0;
    for view in views {
        note_module(&mut origins, view, number);
        number = next_number(number)?;
    }
    Ok(origins)
}

/// From which lines of these sources the code of a program comes that was built from them: each is one of a module of the
/// program. No definition says which line a statement has.
#[tactic(auto, using(crate::proofs::LineOrigins::lines_of_modules))]
pub fn code_lines(alloc: Global, built: &Built, sources: &[Source]) -> Result<CodeLines, AllocError>
    requires few { length sources.now ≤ MOST_SOURCES }
    requires program { IsProgramOf (texts_of sources.now) (program_modules built.now.program) }
    ensures { IfOk result (AreLinesOf (length (program_modules built.now.program))) }
{
    let marks = all_marks(alloc, built, sources)?;
    let views = views_of(alloc, built, sources, marks.as_slice())?;
    let origins = origins_of(alloc, views.as_slice())?;
    Ok(CodeLines { origins })
}
