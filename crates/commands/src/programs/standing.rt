//! The lines at which programs stand that are interpreted.

ghost use Rattle.std.specs.Prelude.{◌≡◌, ◌<◌, length, All, Contains, IfOk, Some, true};
ghost use Rattle.join.specs.Views.{modules_of};
ghost use Rattle.interpreter.specs.internal.Marked.{first_place};
ghost use Rattle.sources.specs.Programs.{IsProgramOf, program_modules, texts_of};
ghost use Rattle.sources.specs.Reading.{IsSource};
ghost use Rattle.commands.specs.internal.PartLines.{HasLine, HasLineIn};
ghost use Rattle.commands.specs.Standing.{NamesLine, module_names};

use crate::places::line_text;
use command_line::Settings;
use interpreter::{StackMark, StackPart, stack_marks};
use sources::{SourceLines, source_lines};
use std::alloc::{AllocError, Global};
use tool::{Built, Source};

// The part of the code to which an instruction belongs: the last one that does not begin after it.
fn part_at(marks: &[StackMark], at: usize) -> StackMark
    requires begins { first_place marks.now ≡ Some 0 }
    ensures { Contains marks.now result }
{
    let mut last = marks[0];
    for mark in marks {
        if mark.place > at {
            return last;
        }
        last = *mark;
    }
    last
}

// The line at which a part of code begins.
#[tactic(auto, using(crate::proofs::PartLines::procedure_within, crate::proofs::PartLines::statement_within))]
fn line_of(lines: &SourceLines, part: StackPart) -> u32
    requires within { HasLineIn lines.now part }
{
    match part {
        StackPart::Main => lines.module,
        StackPart::Procedure(number) => lines.procedures[number],
        StackPart::Statement(number) => lines.statements[number],
    }
}

// The line of a source at which a part of its code begins.
fn marked_line(alloc: Global, text: &[u8], part: StackPart) -> Result<u32, AllocError>
    requires source { IsSource text.now }
    requires part { HasLine text.now part }
{
    let lines = source_lines(alloc, text)?;
    Ok(line_of(&lines, part))
}

// The text of the line from which an instruction of the interpreter comes.
fn interpreted_text(
    alloc: Global,
    built: &Built,
    sources: &[Source],
    at: usize,
) -> Result<String, AllocError>
    requires sources { All IsSource (texts_of sources.now) }
    requires program { IsProgramOf (texts_of sources.now) (program_modules built.now.program) }
    requires as_many { length sources.now ≡ length (modules_of built.now.program) }
    requires some { 0 < length (modules_of built.now.program) }
    ensures { IfOk result (λ text. NamesLine (module_names built.now.program) text.bytes.items) }
{
    let marks = stack_marks(alloc, built.program(), built.placement())?;
    let mark = part_at(marks.as_slice(), at);
    let source = sources[mark.number_of_module];
    let line = marked_line(alloc, source.text, mark.part)?;
    line_text(alloc, built.program(), mark.number_of_module, line)
}

/// The text of the line of a program that was built from these sources from which an instruction of the interpreter comes,
/// where that is wanted.
#[tactic(auto, using(listings::proofs::ViewsMade::program_sources, crate::proofs::StandingTold::source_of_each, crate::proofs::StandingTold::some_module))]
pub(crate) fn text_of_line(
    alloc: Global,
    settings: &Settings,
    built: &Built,
    sources: &[Source],
    at: usize,
) -> Result<String, AllocError>
    requires program { IsProgramOf (texts_of sources.now) (program_modules built.now.program) }
    ensures { IfOk result (λ text. settings.now.watch.place ≡ true
        → NamesLine (module_names built.now.program) text.bytes.items) }
{
    if !settings.watch.place {
        return Ok(String::new(alloc));
    }
    interpreted_text(alloc, built, sources, at)
}
