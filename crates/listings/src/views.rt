//! Modules of a program that was built.

ghost use Rattle.std.specs.Prelude.{◌≡◌, ◌<◌, ◌≤◌, IfOk, length};
ghost use Rattle.sources.specs.Programs.{IsProgramOf, program_modules, texts_of};
ghost use Rattle.sources.specs.declared.sources.TheConstants.{MOST_SOURCES};
ghost use Rattle.listings.specs.internal.Marks.{AreMarksOf};
ghost use Rattle.listings.specs.internal.Programs.{AreViews, IsViewAt};

use crate::view::ModuleView;
use object_modules::Segment;
use std::alloc::{AllocError, Global};
use tool::{Built, Source, SourceMarks, marks_of};

/// Where the code of each module of a program comes from, in the order of its sources.
pub(crate) fn all_marks(
    alloc: Global,
    built: &Built,
    sources: &[Source],
) -> Result<Vec<SourceMarks>, AllocError>
    requires program { IsProgramOf (texts_of sources.now) (program_modules built.now.program) }
    ensures { IfOk result
        (λ all. AreMarksOf (program_modules built.now.program) built.now.objects all.items) }
{
    let marks = built.marks();
    let mut all = Vec::new(alloc);
    for (number, source) in sources.iter().enumerate() {
        all.push(marks_of(alloc, source.text, marks[number].parts.as_slice())?)?;
    }
    Ok(all)
}

// The module of a number, whose segments lie at these addresses.
fn view_of<'s, 'b, 'm>(
    built: &'b Built,
    sources: &[Source<'s>],
    marks: &'m [SourceMarks],
    number: usize,
    code_base: u32,
    data_base: u32,
) -> ModuleView<'s, 'b, 'm>
    requires number { number < length built.now.objects }
    requires as_many { length sources.now ≡ length built.now.objects }
    requires marked { AreMarksOf (program_modules built.now.program) built.now.objects marks.now }
    ensures { IsViewAt (texts_of sources.now) built.now number code_base data_base result }
{
    ModuleView {
        text: sources[number].text,
        typed: &built.program().modules()[number],
        object: &built.objects()[number],
        placed: &built.placement().modules()[number],
        marks: &marks[number],
        procedures: built.marks()[number].procedures.as_slice(),
        code_base,
        data_base,
    }
}

/// The modules of a program, in their order. Their segments follow one another from the addresses of the plan on.
#[tactic(auto, using(crate::proofs::ViewsMade::no_views, crate::proofs::ViewsMade::view_added, crate::proofs::ViewsMade::all_views))]
pub(crate) fn views_of<'s, 'b, 'm>(
    alloc: Global,
    built: &'b Built,
    sources: &[Source<'s>],
    marks: &'m [SourceMarks],
) -> Result<Vec<ModuleView<'s, 'b, 'm>>, AllocError>
    requires few { length sources.now ≤ MOST_SOURCES }
    requires program { IsProgramOf (texts_of sources.now) (program_modules built.now.program) }
    requires marked { AreMarksOf (program_modules built.now.program) built.now.objects marks.now }
    ensures { IfOk result (λ views. AreViews (texts_of sources.now) built.now views.items) }
{
    let plan = built.plan();
    let mut code_base = plan.code as u32;
    let mut data_base = plan.data_base as u32;
    let mut views = Vec::new(alloc);
    for number in 0..built.objects().len() {
        let view = view_of(built, sources, marks, number, code_base, data_base);
        code_base += view.object.length(Segment::Code) as u32;
        data_base += view.object.length(Segment::Data) as u32;
        views.push(view)?;
    }
    Ok(views)
}
