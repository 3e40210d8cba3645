//! Generation of object modules from modules of tree code.

ghost use Rattle.std.specs.Prelude.{◌≡◌, ◌<◌, ◌≤◌, length, Some, IfOk, OnOk};
ghost use Rattle.failure.specs.Failure.{IfFault};
ghost use Rattle.asm8080.specs.Assembled.{AllBound};
ghost use Rattle.treecode.specs.internal.Nodes.{nodes_of};
ghost use Rattle.treecode.specs.internal.Rising.{NumbersRise};
ghost use Rattle.codegen8080.specs.internal.Modules.{IsGenerated, IsWrittenWith, all_routines, constant_size, content_items, contents_items, has_main};
ghost use Rattle.codegen8080.specs.Marks.{BeginInCode, LieInCode, NamesBegin};
ghost use Rattle.codegen8080.specs.internal.Marking.{AreMarksOf};
ghost use Rattle.codegen8080.specs.internal.Refusals.{IsNoSegment, MayRefuse};
ghost use Rattle.codegen8080.specs.internal.Bodies.{AddsCalled, AddsCodeOfMain, AddsOwnCode, AddsProcedures, AddsRoutines, first_routines, last_routines, next_routines};
ghost use Rattle.codegen8080.specs.internal.Standing.{AllStand, BodiesStand, BodyStands};
ghost use Rattle.codegen8080.specs.internal.Segments.{KeepsFixes};
ghost use Rattle.codegen8080.specs.internal.Sources.{IsOfModule};
ghost use Rattle.codegen8080.specs.internal.Listing.{AreNamesOf, start_in};
ghost use Rattle.codegen8080.specs.internal.Names.{IsLinkable};
ghost use Rattle.steps8080.specs.internal.Externals.{Extends};
ghost use Rattle.steps8080.specs.internal.Writer.{Finishes, GrowsFor, NumbersNames, Writes, numbered};

use crate::bodies::{put_main, put_procedure};
use crate::fault::Fault;
use crate::generator::Generator;
use crate::marking::{Mark, Marks, is_called_at, procedure_places};
use crate::names::{ListedNames, listed_names, with_publics};
use crate::object::object_of;
use exprgen8080::{Externals, Finished, LabelNumber, Writer, routine_label};
use failure::Failure;
use object_modules::ObjectModule;
use runtime8080::Routine;
use std::alloc::{AllocError, Global};
use treecode::{Content, TreeModule, TreeProcedure};
use trees::next_number;

/// The code of a module, the label of its main program, whether each routine is called, and where the parts before the
/// routines begin.
pub(crate) struct ModuleCode {
    pub(crate) writer: Writer,
    pub(crate) start: LabelNumber,
    pub(crate) is_called: Vec<bool>,
    pub(crate) marks: Marks,
}

// Adds a piece of the contents of a segment.
fn put_content(writer: &mut Writer, content: Content) -> Result<(), AllocError>
    ensures { OnOk result (Writes writer.old writer.new (content_items content)) }
{
    match content {
        Content::Byte(value) => writer.byte(value),
        Content::Word(place) => writer.address(place),
        Content::Gap(count) => writer.gap(count),
    }
}

// Adds the contents of a segment.
#[tactic(auto, using(crate::proofs::ModuleParts::putting_begins, crate::proofs::ModuleParts::putting_ends))]
fn put_contents(writer: &mut Writer, contents: &[Content]) -> Result<(), AllocError>
    ensures { OnOk result (Writes writer.old writer.new (contents_items contents.now)) }
{
    let mut left = contents;
    while let [content, others @ ..] = left {
        put_content(writer, *content)?;
        left = others;
    }
    Ok(())
}

// Whether a module has a main program, that is, a statement at its outer level.
fn is_main(tree: &TreeModule) -> bool
    ensures { result ≡ has_main tree.now }
{
    tree.main.body.count > 0
}

// Adds the code of procedures, numbered from 0.
#[tactic(auto, using(crate::proofs::ModuleParts::standing_begins))]
fn put_procedures(
    alloc: Global,
    generator: &mut Generator,
    tree: &TreeModule,
    procedures: &[TreeProcedure],
) -> Result<(), AllocError>
    requires rise { NumbersRise (nodes_of tree.now) }
    requires stands { AllStand tree.now procedures.now }
    ensures { OnOk result (AddsProcedures tree.now 0 procedures.now generator.old generator.new) }
{
    let mut left = procedures;
    let mut number = 0;
    while let [procedure, others @ ..] = left {
        put_procedure(alloc, generator, tree, procedure, number)?;
        number = next_number(number)?;
        left = others;
    }
    Ok(())
}

// Adds the code of a main program, with a label at its start, if there is one.
#[tactic(auto, using(crate::proofs::ModuleParts::main_there, crate::proofs::ModuleParts::no_main_there))]
fn put_main_if_any(
    alloc: Global,
    generator: &mut Generator,
    tree: &TreeModule,
    start: LabelNumber,
) -> Result<(), AllocError>
    requires rise { NumbersRise (nodes_of tree.now) }
    requires stands { BodyStands tree.now tree.now.main }
    ensures { OnOk result (AddsCodeOfMain tree.now start.index generator.old generator.new) }
{
    if is_main(tree) {
        put_main(alloc, generator, tree, start)
    } else {
        Ok(())
    }
}

// Adds the routine with this index, if it is called.
fn with_called(
    writer: Writer,
    tree: &TreeModule,
    is_called: &[bool],
    index: u32,
    routine: Routine,
) -> Result<Writer, AllocError>
    ensures { IfOk result (λ after. AddsCalled tree.now is_called.now index routine writer after) }
{
    if is_called_at(is_called, index) {
        writer.with_routine(routine, routine_label(tree, index))
    } else {
        Ok(writer)
    }
}

// Adds the routines of arithmetic that are called.
fn with_arithmetic(
    writer: Writer,
    tree: &TreeModule,
    is_called: &[bool],
) -> Result<Writer, AllocError>
    ensures { IfOk result (λ after. AddsRoutines tree.now is_called.now first_routines writer after) }
{
    let writer = with_called(writer, tree, is_called, 0, Routine::Multiply)?;
    let writer = with_called(writer, tree, is_called, 1, Routine::Divide)?;
    let writer = with_called(writer, tree, is_called, 2, Routine::ShiftLeftByte)?;
    Ok(writer)
}

// Adds the other shift routines that are called.
fn with_shifts(writer: Writer, tree: &TreeModule, is_called: &[bool]) -> Result<Writer, AllocError>
    ensures { IfOk result (λ after. AddsRoutines tree.now is_called.now next_routines writer after) }
{
    let writer = with_called(writer, tree, is_called, 3, Routine::ShiftRightByte)?;
    let writer = with_called(writer, tree, is_called, 4, Routine::ShiftLeftAddress)?;
    let writer = with_called(writer, tree, is_called, 5, Routine::ShiftRightAddress)?;
    Ok(writer)
}

// Adds the rotations and MOVE, if they are called.
fn with_others(writer: Writer, tree: &TreeModule, is_called: &[bool]) -> Result<Writer, AllocError>
    ensures { IfOk result (λ after. AddsRoutines tree.now is_called.now last_routines writer after) }
{
    let writer = with_called(writer, tree, is_called, 6, Routine::RotateLeft)?;
    let writer = with_called(writer, tree, is_called, 7, Routine::RotateRight)?;
    let writer = with_called(writer, tree, is_called, 8, Routine::Move)?;
    Ok(writer)
}

// Adds the routines that are called.
fn with_routines(
    writer: Writer,
    tree: &TreeModule,
    is_called: &[bool],
) -> Result<Writer, AllocError>
    ensures { IfOk result (λ after. AddsRoutines tree.now is_called.now all_routines writer after) }
{
    let writer = with_arithmetic(writer, tree, is_called)?;
    let writer = with_shifts(writer, tree, is_called)?;
    let writer = with_others(writer, tree, is_called)?;
    Ok(writer)
}

// Adds the constants of a module, its main program and its procedures. Returns the label of the main program.
fn put_own_code(
    alloc: Global,
    generator: &mut Generator,
    tree: &TreeModule,
) -> Result<LabelNumber, AllocError>
    requires rise { NumbersRise (nodes_of tree.now) }
    requires stands { BodiesStand tree.now }
    ensures { IfOk result (λ start. AddsOwnCode tree.now start.index generator.old generator.new) }
{
    put_contents(&mut generator.emission.writer, tree.constants.as_slice())?;
    generator.marks.begin(&generator.emission.writer);
    let start = generator.emission.steps.label();
    put_main_if_any(alloc, generator, tree, start)?;
    put_procedures(alloc, generator, tree, tree.procedures.as_slice())?;
    Ok(start)
}

// Fails if as many labels are in use as 32 bits count.
fn within_labels(generator: &Generator) -> Result<(), AllocError>
    ensures { OnOk result (generator.now.emission.steps.labels < 4294967295) }
{
    if generator.emission.steps.labels < u32::MAX {
        Ok(())
    } else {
        // A counter ends: the last label may be taken twice.
        Err(AllocError)
    }
}

/// The code segment of a module: its constants, its main program, its procedures and the routines that these call.
pub(crate) fn code_of(alloc: Global, tree: &TreeModule) -> Result<ModuleCode, AllocError>
    requires rise { NumbersRise (nodes_of tree.now) }
    requires stands { BodiesStand tree.now }
    requires source { IsOfModule tree.now }
    ensures written { IfOk result
        (λ code. IsWrittenWith tree.now code.start.index code.is_called.items code.writer) }
    ensures bound { IfOk result (λ code. AllBound code.writer.code) }
{
    let mut generator = Generator::new(alloc, tree)?;
    let start = put_own_code(alloc, &mut generator, tree)?;
    within_labels(&generator)?;
    let (emission, marks) = generator.into_parts();
    let (writer, is_called) = emission.into_code();
    let writer = with_routines(writer, tree, is_called.as_slice())?;
    Ok(ModuleCode {
        writer,
        start,
        is_called,
        marks,
    })
}

// The data segment of a module. It uses the same numbers of EXTERNAL names as the code.
fn variables_of(
    alloc: Global,
    tree: &TreeModule,
    externals: Externals,
) -> Result<Writer, AllocError>
    ensures items { IfOk result (λ written. numbered written (contents_items tree.now.variables.items)
        ≡ Some written.code.items) }
    ensures externals { IfOk result (λ written. Extends externals written.externals) }
    ensures grown { IfOk result (λ written. GrowsFor externals written.externals
        (contents_items tree.now.variables.items)) }
    ensures names { IfOk result (λ written. NumbersNames externals written.externals
        (contents_items tree.now.variables.items)) }
    ensures bound { IfOk result (λ written. AllBound written.code) }
{
    let mut writer = Writer::sharing(alloc, externals);
    put_contents(&mut writer, tree.variables.as_slice())?;
    Ok(writer)
}

/// Code as bytes, and the EXTERNAL names that it refers to.
#[tactic(auto, using(crate::proofs::KeptSegments::finished_keeps, crate::proofs::Refused::too_long))]
pub(crate) fn finish(writer: Writer) -> Result<(Finished, Externals), Failure<Fault>>
    requires bound { AllBound writer.code }
    ensures keeps { IfOk result (λ both. KeepsFixes both.0.bytes) }
    ensures finishes { IfOk result (λ both. Finishes writer both.0.bytes both.0.labels.items) }
    ensures externals { IfOk result (λ both. both.1 ≡ writer.externals) }
    ensures refused { IfFault result (λ fault. IsNoSegment fault writer) }
{
    match writer.finish() {
        Ok(both) => Ok(both),
        Err(Failure::Fault(asm8080::Fault::TooLong)) => Err(Failure::Fault(Fault::TooLong)),
        // Each label of the code is bound.
        Err(Failure::Fault(asm8080::Fault::UnboundLabel)) => unreachable!(),
        Err(Failure::Memory) => Err(Failure::Memory),
    }
}

// The offset at which the code of a main program begins.
fn start_of(tree: &TreeModule, code: &Finished, start: LabelNumber) -> Option<u16>
    ensures { result ≡ start_in tree.now code.now.bytes code.now.labels.items start.index }
{
    if is_main(tree) {
        Some(code.place(start))
    } else {
        None
    }
}

// The names of a module, as its object module lists them.
fn names_of(
    alloc: Global,
    tree: &TreeModule,
    externals: &Externals,
    code: &Finished,
) -> Result<ListedNames, AllocError>
    requires within { length externals.now ≤ length tree.now.externals.items }
    requires linkable { IsLinkable tree.now }
    ensures { IfOk result (λ names. AreNamesOf tree.now externals.now code.now.bytes code.now.labels.items
        names.numbers.items names.names) }
{
    let listed = listed_names(alloc, tree.externals.as_slice(), externals)?;
    let listed = with_publics(listed, tree, code)?;
    Ok(listed)
}

/// Where the parts of the code of a module begin, in the order of the code, and where the code of each of its procedures
/// begins, by its number.
#[derive(Drop)]
pub struct CodeMarks {
    pub parts: Vec<Mark>,
    pub procedures: Vec<u16>,
}

/// What is made of a module: its object module, and the marks of its code.
#[derive(Drop)]
pub struct Generated {
    pub object: ObjectModule,
    pub marks: CodeMarks,
}

/// The object module of a module: its constants and its code in the code segment, its variables in the data segment,
/// its PUBLIC names, and the EXTERNAL names that it refers to; and the marks of its code. A module is refused only if its
/// code or its data exceed 65535 bytes.
pub fn generate(alloc: Global, tree: &TreeModule) -> Result<Generated, Failure<Fault>>
    requires rise { NumbersRise (nodes_of tree.now) }
    requires stands { BodiesStand tree.now }
    requires linkable { IsLinkable tree.now }
    requires source { IsOfModule tree.now }
    ensures made { IfOk result (λ generated. IsGenerated tree.now generated.object) }
    ensures marked { IfOk result
        (λ generated. AreMarksOf tree.now generated.marks.parts.items generated.marks.procedures.items) }
    ensures within { IfOk result
        (λ generated. LieInCode (constant_size tree.now) generated.object generated.marks.parts.items) }
    ensures begin { IfOk result (λ generated. BeginInCode (constant_size tree.now) generated.object
        tree.now.procedures.items generated.marks.procedures.items) }
    ensures named { IfOk result (λ generated. NamesBegin generated.object.publics
        generated.marks.procedures.items tree.now.publics.items) }
    ensures refused { IfFault result (λ fault. MayRefuse tree.now fault) }
{
    let ModuleCode {
        writer,
        start,
        is_called,
        marks,
    } = code_of(alloc, tree)?;
    let (code, externals) = finish(writer)?;
    let marks = marks.with_routines(alloc, tree, &code, is_called.as_slice())?;
    let procedures = procedure_places(alloc, tree, &code)?;
    let (variables, externals) = finish(variables_of(alloc, tree, externals)?)?;
    let listed = names_of(alloc, tree, &externals, &code)?;
    let start = start_of(tree, &code, start);
    let (names, numbers) = listed.into_parts();
    let object = object_of(
        alloc,
        tree.name,
        code.into_bytes(),
        variables.into_bytes(),
        names,
        numbers.as_slice(),
        start,
    )?;
    Ok(Generated {
        object,
        marks: CodeMarks {
            parts: marks,
            procedures,
        },
    })
}
