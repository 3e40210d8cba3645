//! The code of procedures and of the main program.

ghost use Rattle.std.specs.Prelude.{◌≡◌, ◌++◌, IfOk, OnOk};
ghost use Rattle.treecode.specs.internal.Nodes.{nodes_of};
ghost use Rattle.treecode.specs.internal.Rising.{NumbersRise};
ghost use Rattle.steps8080.specs.internal.Step.{label_after, label_of};
ghost use Rattle.codegen8080.specs.internal.Modules.{IsFrameOf};
ghost use Rattle.codegen8080.specs.internal.Standing.{BodyStands};
ghost use Rattle.codegen8080.specs.internal.Procedures.{entry_labels, entry_steps};
ghost use Rattle.codegen8080.specs.internal.Bodies.{AddsEnd, AddsEntry, AddsMain, AddsOwn, AddsProcedure};

use crate::carrying::site_of;
use crate::generator::Generator;
use crate::marking::OwnPart;
use crate::procedures::{plan_end, plan_entry};
use asm8080::WordForm;
use exprgen8080::{LabelNumber, Step};
use frames::{FramePlan, plan as frame_plan};
use isa8080::{Instr, Pair};
use statements8080::Body;
use std::alloc::{AllocError, Global};
use treecode::{ProcedureKind, TreeModule, TreeProcedure};

// The plan of the frame of a procedure.
#[tactic(auto, using(crate::proofs::BodyParts::frame_is))]
fn frame_of(alloc: Global, procedure: &TreeProcedure) -> Result<FramePlan, AllocError>
    ensures { IfOk result (λ plan. IsFrameOf procedure.now plan) }
{
    frame_plan(alloc, procedure)
}

// A body with the next labels of the code for its labels.
fn body_of<'a>(
    generator: &mut Generator,
    tree: &'a TreeModule,
    procedure: &'a TreeProcedure,
    frame: &'a FramePlan,
) -> Body<'a>
    ensures tree { result.tree.now ≡ tree.now }
    ensures procedure { result.procedure.now ≡ procedure.now }
    ensures frame { result.frame.now ≡ frame.now }
    ensures first { result.first_label ≡ label_of generator.old.emission.steps.labels }
    ensures labels { generator.new.emission.steps.labels
        ≡ label_after generator.old.emission.steps.labels procedure.now.label_count }
    ensures emission { generator.new.emission
        ≡ record (generator.old.emission) { steps = generator.new.emission.steps } }
{
    let steps = &mut generator.emission.steps;
    Body {
        tree,
        procedure,
        frame,
        first_label: steps.labels(procedure.label_count),
    }
}

// Plans the entry of a procedure, with the next labels.
#[tactic(auto, using(crate::proofs::Planning::next_is_free, crate::proofs::Planning::labels_are_taken))]
fn plan_next_entry(generator: &mut Generator, body: &Body<'_>) -> Result<(), AllocError>
    ensures plan { OnOk result (generator.new.plan.list.items ≡ generator.old.plan.list.items
        ++ entry_steps body.now generator.old.emission.steps.labels) }
    ensures labels { OnOk result (generator.new.emission.steps.labels
        ≡ label_after generator.old.emission.steps.labels (entry_labels body.now)) }
    ensures emission { generator.new.emission
        ≡ record (generator.old.emission) { steps = generator.new.emission.steps } }
    ensures goes_on { generator.new.goes_on ≡ generator.old.goes_on }
{
    let first = generator.emission.steps.labels(0);
    generator.plan.take_labels_from(first);
    plan_entry(body, &mut generator.plan)?;
    let _ = generator.emission.steps.labels(generator.plan.taken());
    Ok(())
}

// Adds the entry of a procedure.
fn put_entry(generator: &mut Generator, body: &Body<'_>) -> Result<(), AllocError>
    requires { NumbersRise (nodes_of body.now.tree.now) }
    ensures { OnOk result (AddsEntry body.now generator.old generator.new) }
{
    let start = generator.plan.count();
    plan_next_entry(generator, body)?;
    generator.planned(body, start, 0)
}

// Adds the end of a procedure, if it can be reached.
fn put_end(generator: &mut Generator, body: &Body<'_>) -> Result<(), AllocError>
    requires { NumbersRise (nodes_of body.now.tree.now) }
    ensures { OnOk result (AddsEnd body.now generator.old generator.new) }
{
    if !body.procedure.reaches_its_end {
        return Ok(());
    }
    let start = generator.plan.count();
    plan_end(body, &mut generator.plan)?;
    generator.planned(body, start, 0)
}

// Adds the code of a procedure that is not EXTERNAL.
fn put_own(
    alloc: Global,
    generator: &mut Generator,
    tree: &TreeModule,
    procedure: &TreeProcedure,
    entry: LabelNumber,
) -> Result<(), AllocError>
    requires rise { NumbersRise (nodes_of tree.now) }
    requires stands { BodyStands tree.now procedure.now }
    ensures { OnOk result (AddsOwn tree.now entry.index procedure.now generator.old generator.new) }
{
    let frame = frame_of(alloc, procedure)?;
    let body = body_of(generator, tree, procedure, &frame);
    let part = OwnPart::Procedure(entry.index);
    generator.marks.put(&generator.emission.writer, part)?;
    generator.emission.add(&site_of(&body), Step::Mark(entry))?;
    generator.goes_on = true;
    put_entry(generator, &body)?;
    generator.list(&body, procedure.body, tree.statements.len())?;
    put_end(generator, &body)?;
    Ok(())
}

/// Adds the code of the procedure with this number, unless it is EXTERNAL.
pub(crate) fn put_procedure(
    alloc: Global,
    generator: &mut Generator,
    tree: &TreeModule,
    procedure: &TreeProcedure,
    number: u32,
) -> Result<(), AllocError>
    requires rise { NumbersRise (nodes_of tree.now) }
    requires stands { BodyStands tree.now procedure.now }
    ensures { OnOk result (AddsProcedure tree.now number procedure.now generator.old generator.new) }
{
    match procedure.kind {
        ProcedureKind::External(_) => Ok(()),
        ProcedureKind::Static | ProcedureKind::Reentrant => put_own(
            alloc,
            generator,
            tree,
            procedure,
            LabelNumber { index: number },
        ),
    }
}

/// Adds the code of the main program, with a label at its start.
pub(crate) fn put_main(
    alloc: Global,
    generator: &mut Generator,
    tree: &TreeModule,
    entry: LabelNumber,
) -> Result<(), AllocError>
    requires rise { NumbersRise (nodes_of tree.now) }
    requires stands { BodyStands tree.now tree.now.main }
    ensures { OnOk result (AddsMain tree.now entry.index generator.old generator.new) }
{
    let frame = FramePlan::empty(alloc);
    let body = body_of(generator, tree, &tree.main, &frame);
    let part = OwnPart::Main;
    generator.marks.put(&generator.emission.writer, part)?;
    generator.emission.add(&site_of(&body), Step::Mark(entry))?;
    generator
        .emission
        .writer
        .stack_end(WordForm::LoadPair(Pair::Sp))?;
    generator.list(&body, tree.main.body, tree.statements.len())?;
    generator
        .emission
        .add(&site_of(&body), Step::Plain(Instr::Hlt))?;
    Ok(())
}
