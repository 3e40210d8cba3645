//! The code of procedures and modules.

ghost use Rattle.std.specs.Prelude.{◌≡◌, ℕ, ◌<◌, ◌++◌, length, map, OnOk};
ghost use Rattle.typed_trees.specs.Views.{list_view, module_view, procedure_view};
ghost use Rattle.placing.specs.Views.{placement_view};
ghost use Rattle.meaning.specs.Access.{home_of};
ghost use Rattle.stack_code.specs.internal.Code.{main_code, parameter_code, parameters_code, procedure_code, surroundings_at};
ghost use Rattle.stack_compiler.specs.internal.Counted.{HaveParts, Numbers, NumbersIn, numbered_bodies, numbered_body, numbered_list};
ghost use Rattle.stack_compiler.specs.internal.Marked.{AreMarksOf};
ghost use Rattle.stack_compiler.specs.internal.Sequences.{modules_code_from, procedures_code_from};
ghost use Rattle.stack_compiler.specs.internal.Sites.{site_view};

use crate::marking::{Marks, ProgramMarks, StackPart};
use crate::purpose::{emit, emit_all};
use crate::site::Site;
use crate::statements::emit_list;
use resolving::{Program, Storage};
use stack_code::Instruction;
use std::alloc::{AllocError, Global};
use trees::ScalarType;
use typed_trees::{Typed, TypedProcedure};

// An argument goes to its parameter.
#[tactic(auto, using(crate::proofs::Storages::parameter_in_frame, crate::proofs::Storages::parameter_with_base, crate::proofs::Storages::parameter_in_memory))]
fn parameter_code(site: &Site<'_>, index: usize, scalar: ScalarType, object: u32) -> Instruction
    ensures { result ≡ parameter_code (site_view site.now)
        (home_of (surroundings_at (site_view site.now)) object) index scalar object }
{
    match site.storage_of(object) {
        Storage::Frame => Instruction::FrameParameter {
            index,
            scalar,
            object,
        },
        Storage::Base(_) | Storage::Memory => Instruction::Parameter {
            index,
            scalar,
            address: site.address_of(object),
        },
    }
}

// The arguments go to the parameters, from the first one on.
#[tactic(auto, using(crate::proofs::ProcedureLoops::parameter_emitted, crate::proofs::ProcedureLoops::parameters_short, crate::proofs::ProcedureLoops::parameters_emitted))]
fn emit_parameters(
    site: &Site<'_>,
    code: &mut Vec<Instruction>,
    scalars: &[ScalarType],
    objects: &[u32],
) -> Result<(), AllocError>
    ensures { OnOk result (code.new.items
        ≡ code.old.items ++ parameters_code (site_view site.now) 0 scalars.now objects.now) }
{
    let mut places = objects;
    for (index, scalar) in scalars.iter().enumerate() {
        let [object, more @ ..] = places else {
            break;
        };
        emit(code, parameter_code(site, index, *scalar, *object))?;
        places = more;
    }
    Ok(())
}

// A procedure, by its number in the module.
#[tactic(auto, using(crate::proofs::ProcedureLoops::procedure_made))]
fn emit_procedure(
    site: &Site<'_>,
    code: &mut Vec<Instruction>,
    marks: &mut Marks,
    number: usize,
    procedure: &TypedProcedure,
) -> Result<(), AllocError>
    ensures code { OnOk result (code.new.items ≡ code.old.items
        ++ procedure_code (site_view site.now) (number, procedure_view procedure.now)) }
    ensures numbers { OnOk result ((procedures : ℕ) → number < procedures
        → NumbersIn procedures 0 (numbered_body (procedure_view procedure.now)) marks.old marks.new) }
{
    marks.put(code, StackPart::Procedure(number))?;
    emit(
        code,
        Instruction::Begin {
            module: site.number_of_module,
            procedure: number,
        },
    )?;
    emit_parameters(
        site,
        code,
        procedure.parameter_types.as_slice(),
        procedure.parameters.as_slice(),
    )?;
    emit(code, Instruction::Discard)?;
    emit_list(site, code, marks, &procedure.body)?;
    emit_all(code, &[Instruction::Push(0), Instruction::Return])
}

// The procedures of a module.
#[tactic(auto, using(crate::proofs::Counted::so_far_nothing))]
fn emit_procedures(
    site: &Site<'_>,
    code: &mut Vec<Instruction>,
    marks: &mut Marks,
    procedures: &[TypedProcedure],
) -> Result<(), AllocError>
    ensures code { OnOk result (code.new.items ≡ code.old.items
        ++ procedures_code_from (site_view site.now) 0 (map procedure_view procedures.now)) }
    ensures numbers { OnOk result (NumbersIn (length (map procedure_view procedures.now)) 0
        (numbered_bodies (map procedure_view procedures.now)) marks.old marks.new) }
{
    for (number, procedure) in procedures.iter().enumerate() {
        emit_procedure(site, code, marks, number, procedure)?;
    }
    Ok(())
}

// The procedures of the module.
fn emit_module(
    site: &Site<'_>,
    code: &mut Vec<Instruction>,
    marks: &mut Marks,
    typed: &Typed,
) -> Result<(), AllocError>
    ensures code { OnOk result (code.new.items ≡ code.old.items
        ++ procedures_code_from (site_view site.now) 0 (map procedure_view typed.now.procedures.items)) }
    ensures numbers { OnOk result (NumbersIn (length (map procedure_view typed.now.procedures.items)) 0
        (numbered_bodies (map procedure_view typed.now.procedures.items)) marks.old marks.new) }
{
    emit_procedures(site, code, marks, typed.procedures.as_slice())
}

/// The procedures of all modules of a program.
pub(crate) fn emit_modules(
    alloc: Global,
    program: &Program<'_>,
    code: &mut Vec<Instruction>,
    marks: &mut ProgramMarks,
) -> Result<(), AllocError>
    requires marks { AreMarksOf (length program.now.modules.now) marks.old }
    ensures code { OnOk result (code.new.items ≡ code.old.items
        ++ modules_code_from (map module_view program.now.modules.now)
        (placement_view program.now.placement.now) 0 (map module_view program.now.modules.now)) }
    ensures marks { OnOk result (AreMarksOf (length program.now.modules.now) marks.new) }
    ensures main { OnOk result (marks.new.main_module ≡ marks.old.main_module) }
    ensures parts { OnOk result (HaveParts (map module_view program.now.modules.now) marks.old
        → HaveParts (map module_view program.now.modules.now) marks.new) }
{
    let modules = program.modules;
    for (number_of_module, typed) in modules.iter().enumerate() {
        let site = Site {
            alloc,
            program: &*program,
            number_of_module,
        };
        let mut own = marks.of_module(alloc);
        emit_module(&site, code, &mut own, typed)?;
        marks.add_module(number_of_module, &own)?;
    }
    Ok(())
}

/// The main program of a module, which ends the program.
#[tactic(auto, using(std::proofs::lemmas::List::append_assoc))]
pub(crate) fn emit_main(
    alloc: Global,
    program: &Program<'_>,
    code: &mut Vec<Instruction>,
    marks: &mut Marks,
    number_of_module: usize,
    typed: &Typed,
) -> Result<(), AllocError>
    ensures code { OnOk result (code.new.items ≡ code.old.items
        ++ main_code (map module_view program.now.modules.now) (placement_view program.now.placement.now)
        (number_of_module, module_view typed.now)) }
    ensures numbers { OnOk result (Numbers 0
        (numbered_list (list_view typed.now.main.body))
        marks.old
        marks.new) }
{
    let site = Site {
        alloc,
        program: &*program,
        number_of_module,
    };
    emit_list(&site, code, marks, &typed.main.body)?;
    emit(code, Instruction::Halt)
}
