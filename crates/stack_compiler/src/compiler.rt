//! Compiling a program.

ghost use Rattle.std.specs.Prelude.{◌≡◌, ◌<◌, length, map, slice_get, Some, IfOk};
ghost use Rattle.typed_trees.specs.Views.{list_view, module_view};
ghost use Rattle.layout.specs.Joined.{is_main};
ghost use Rattle.meaning.specs.Run.{number_of_main};
ghost use Rattle.join.specs.Views.{modules_of};
ghost use Rattle.placing.specs.Views.{placement_view};
ghost use Rattle.stack_code.specs.internal.Code.{program_code};
ghost use Rattle.stack_compiler.specs.internal.Compiled.{IsCompiled};
ghost use Rattle.stack_compiler.specs.internal.Counted.{AreInModules, HaveParts, Numbers, numbered_list};
ghost use Rattle.stack_compiler.specs.internal.MainCode.{IsCodeOf};
ghost use Rattle.stack_compiler.specs.internal.Marked.{AreMarksOf, AreOfModules, first_place};

use crate::marking::{Marks, ProgramMarks, StackMark};
use crate::procedures::{emit_main, emit_modules};
use crate::tables::tables_of;
use join::Joined;
use placing::Placement;
use resolving::Program;
use stack_code::{Instruction, StackProgram};
use std::alloc::{AllocError, Global};
use typed_trees::Typed;

// Whether a module has statements at its outer level.
fn is_main(typed: &Typed) -> bool
    ensures { result ≡ is_main (module_view typed.now) }
{
    !typed.main.body.statements.as_slice().is_empty()
}

// The number of the main module, or 0 where no module has statements at its outer level.
#[tactic(auto, using(crate::proofs::MainModules::main_found, crate::proofs::MainModules::main_passed, crate::proofs::MainModules::no_main, crate::proofs::MainModules::main_is))]
fn number_of_main(modules: &[Typed]) -> usize
    ensures number { result ≡ number_of_main (map module_view modules.now) }
    ensures within { 0 < length modules.now → result < length modules.now }
{
    for (number, typed) in modules.iter().enumerate() {
        if is_main(typed) {
            return number;
        }
    }
    0
}

// The code of a program whose main module has a number.
#[tactic(auto, using(crate::proofs::ProcedureLoops::program_made))]
fn code_with_main(
    alloc: Global,
    program: &Program<'_>,
    of_main: &mut Marks,
    marks: &mut ProgramMarks,
    number: usize,
    main: &Typed,
) -> Result<Vec<Instruction>, AllocError>
    requires marks { AreMarksOf (length program.now.modules.now) marks.old }
    ensures code { IfOk result (λ code. code.items ≡ program_code (map module_view program.now.modules.now)
        (placement_view program.now.placement.now) number (module_view main.now)) }
    ensures marks { IfOk result (λ code. AreMarksOf (length program.now.modules.now) marks.new) }
    ensures main { IfOk result (λ code. marks.new.main_module ≡ marks.old.main_module) }
    ensures parts { IfOk result (λ code. HaveParts (map module_view program.now.modules.now) marks.old
        → HaveParts (map module_view program.now.modules.now) marks.new) }
    ensures numbers { IfOk result (λ code.
        Numbers 0 (numbered_list (list_view main.now.main.body)) of_main.old of_main.new) }
{
    let mut code = Vec::new(alloc);
    emit_main(alloc, program, &mut code, of_main, number, main)?;
    emit_modules(alloc, program, &mut code, marks)?;
    Ok(code)
}

// The code of a program, nothing where it has no modules.
#[tactic(auto, using(crate::proofs::MainModules::code_made, crate::proofs::MainModules::code_of_none))]
fn code_of(alloc: Global, program: &Program<'_>) -> Result<Vec<Instruction>, AllocError>
    ensures { IfOk result (λ code. IsCodeOf (map module_view program.now.modules.now)
        (placement_view program.now.placement.now) code.items) }
{
    let modules = program.modules;
    let number = number_of_main(modules);
    match modules.get(number) {
        Some(main) => {
            let mut of_main = Marks::new(alloc, false);
            let mut marks = ProgramMarks::new(alloc, false, number);
            let code = code_with_main(alloc, program, &mut of_main, &mut marks, number, main)?;
            Ok(code)
        }
        None => Ok(Vec::new(alloc)),
    }
}

// The code of a program with its tables.
#[tactic(auto, using(crate::proofs::MainModules::program_compiled))]
fn with_tables(
    alloc: Global,
    program: &Program<'_>,
    instructions: Vec<Instruction>,
) -> Result<StackProgram, AllocError>
    requires { IsCodeOf (map module_view program.now.modules.now)
        (placement_view program.now.placement.now) instructions.items }
    ensures { IfOk result (IsCompiled (map module_view program.now.modules.now)
        (placement_view program.now.placement.now)) }
{
    let modules = tables_of(alloc, program.modules, instructions.as_slice())?;
    Ok(StackProgram {
        instructions,
        modules,
    })
}

// The code of a program, with its tables.
fn compile_program(alloc: Global, program: &Program<'_>) -> Result<StackProgram, AllocError>
    ensures { IfOk result (IsCompiled (map module_view program.now.modules.now)
        (placement_view program.now.placement.now)) }
{
    let instructions = code_of(alloc, program)?;
    with_tables(alloc, program, instructions)
}

/// The stack code of a program at a placement, with its tables.
pub fn compile(
    alloc: Global,
    joined: &Joined,
    placement: &Placement,
) -> Result<StackProgram, AllocError>
    ensures { IfOk result (λ program.
        IsCompiled (map module_view (modules_of joined.now)) (placement_view placement.now) program) }
{
    let program = Program::new(alloc, joined, placement)?;
    compile_program(alloc, &program)
}

// The marks of the code of a program whose main module has a number.
#[tactic(auto, using(crate::proofs::Marked::program_marked))]
fn marks_with_main(
    alloc: Global,
    program: &Program<'_>,
    number: usize,
    main: &Typed,
) -> Result<Vec<StackMark>, AllocError>
    requires number { number < length program.now.modules.now }
    requires main { slice_get program.now.modules.now number ≡ Some main.now }
    ensures in_modules { IfOk result (λ marks.
        AreInModules (map module_view program.now.modules.now) marks.items) }
    ensures of_modules { IfOk result (λ marks.
        AreOfModules (length program.now.modules.now) marks.items) }
    ensures begins { IfOk result (λ marks. first_place marks.items ≡ Some 0) }
{
    let mut of_main = Marks::new(alloc, true);
    let mut marks = ProgramMarks::new(alloc, true, number);
    let code = code_with_main(alloc, program, &mut of_main, &mut marks, number, main)?;
    drop(code);
    let list = marks.with_main(alloc, &of_main)?;
    Ok(list)
}

// The marks of the code of a program, none where it has no modules.
fn marks_of(alloc: Global, program: &Program<'_>) -> Result<Vec<StackMark>, AllocError>
    ensures in_modules { IfOk result (λ marks.
        AreInModules (map module_view program.now.modules.now) marks.items) }
    ensures of_modules { IfOk result (λ marks.
        AreOfModules (length program.now.modules.now) marks.items) }
    ensures begins { 0 < length program.now.modules.now →
        IfOk result (λ marks. first_place marks.items ≡ Some 0) }
{
    let modules = program.modules;
    let number = number_of_main(modules);
    match modules.get(number) {
        Some(main) => marks_with_main(alloc, program, number, main),
        None => Ok(Vec::new(alloc)),
    }
}

/// Where the parts of the code that `compile` makes of a program begin, in the order of the code. Each is in a module of the
/// program, with a number below the count of its procedures or of its statements, and the first one is at the start of the code.
pub fn stack_marks(
    alloc: Global,
    joined: &Joined,
    placement: &Placement,
) -> Result<Vec<StackMark>, AllocError>
    ensures of_modules { IfOk result (λ marks. AreOfModules (length (modules_of joined.now)) marks.items) }
    ensures in_modules { IfOk result (λ marks.
        AreInModules (map module_view (modules_of joined.now)) marks.items) }
    ensures begins { 0 < length (modules_of joined.now) →
        IfOk result (λ marks. first_place marks.items ≡ Some 0) }
{
    let program = Program::new(alloc, joined, placement)?;
    let marks = marks_of(alloc, &program)?;
    Ok(marks)
}
