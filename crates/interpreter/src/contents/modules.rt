//! The modules of a program.

ghost use Rattle.std.specs.Prelude.{◌≡◌};
ghost use Rattle.layout.specs.StartingMemory.{starting_memory};
ghost use Rattle.placing.specs.Views.{module_placement_view};
ghost use Rattle.resolving.specs.internal.Views.{program_view, site_view};
ghost use Rattle.interpreter.specs.internal.Contents.{contents_at, with_all};

use crate::contents::objects::{put_lists, put_objects};
use mem80::Memory;
use placing::ModulePlacement;
use resolving::{Program, Site};

// Puts what a module has where it lies.
#[tactic(auto, using(crate::proofs::ModuleLoops::no_module_put))]
fn put_module(site: &Site<'_>, memory: &mut Memory, placed: &ModulePlacement)
    ensures { memory.new
        ≡ with_all memory.old (contents_at (site_view site.now) (module_placement_view placed.now)) }
{
    let Some(typed) = site.program.modules.get(site.number_of_module) else {
        return;
    };
    put_objects(
        site,
        memory,
        typed.objects.as_slice(),
        placed.objects.as_slice(),
    );
    put_lists(memory, typed.lists.as_slice(), placed.lists.as_slice());
}

/// Puts the INITIAL values, the DATA and the constant lists of a program into a memory, where they lie; all else of the
/// memory stays. Nothing is put past the end of memory.
pub fn fill(program: &Program<'_>, memory: &mut Memory)
    ensures { memory.new
        ≡ starting_memory (program_view program.now).modules (program_view program.now).placement memory.old }
{
    let placements = program.placement.modules();
    for (number_of_module, placed) in placements.iter().enumerate() {
        let site = Site {
            program: &*program,
            number_of_module,
        };
        put_module(&site, memory, placed);
    }
}
