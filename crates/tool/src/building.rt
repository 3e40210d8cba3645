//! From sources to a program at its places.

ghost use Rattle.std.specs.Prelude.{◌≡◌, ℕ, ◌<◌, length, map, Err, IfOk};
ghost use Rattle.words.specs.declared.limits.TheConstants.{LONGEST_SOURCE};
ghost use Rattle.failure.specs.Failure.{IfFault};
ghost use Rattle.typed_trees.specs.Views.{module_view};
ghost use Rattle.layout.specs.Storage.{storage_with};
ghost use Rattle.layout.specs.Views.{layout_view};
ghost use Rattle.generation.specs.internal.Typed.{AreSoundlyMade};
ghost use Rattle.sources.specs.Programs.{IsProgramOf, program_modules, text_of, texts_of};
ghost use Rattle.tool.specs.Construction.{IsConstruction};
ghost use Rattle.tool.specs.Headline.{DoesWhatItSays};
ghost use Rattle.tool.specs.Made.{code_lengths};
ghost use Rattle.tool.specs.Marks.{LieInEach};
ghost use Rattle.tool.specs.Sources.{HasCause, IsInOrder};
ghost use Rattle.tool.specs.Refusals.{IsRefusedBy};
ghost use Rattle.tool.specs.internal.Compiling.{HasBuildCause, IsBuiltFrom};

use crate::built::Built;
use crate::compiled::{Parts, compile_all, parts_of};
use crate::fault::ToolFault;
use crate::image::image_of;
use failure::Failure;
use mem80::Plan;
use sources::{MOST_SOURCES, Source, place_program};
use std::alloc::Global;

/// Reads the sources, makes their object modules, joins and places the program as planned, and makes its image.
pub fn build(alloc: Global, sources: &[Source], plan: &Plan) -> Result<Built, Failure<ToolFault>>
    ensures program { IfOk result
        (λ built. IsProgramOf (texts_of sources.now) (program_modules built.program)) }
    ensures plan { IfOk result (λ built. built.plan ≡ plan.now) }
    ensures headline { IfOk result
        (λ built. DoesWhatItSays
        (program_modules built.program) built.placement built.plan.stack_size built.image) }
    ensures construction { IfOk result IsConstruction }
    ensures refused { IfFault result (λ fault. HasCause fault (texts_of sources.now) plan.now) }
    ensures order { IfFault result (λ fault. IsInOrder fault (texts_of sources.now)) }
    ensures too_many { MOST_SOURCES < length sources.now
        → result ≡ Err (Failure.Fault ToolFault.TooManySources) }
    ensures too_long { (file : ℕ) → file < length sources.now
        → LONGEST_SOURCE < length (text_of (texts_of sources.now) file) → IsRefusedBy file result }
{
    if sources.len() > MOST_SOURCES {
        return Err(Failure::Fault(ToolFault::TooManySources));
    }
    build_few(alloc, sources, plan)
}

// Builds the program of at most as many sources as there may be.
fn build_few(alloc: Global, sources: &[Source], plan: &Plan) -> Result<Built, Failure<ToolFault>>
    ensures program { IfOk result
        (λ built. IsProgramOf (texts_of sources.now) (program_modules built.program)) }
    ensures plan { IfOk result (λ built. built.plan ≡ plan.now) }
    ensures refused { IfFault result (λ fault. HasCause fault (texts_of sources.now) plan.now) }
    ensures order { IfFault result (λ fault. IsInOrder fault (texts_of sources.now)) }
{
    let compiled = compile_all(alloc, sources)?;
    let parts = parts_of(alloc, compiled)?;
    let built = build_program(alloc, parts, plan)?;
    Ok(built)
}

// Joins and places the program of object modules, and makes its image.
fn build_program(alloc: Global, parts: Parts, plan: &Plan) -> Result<Built, Failure<ToolFault>>
    requires storages { map layout_view parts.storages.items
        ≡ map (λ typed. storage_with (module_view typed)) parts.modules.items }
    requires lengths { parts.lengths.items ≡ code_lengths parts.objects.items }
    requires made { AreSoundlyMade (map module_view parts.modules.items) parts.objects.items }
    requires marked { LieInEach (map module_view parts.modules.items) parts.objects.items parts.marks.items }
    ensures program { IfOk result (IsBuiltFrom (map module_view parts.modules.items) plan.now) }
    ensures refused { IfFault result
        (λ fault. HasBuildCause fault (map module_view parts.modules.items) parts.lengths.items plan.now) }
{
    let Parts {
        modules,
        storages,
        objects,
        lengths,
        marks,
    } = parts;
    let placed = match place_program(
        alloc,
        modules,
        storages.as_slice(),
        lengths.as_slice(),
        plan,
    ) {
        Ok(placed) => placed,
        Err(Failure::Fault(fault)) => return Err(Failure::Fault(ToolFault::Program(fault))),
        Err(Failure::Memory) => return Err(Failure::Memory),
    };
    let image = image_of(alloc, objects.as_slice(), plan)?;
    Ok(Built::new(placed, *plan, objects, image, marks))
}
