//! Object files whose merge is placed in memory.

ghost use Rattle.std.specs.Prelude.{◌≡◌, [], IfErr, IfOk, OnErr, OnOk, map};
ghost use Rattle.std.specs.List.{AllZip};
ghost use Rattle.host.specs.Files.{KeepsFiles};
ghost use Rattle.host.specs.Refusals.{TellsOther, TellsRefusal};
ghost use Rattle.host.specs.Failure.{IfFault};
ghost use Rattle.link.specs.Streams.{Merges};
ghost use Rattle.link.specs.internal.Causes.{HasNoMerge, IsFaultyAt};
ghost use Rattle.object_modules.specs.Spelling.{Spells};
ghost use Rattle.object_commands.specs.Merging.{PlacesMerge, PlacesTexts, RefusesPlacing, TellsNoMerge};

use crate::linking::{refuse_merge, slices_of};
use crate::refusals::refuse_place;
use host::{Ending, Failure, Files, read_files, refuse_file, refuse_memory};
use link::{Merged, StreamFault, link};
use locate::{Absolute, locate};
use mem80::Plan;
use object_modules::ObjectModule;
use objmod::read;
use std::alloc::Global;
use std::io::Write;

// The module that the file of this number spells.
fn module_of(
    alloc: Global,
    number: usize,
    text: &[u8],
) -> Result<ObjectModule, Failure<StreamFault>>
    ensures spelled { IfOk result (Spells text.now) }
    ensures fault { IfFault result (IsFaultyAt number text.now) }
{
    match read(alloc, text) {
        Ok(module) => Ok(module),
        Err(Failure::Fault(fault)) => Err(Failure::Fault(StreamFault::Object {
            file: number,
            fault,
        })),
        Err(Failure::Memory) => Err(Failure::Memory),
    }
}

// Puts the modules that files spell in their order.
#[tactic(auto, using(link::proofs::Reading::first_faulty))]
fn modules_of(
    alloc: Global,
    files: &[&[u8]],
    modules: &mut Vec<ObjectModule>,
) -> Result<(), Failure<StreamFault>>
    requires { modules.old.items ≡ [] }
    ensures spelled { OnOk result (AllZip Spells (map (λ file. file.now) files.now) modules.new.items) }
    ensures fault { IfFault result (HasNoMerge (map (λ file. file.now) files.now)) }
{
    for file in files {
        let module = module_of(alloc, modules.len(), file)?;
        modules.push(module)?;
    }
    Ok(())
}

// The merge of the modules that files spell.
fn merge_of(alloc: Global, files: &[&[u8]]) -> Result<Merged, Failure<StreamFault>>
    ensures merges { IfOk result (λ merged. Merges (map (λ file. file.now) files.now) merged.object) }
    ensures fault { IfFault result (HasNoMerge (map (λ file. file.now) files.now)) }
{
    let mut modules = Vec::new(alloc);
    modules_of(alloc, files, &mut modules)?;
    match link(alloc, modules.as_slice()) {
        Ok(merged) => Ok(merged),
        Err(Failure::Fault(fault)) => Err(Failure::Fault(StreamFault::Link(fault))),
        Err(Failure::Memory) => Err(Failure::Memory),
    }
}

// The merge of the modules that texts spell.
fn merge_texts(alloc: Global, texts: &[Vec<u8>]) -> Result<Merged, Failure<StreamFault>>
    ensures merges { IfOk result (λ merged. Merges (map (λ text. text.items) texts.now) merged.object) }
    ensures fault { IfFault result (HasNoMerge (map (λ text. text.items) texts.now)) }
{
    let slices = slices_of(alloc, texts)?;
    let merging = merge_of(alloc, slices.as_slice());
    drop(slices);
    merging
}

// Merges files with these texts, and places the merge by a plan, or prints why it can't.
#[tactic(auto, using(crate::proofs::Merged::places_texts, crate::proofs::Merged::tells_memory))]
fn place_texts<E: Write>(
    alloc: Global,
    texts: &[Vec<u8>],
    objects: &[&str],
    plan: &Plan,
    err: &mut E,
) -> Result<Absolute, Ending>
    ensures placed { IfOk result (PlacesTexts (map (λ text. text.items) texts.now) plan.now) }
    ensures refused { IfErr result (λ ending. ending ≡ Ending.Refused) }
    ensures told { OnErr result (TellsOther (E.contents err.old) (E.contents err.new)) }
    ensures cause { OnErr result
        (TellsNoMerge (map (λ name. name.now) objects.now) (map (λ text. text.items) texts.now) plan.now
        (E.contents err.old) (E.contents err.new)) }
    ensures silent { OnOk result (E.contents err.new ≡ E.contents err.old) }
{
    let merged = match merge_texts(alloc, texts) {
        Ok(merged) => merged,
        Err(Failure::Fault(fault)) => return Err(refuse_merge(&fault, objects, err)),
        Err(Failure::Memory) => return Err(refuse_memory(err)),
    };
    match locate(alloc, merged.module(), plan) {
        Ok(absolute) => Ok(absolute),
        Err(Failure::Fault(fault)) => Err(refuse_place(&fault, err)),
        Err(Failure::Memory) => Err(refuse_memory(err)),
    }
}

/// Merges object files in their order, as `link_files` does, and places the merge by a plan, or prints why it can't: the
/// line of the first file that can't be read, or of the first fault of the files, or of their merge, or of the plan, or
/// that memory ran out.
pub fn place_merge<F: Files, E: Write>(
    alloc: Global,
    objects: &[&str],
    plan: &Plan,
    files: &mut F,
    err: &mut E,
) -> Result<Absolute, Ending>
    ensures kept { KeepsFiles (F.files files.old) (F.files files.new) }
    ensures placed { IfOk result
        (PlacesMerge (F.files files.old) (map (λ name. name.now) objects.now) plan.now) }
    ensures refused { IfErr result (λ ending. ending ≡ Ending.Refused) }
    ensures told { OnErr result (TellsRefusal (F.files files.old) (map (λ name. name.now) objects.now)
        (F.failures files.old) (F.failures files.new) (E.contents err.old) (E.contents err.new)) }
    ensures cause { OnErr result
        (RefusesPlacing (F.files files.old) (map (λ name. name.now) objects.now) plan.now
        (F.failures files.old) (F.failures files.new) (E.contents err.old) (E.contents err.new)) }
    ensures silent { OnOk result (E.contents err.new ≡ E.contents err.old) }
    ensures count { OnOk result (F.failures files.new ≡ F.failures files.old) }
{
    let texts = match read_files(alloc, objects, files) {
        Ok(texts) => texts,
        Err(Failure::Fault((fault, name))) => return Err(refuse_file(fault, name, err)),
        Err(Failure::Memory) => return Err(refuse_memory(err)),
    };
    place_texts(alloc, texts.as_slice(), objects, plan, err)
}
