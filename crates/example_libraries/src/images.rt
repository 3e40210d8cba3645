//! From the bytes of object files to an image, by the libraries: each file is read, the modules are linked, and the
//! merge is placed.

ghost use Rattle.std.specs.Prelude.{IfOk, map};
ghost use Rattle.std.specs.List.{AllZip};
ghost use Rattle.failure.specs.Failure.{IfFault};
ghost use Rattle.locate.specs.Locating.{plan_view};
ghost use Rattle.object_modules.specs.Spelling.{Spells};
ghost use Rattle.example_libraries.specs.Images.{FirstIsFaulty, HasNoImage, IsImageOf};

use failure::Failure;
use link::{LinkFault, link};
use locate::{Absolute, LocateFault, Plan, locate};
use objmod::{Fault, ObjectModule, read};
use std::alloc::Global;
use thiserror::Error;

/// Why object files give no image.
#[derive(Clone, Copy, Debug, Error)]
pub enum ImageFault {
    /// One of them is no object file.
    #[error("{0}")]
    Object(Fault),
    /// Their modules have no merge.
    #[error("{0}")]
    Link(LinkFault),
    /// The merge can't lie as planned.
    #[error("{0}")]
    Place(LocateFault),
}

// The modules that files spell, in their order.
#[tactic(auto, using(crate::proofs::FilesRead::first_faulty))]
fn modules_in(alloc: Global, files: &[&[u8]]) -> Result<Vec<ObjectModule>, Failure<Fault>>
    ensures spelled { IfOk result (λ objects.
        AllZip Spells (map (λ file. file.now) files.now) objects.items) }
    ensures fault { IfFault result (λ fault.
        FirstIsFaulty (map (λ file. file.now) files.now) fault) }
{
    let mut objects = Vec::new(alloc);
    for file in files {
        let object = read(alloc, file)?;
        objects.push(object)?;
    }
    Ok(objects)
}

/// The image of object files that are linked in this order and placed by a plan, or why they have none, the first
/// reason of reading, of linking and of placing.
pub fn place_files(
    alloc: Global,
    files: &[&[u8]],
    plan: &Plan,
) -> Result<Absolute, Failure<ImageFault>>
    ensures image { IfOk result (λ absolute.
        IsImageOf (map (λ file. file.now) files.now) (plan_view plan.now) absolute) }
    ensures fault { IfFault result (λ fault.
        HasNoImage (map (λ file. file.now) files.now) (plan_view plan.now) fault) }
{
    let objects = match modules_in(alloc, files) {
        Ok(objects) => objects,
        Err(Failure::Fault(fault)) => return Err(Failure::Fault(ImageFault::Object(fault))),
        Err(Failure::Memory) => return Err(Failure::Memory),
    };
    let merged = match link(alloc, objects.as_slice()) {
        Ok(merged) => merged,
        Err(Failure::Fault(fault)) => return Err(Failure::Fault(ImageFault::Link(fault))),
        Err(Failure::Memory) => return Err(Failure::Memory),
    };
    match locate(alloc, merged.module(), plan) {
        Ok(absolute) => Ok(absolute),
        Err(Failure::Fault(fault)) => Err(Failure::Fault(ImageFault::Place(fault))),
        Err(Failure::Memory) => Err(Failure::Memory),
    }
}
