//! The listing of a program.

ghost use Rattle.std.specs.Prelude.{◌≤◌, IfOk, length};
ghost use Rattle.sources.specs.Programs.{IsProgramOf, program_modules, texts_of};
ghost use Rattle.sources.specs.declared.sources.TheConstants.{MOST_SOURCES};
ghost use Rattle.listings.specs.Programs.{ListsProgram};
ghost use Rattle.listings.specs.internal.Programs.{IsListingOf};

use crate::modules::{Shared, put_module};
use crate::named::names_of;
use crate::view::ModuleView;
use crate::views::{all_marks, views_of};
use std::alloc::{AllocError, Global};
use tool::{Built, Source};

// The listing of modules.
#[tactic(auto, using(crate::proofs::Adding::text_begun, crate::proofs::ProgramLists::view_listed, crate::proofs::ProgramLists::views_listed))]
fn listing_in(alloc: Global, built: &Built, views: &[ModuleView]) -> Result<Vec<u8>, AllocError>
    ensures { IfOk result (λ lines. IsListingOf built.now.image.pieces views.now lines.items) }
{
    let names = names_of(alloc, views)?;
    let shared = Shared {
        pieces: built.image().pieces(),
        names: names.as_slice(),
    };
    let mut lines = Vec::new(alloc);
    let mut rest = views;
    while let [view, more @ ..] = rest {
        // This is an `AllocError`: a write into a vector has no other error.
        let Ok(()) = put_module(alloc, &mut lines, shared, view) else {
            return Err(AllocError);
        };
        rest = more;
    }
    Ok(lines)
}

/// The listing of a program that was built from these sources: their lines, each with the code of what begins there.
#[tactic(auto, using(crate::proofs::ProgramLists::program_listed))]
pub fn listing_of(alloc: Global, built: &Built, sources: &[Source]) -> Result<Vec<u8>, AllocError>
    requires few { length sources.now ≤ MOST_SOURCES }
    requires program { IsProgramOf (texts_of sources.now) (program_modules built.now.program) }
    ensures listed { IfOk result (λ lines. ListsProgram (texts_of sources.now) built.now lines.items) }
{
    let marks = all_marks(alloc, built, sources)?;
    let views = views_of(alloc, built, sources, marks.as_slice())?;
    let lines = listing_in(alloc, built, views.as_slice())?;
    Ok(lines)
}
