//! PUBLIC and EXTERNAL.

ghost use Rattle.std.specs.Prelude.{◌≡◌, OnOk};
ghost use Rattle.typing.specs.Blocks.{is_external_linkage, is_public_linkage, place_of_linkage, with_global};

use std::alloc::AllocError;
use trees::{Linkage, Place};
use typed_trees::GlobalItem;

/// Whether something is PUBLIC.
pub(crate) fn is_public_linkage(linkage: Option<Linkage>) -> bool
    ensures { result ≡ is_public_linkage linkage }
{
    matches!(linkage, Some(Linkage::Public(_)))
}

/// Whether something is EXTERNAL.
pub(crate) fn is_external_linkage(linkage: Option<Linkage>) -> bool
    ensures { result ≡ is_external_linkage linkage }
{
    matches!(linkage, Some(Linkage::External(_)))
}

/// The place of PUBLIC or EXTERNAL.
pub(crate) fn place_of_linkage(linkage: Linkage) -> Place
    ensures { result ≡ place_of_linkage linkage }
{
    match linkage {
        Linkage::Public(place) | Linkage::External(place) => place,
    }
}

/// Adds a global, if there is a linkage.
pub(crate) fn add_global(
    globals: &mut Vec<GlobalItem>,
    linkage: Option<Linkage>,
    item: GlobalItem,
) -> Result<(), AllocError>
    ensures { OnOk result (globals.new.items ≡ with_global linkage item globals.old.items) }
{
    if linkage.is_some() {
        globals.push(item)?;
    }
    Ok(())
}
