//! Where declarations and statements stand.

use crate::linkages::is_external_linkage;
use trees::Heading;

/// The owner of a block: the module, or a procedure, by its number and its heading.
#[derive(Clone, Copy)]
pub(crate) enum Owner<'a> {
    Module,
    Procedure { number: u32, heading: &'a Heading },
}

/// A block: the one of its owner itself, or a simple DO in that.
#[derive(Clone, Copy)]
pub(crate) struct Block<'a> {
    pub(crate) owner: Owner<'a>,
    pub(crate) is_own: bool,
}

impl<'a> Owner<'a> {
    ghost use Rattle.std.specs.Prelude.{◌≡◌};
    ghost use Rattle.typing.specs.Blocks.{is_external, is_reentrant};
    ghost use Rattle.types.specs.internal.Views.{owner_view};

    /// Whether it is a REENTRANT procedure.
    pub(crate) fn is_reentrant(self) -> bool
        ensures { result ≡ is_reentrant (owner_view self.entry) }
    {
        match self {
            Owner::Procedure { heading, .. } => heading.reentrant.is_some(),
            Owner::Module => false,
        }
    }

    /// Whether it is an EXTERNAL procedure.
    pub(crate) fn is_external(self) -> bool
        ensures { result ≡ is_external (owner_view self.entry) }
    {
        match self {
            Owner::Procedure { heading, .. } => is_external_linkage(heading.linkage),
            Owner::Module => false,
        }
    }
}

impl<'a> Block<'a> {
    ghost use Rattle.std.specs.Prelude.{◌≡◌};
    ghost use Rattle.typing.specs.Blocks.{is_module_level};
    ghost use Rattle.types.specs.internal.Views.{block_view};

    /// Whether declarations stand at the level of the module.
    pub(crate) fn is_module_level(self) -> bool
        ensures { result ≡ is_module_level (block_view self.entry) }
    {
        match self.owner {
            Owner::Module => self.is_own,
            Owner::Procedure { .. } => false,
        }
    }
}
