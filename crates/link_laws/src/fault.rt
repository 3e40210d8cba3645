//! Why modules can't be merged.

use object_modules::Name;
use thiserror::Error;

/// Why modules can't be merged: the first cause in this order.
#[derive(Clone, Copy, Debug, Error)]
pub enum LinkFault {
    /// L1: a public name that a public before it has; the first such, module by module.
    #[error("the public name {name} stands in the modules twice")]
    DuplicatePublic { name: Name },
    /// L2: an external name that no module has as a public; the first such, module by module.
    #[error("no module has the public name {name}")]
    UnresolvedExternal { name: Name },
    /// L3: a merged segment of more than 65535 bytes, the stack among them.
    #[error("a merged segment of more than 65535 bytes")]
    SegmentTooLong,
    /// L4: no module has a start, or several have one.
    #[error("no module is a main module, or several are")]
    NotOneMain,
    /// L5: a high byte is fixed to a target that moves by a number, or to a public at an address, that is not a multiple of 256.
    #[error("a high byte is fixed to what moves by no multiple of 256")]
    HighByteMoves,
}

impl LinkFault {
    ghost use Rattle.std.specs.Prelude.{◌≡◌};
    ghost use Rattle.object_modules.specs.Merge.{link_number};
    ghost use Rattle.link_laws.specs.Faults.{refusal_of};

    /// The number by which the documentation knows the fault.
    pub fn number(&self) -> &'static str
        ensures { result.now ≡ link_number (refusal_of self.now) }
    {
        match self {
            LinkFault::DuplicatePublic { .. } => "L1",
            LinkFault::UnresolvedExternal { .. } => "L2",
            LinkFault::SegmentTooLong => "L3",
            LinkFault::NotOneMain => "L4",
            LinkFault::HighByteMoves => "L5",
        }
    }
}
