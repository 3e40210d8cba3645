//! Why a module can't be placed.

use thiserror::Error;

/// Why a module can't be placed by a plan. If several causes hold, it is the first in this order.
#[derive(Clone, Copy, Debug, Error)]
pub enum LocateFault {
    /// P3: an external name is left.
    #[error("an external name is left")]
    ExternalLeft,
    /// P4: the module has no start.
    #[error("the module has no start")]
    NoStart,
    /// P2: the code, the data or the stack passes the end of memory.
    #[error("the code, the data or the stack passes the end of memory")]
    PassesMemory,
    /// P1: two of the code, the data and the stack have an address in common.
    #[error("two of the code, the data and the stack overlap")]
    SegmentsMeet,
    /// P6: a page-aligned segment would begin at an address that is not a multiple of 256.
    #[error("a page-aligned segment would begin at no multiple of 256")]
    PageBroken,
    /// P5: a high byte is fixed to a segment that would begin at an address that is not a multiple of 256.
    #[error("a high byte is fixed to what would begin at no multiple of 256")]
    HighByteBroken,
}

impl LocateFault {
    ghost use Rattle.std.specs.Prelude.{◌≡◌};
    ghost use Rattle.object_modules.specs.Image.{placement_number};
    ghost use Rattle.locate.specs.Locating.{refusal_of};

    /// The number by which the documentation knows the fault.
    pub fn number(&self) -> &'static str
        ensures { result.now ≡ placement_number (refusal_of self.now) }
    {
        match self {
            LocateFault::ExternalLeft => "P3",
            LocateFault::NoStart => "P4",
            LocateFault::PassesMemory => "P2",
            LocateFault::SegmentsMeet => "P1",
            LocateFault::PageBroken => "P6",
            LocateFault::HighByteBroken => "P5",
        }
    }
}
