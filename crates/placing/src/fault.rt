//! Why a program can't be placed by a plan.

use thiserror::Error;
use trees::Name;

/// Why a program can't be placed by a plan. No fault has a line.
#[derive(Clone, Copy, Debug, Error)]
pub enum Fault {
    /// L3: the code or the data of all modules have more than 65535 bytes.
    #[error("code or data of more than 65535 bytes")]
    SegmentTooLarge,
    /// P2: the code, the data or the stack passes the end of memory.
    #[error("the code, the data or the stack passes the end of memory")]
    PassesMemory,
    /// P1: two of the code, the data and the stack overlap.
    #[error("two of the code, the data and the stack overlap")]
    RangesOverlap,
    /// J5: an object with AT meets the code or the stack or passes the end of memory. The name is that of the first.
    #[error("{name} lies in the code or in the stack, or passes the end of memory")]
    ObjectMisplaced { name: Name },
}

impl Fault {
    ghost use Rattle.std.specs.Prelude.{◌≡◌};
    ghost use Rattle.placing.specs.Views.{number_of};

    /// The number by which the documentation and the command line know the fault.
    pub fn number(&self) -> &'static str
        ensures { result.now ≡ number_of self.now }
    {
        match self {
            Fault::SegmentTooLarge => "L3",
            Fault::PassesMemory => "P2",
            Fault::RangesOverlap => "P1",
            Fault::ObjectMisplaced { .. } => "J5",
        }
    }
}
