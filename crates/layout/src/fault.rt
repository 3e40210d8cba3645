//! Why a module has no storage.

use thiserror::Error;

/// Why a module has no storage. Both faults are C18, and have no line.
#[derive(Clone, Copy, Debug, Error)]
pub enum Fault {
    /// The data segment has over 65535 bytes.
    #[error("a data segment of over 65535 bytes")]
    DataTooLarge,
    /// The objects with DATA and the constant lists have over 65535 bytes.
    #[error("constants of over 65535 bytes")]
    ConstantsTooLarge,
}

impl Fault {
    ghost use Rattle.std.specs.Prelude.{◌≡◌, codes};

    /// The number by which the documentation and the command line know the fault.
    pub fn number(&self) -> &'static str
        ensures { result.now ≡ codes "C18" }
    {
        "C18"
    }
}
