//! Why a call gave no value: a fault, out of memory, or a writer that failed.
#![tactic(auto)]

mod writing;

use std::alloc::{AllocError, AllocFailed};
use std::fmt;
pub use writing::{WriteFault, write_bytes, write_some};

/// Why a call that takes memory gave no value. Each crate has faults of its own, `F`, with a number and a line, and
/// none of them speaks of memory.
#[derive(Clone, Copy, Debug, Drop)]
pub enum Failure<F> {
    /// What the call was handed has a fault.
    Fault(F),
    /// The host refused memory.
    Memory,
}

impl<F> From<AllocError> for Failure<F> {
    ghost use Rattle.std.specs.Prelude.{◌≡◌};
    ghost use Rattle.failure.specs.declared.Failure.TheVariants.{Memory};

    ghost from_gives = { λ _ failure. failure ≡ Memory };

    fn from(_error: AllocError) -> Failure<F> {
        Failure::Memory
    }
}

impl<F, T: Drop> From<AllocFailed<T>> for Failure<F> {
    ghost use Rattle.std.specs.Prelude.{◌≡◌};
    ghost use Rattle.failure.specs.declared.Failure.TheVariants.{Memory};

    ghost from_gives = { λ _ failure. failure ≡ Memory };

    fn from(_failed: AllocFailed<T>) -> Failure<F> {
        Failure::Memory
    }
}

impl<F: fmt::Display> fmt::Display for Failure<F> {
    ghost use Rattle.failure.specs.Failure.{output_of};

    ghost output = { output_of F.output };

    fn fmt<W: fmt::Write>(&self, f: &mut fmt::Formatter<W>) -> fmt::Result {
        match self {
            Failure::Fault(fault) => fault.fmt(f),
            Failure::Memory => f.write_str("out of memory"),
        }
    }
}

impl<F: fmt::Display + fmt::Debug + Drop> std::error::Error for Failure<F> {}
