//! How runs end.

use meaning::Reason;
use thiserror::Error;

/// How a program stopped.
#[derive(Clone, Copy, Debug)]
pub enum SourceEnd {
    /// It came to its end.
    Ended,
    /// Its budget does not last for one more turn of a loop, jump or call.
    More,
    /// It went outside the language.
    Outside(Reason),
}

/// Why a run was given up before the program stopped.
#[derive(Clone, Copy, Debug, Error)]
pub enum RunFault {
    /// A read of this port failed.
    #[error("a read of a port failed")]
    Input(u8),
    /// A write of this port failed.
    #[error("a write of a port failed")]
    Output(u8),
    #[error("there is no memory for the run")]
    Memory,
}
