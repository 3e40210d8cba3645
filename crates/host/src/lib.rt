//! Files, how commands end, and what they print where they are refused.
#![tactic(auto)]

mod endings;
mod files;
mod reading;

pub use endings::{
    Ending, refuse, refuse_file, refuse_memory, refuse_name, refuse_output, refuse_write,
};
pub use failure::{Failure, WriteFault, write_bytes};
pub use files::{FileFault, Files, HostFiles};
pub use reading::read_files;
