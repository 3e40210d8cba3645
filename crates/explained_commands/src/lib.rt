//! Commands that are carried out, and explained where they are refused.
#![tactic(auto)]

mod asking;
mod console;

pub use commands::run_command;
pub use console::run_words;
pub use explaining::{KeptFiles, KeptLines};
pub use host::HostFiles;
