//! The commands on sources, over files and output streams that are handed in.
#![tactic(auto)]

mod carrying;
mod compiling;
mod interpreting;
mod loading;
mod map;
mod refusals;
mod running;
mod standing;

pub use carrying::carry_out_sources;
pub use compiling::compile_file;
pub use loading::sources_of;
pub(crate) use loading::{name_at, script_of, start_memory};
pub(crate) use refusals::refuse_sources;
