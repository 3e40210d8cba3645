//! What is printed of a program that was built: its sources with their code, and its symbols.
#![tactic(auto)]

mod code_places;
mod constants;
mod image;
mod lines;
mod marked;
mod modules;
mod named;
mod origins;
mod parts;
mod places;
mod procedures;
mod programs;
mod symbol_lines;
mod text_lines;
mod view;
mod views;

pub use origins::{CodeLines, CodeOrigin, SourceLine, code_lines};
pub use programs::listing_of;
pub use symbol_lines::symbols_of;
