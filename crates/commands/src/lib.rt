//! The commands of `plm`, over files and output streams that are handed in.
#![tactic(auto)]

mod console;
mod converting;
mod executing;
mod explaining;
mod image_runs;
mod including;
mod input_ports;
mod needing;
mod needs;
mod places;
mod port_inputs;
mod port_outputs;
mod printed_needs;
mod programs;
mod refusals;
mod reports;
mod runs;
mod showing;

pub use console::run_command;
