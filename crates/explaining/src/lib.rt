//! What is printed of how a command ended, from its words, the files that it read and what it printed.
#![tactic(auto)]

mod converted;
mod dimensions;
mod explanation;
mod faulty_records;
mod globals;
mod high_bytes;
mod hints;
mod kept_files;
mod kept_lines;
mod kinds;
mod left_out;
mod lengths;
mod lines;
mod listing;
mod meanings;
mod misspelled;
mod named;
mod naming;
mod number_spelling;
mod numbering;
mod object_names;
mod openers;
mod options;
mod origins;
mod page;
mod parts;
mod ranges;
mod refused;
mod sentences;
mod spelling;
mod spots;
mod statements;
mod told;
mod twice;
mod unwritten;
mod wrong_options;

pub use explanation::explain;
pub use kept_files::KeptFiles;
pub use kept_lines::KeptLines;
