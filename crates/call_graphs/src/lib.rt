//! Call graphs, and their need: the greatest sum of the charges of the calls along a chain.
#![tactic(auto)]

mod body;
mod path;
mod search;

pub use body::Body;
pub use search::need_in;
