//! Which words derive the trees of PL/M-80 modules, and how deep a tree may be.
#![tactic(auto)]

/// How many levels a module may nest.
pub const NESTING_LIMIT: u8 = 64;
