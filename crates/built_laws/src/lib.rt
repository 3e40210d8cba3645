//! Laws of built programs.
#![tactic(auto)]
