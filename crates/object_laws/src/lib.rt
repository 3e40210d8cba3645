//! Laws of object files, of their written texts and of merges.
#![tactic(auto)]
