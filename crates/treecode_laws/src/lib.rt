//! Laws of tree code: the segments of a module, and expressions with no effect.
#![tactic(auto)]
