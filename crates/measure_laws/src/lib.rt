//! Laws of measures of code: its bytes, the bytes that it pushes, its labels, and the code bound of a module.
#![tactic(auto)]
