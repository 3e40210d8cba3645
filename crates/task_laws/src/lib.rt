//! Laws: the code of expressions does what they mean.
#![tactic(auto)]
