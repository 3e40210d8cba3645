//! Laws: the code of statements does what they mean.
#![tactic(auto)]
