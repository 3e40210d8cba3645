//! Laws: the code of procedures and of main programs does what they mean.
#![tactic(auto)]
