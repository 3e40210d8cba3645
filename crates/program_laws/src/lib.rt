//! Laws: generated modules, and programs of them in memory, do what their sources mean.
#![tactic(auto)]
