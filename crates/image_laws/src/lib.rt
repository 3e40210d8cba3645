//! Laws: modules that are linked and placed stand in memory as the program asks.
#![tactic(auto)]
