//! Laws: each typed module of a source is soundly typed, and its stack charges have a limit.
#![tactic(auto)]
