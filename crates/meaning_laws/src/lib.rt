//! Laws of what programs mean: what a body names exists, no jump leaves a body, and only writable bytes change.
#![tactic(auto)]
