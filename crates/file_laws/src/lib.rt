//! Laws of object files that are written of modules: linked, read and placed, they give what the modules do.
#![tactic(auto)]
