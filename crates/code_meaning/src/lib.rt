//! Definitions: code does what its source means, and the facts about the registers at a point of the code hold.
#![tactic(auto)]
