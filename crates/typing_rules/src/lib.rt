//! The rules of typing of PL/M-80: what it is for an expression to be well typed, and what it is to have a fault; and that
//! the typing by functions is the one of the rules.
#![tactic(auto)]
