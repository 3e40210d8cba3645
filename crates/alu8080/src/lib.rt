//! The operations of an 8080 on bytes: results and condition bits. Each sets the bits of a type `F`, which is
//! `Flags`, or a type of a machine that keeps what tells the bits and works them out where they are asked
//! for.
#![tactic(auto)]

mod bits;
mod operations;

pub use bits::ConditionBits;
pub use operations::{
    add, and, compare, decimal_adjust, decrement, double_add, increment, or, rotate_left,
    rotate_left_carry, rotate_right, rotate_right_carry, subtract, xor,
};
