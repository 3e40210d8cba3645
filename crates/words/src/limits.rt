//! The limits of a source text.

/// How many bytes a source text may have.
pub const LONGEST_SOURCE: usize = 1_048_576;

/// The greatest number that may be written.
pub const GREATEST_NUMBER: u32 = 65535;
