//! The limits of an expansion.

/// How deep definitions may be replaced within one another's texts.
pub const DEEPEST: usize = 16;

/// How many words may be processed: those of the list, and those of each text as often as it is used.
pub const MOST_WORDS: usize = 2_097_152;
