//! Sources.

/// The greatest number of sources of a program.
pub const MOST_SOURCES: usize = 64;

/// A source text and the name that it goes by.
#[derive(Clone, Copy)]
pub struct Source<'a> {
    pub name: &'a str,
    pub text: &'a [u8],
}
