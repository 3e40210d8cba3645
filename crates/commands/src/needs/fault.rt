//! Why sources have no need.

use sources::ReadFault;

/// Why sources are not those of a program. A file is given by its place among the sources, from 0.
#[derive(Clone, Copy)]
pub enum NeedFault {
    /// There are too many sources.
    TooManySources,
    /// A source can't be read.
    Source { file: usize, fault: ReadFault },
    /// The modules make no program.
    Join(join::Fault),
}
