//! Why sources are refused.

use link_laws::LinkFault;
use locate::LocateFault;
use object_modules::Name;
use sources::{MOST_SOURCES, ProgramFault, ReadFault};
use thiserror::Error;

/// Why sources are refused. A file is given by its place among the sources, from 0.
#[derive(Clone, Copy, Debug, Error)]
pub enum ToolFault {
    /// There are too many sources.
    #[error("more than {most} sources", most = MOST_SOURCES)]
    TooManySources,
    /// A source can't be read.
    #[error("source {file}: {fault}")]
    Source {
        file: usize,
        fault: ReadFault,
    },
    /// There is no object module of a source.
    #[error("source {file}: {fault}")]
    Code {
        file: usize,
        fault: codegen8080::Fault,
    },
    /// The modules make no program, or it can't lie as planned.
    #[error("{0}")]
    Program(ProgramFault),
    /// The object modules of a program that can lie as planned can't be merged. That never comes: `build` says so.
    #[error("{0}")]
    Link(LinkFault),
    /// Their merge can't be placed. That never comes: `build` says so.
    #[error("{0}")]
    Locate(LocateFault),
}

impl ToolFault {
    ghost use Rattle.std.specs.Prelude.{◌≡◌};
    ghost use Rattle.tool.specs.Faults.{file_of, line_of, name_of, number_of};

    /// The number of the fault, as `plm` prints it.
    pub fn number(&self) -> &'static str
        ensures { result.now ≡ number_of self.now }
    {
        match self {
            ToolFault::TooManySources => "U1",
            ToolFault::Source { fault, .. } => fault.number(),
            ToolFault::Code { fault, .. } => fault.number(),
            ToolFault::Program(fault) => fault.number(),
            ToolFault::Link(fault) => fault.number(),
            ToolFault::Locate(fault) => fault.number(),
        }
    }

    /// The source that the fault is in, or None where it is one of all.
    pub fn file(&self) -> Option<usize>
        ensures { result ≡ file_of self.now }
    {
        match self {
            ToolFault::Source { file, .. } | ToolFault::Code { file, .. } => Some(*file),
            _ => None,
        }
    }

    /// The name of the first EXTERNAL, PUBLIC or AT object that the fault is about, if it is about one.
    pub fn name(&self) -> Option<Name>
        ensures { result ≡ name_of self.now }
    {
        match self {
            ToolFault::Program(fault) => fault.name(),
            ToolFault::Link(
                LinkFault::DuplicatePublic { name } | LinkFault::UnresolvedExternal { name },
            ) => Some(*name),
            _ => None,
        }
    }

    /// The line of the fault, counted from 1, or 0 where it is in no line.
    pub fn line(&self) -> u32
        ensures { result ≡ line_of self.now }
    {
        match self {
            ToolFault::Source { fault, .. } => fault.line(),
            _ => 0,
        }
    }
}
