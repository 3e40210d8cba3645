//! Procedures of tree code.

use crate::lists::Range;
use crate::place::Location;
use std::alloc::Global;
use trees::ScalarType;

/// A parameter: its type and its location.
#[derive(Clone, Copy)]
pub struct Parameter {
    pub scalar: ScalarType,
    pub location: Location,
}

/// A variable or a parameter in the frame of a REENTRANT procedure, and its size in bytes.
#[derive(Clone, Copy)]
pub struct FrameVariable {
    pub size: u16,
    /// Its index as a parameter, counted from 0.
    pub parameter: Option<u16>,
}

/// The kind of a procedure.
#[derive(Clone, Copy)]
pub enum ProcedureKind {
    /// Its parameters and variables are static.
    Static,
    /// Each call has a frame of its own.
    Reentrant,
    /// In another module: the index of its name among the external names.
    External(u32),
}

/// A procedure, or the main program of a module as one.
pub struct TreeProcedure {
    pub kind: ProcedureKind,
    pub result: Option<ScalarType>,
    /// The parameters in the order of the heading.
    pub parameters: Vec<Parameter>,
    /// The variables and parameters in the frame of a REENTRANT procedure, by their numbers there, in the order of
    /// their declarations.
    pub frame: Vec<FrameVariable>,
    /// The size in bytes of the variables of a REENTRANT procedure, without its parameters; else 0.
    pub frame_bytes: u32,
    /// The number of labels in its body.
    pub label_count: u32,
    /// The statements of its body, in the module's table of lists. Empty if it is EXTERNAL.
    pub body: Range,
    /// Whether its end can be reached.
    pub reaches_its_end: bool,
    /// The greatest height of an expression or a call in its body.
    pub height: u32,
}

impl TreeProcedure {
    ghost use Rattle.std.specs.Prelude.{◌≡◌, []};

    /// A procedure without parameters and statements.
    pub fn new(alloc: Global, kind: ProcedureKind, scalar: Option<ScalarType>) -> TreeProcedure
        ensures kind { result.kind ≡ kind }
        ensures scalar { result.result ≡ scalar }
        ensures frame { result.frame.items ≡ [] }
        ensures frame_bytes { result.frame_bytes ≡ 0 }
    {
        TreeProcedure {
            kind,
            result: scalar,
            parameters: Vec::new(alloc),
            frame: Vec::new(alloc),
            frame_bytes: 0,
            label_count: 0,
            body: Range { first: 0, count: 0 },
            reaches_its_end: true,
            height: 0,
        }
    }
}

// Written out so that the fields are dropped in one place, which other crates call.
impl Drop for TreeProcedure {
    fn drop(self) {
        let TreeProcedure {
            kind: _,
            result: _,
            parameters: _,
            frame: _,
            frame_bytes: _,
            label_count: _,
            body: _,
            reaches_its_end: _,
            height: _,
        } = self;
    }
}
