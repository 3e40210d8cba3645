//! The limits of the declarations of a module.

/// The greatest number of bytes of an object.
pub const OBJECT_LIMIT: u32 = 65_535;

/// The greatest number of bytes of the variables of a REENTRANT procedure.
pub const FRAME_LIMIT: u32 = 1024;

/// The greatest number of parameters of a procedure.
pub const PARAMETER_LIMIT: usize = 16;

/// The most bytes of code of a module beside its constants: a fixed number, and a number for each unit of its weight.
pub const CODE_BYTES: u32 = 2048;

pub const CODE_BYTES_FOR_WEIGHT: u32 = 128;
