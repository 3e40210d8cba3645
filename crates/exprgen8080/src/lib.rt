//! The code of expressions.
#![tactic(auto)]

mod byte_operators;
mod byte_shifts;
mod bytes;
mod called;
mod calls;
mod effects;
mod emission;
mod forms;
mod halves;
mod routines;
mod word_operators;
mod word_shifts;
mod words;

pub use byte_operators::{ByteForm, Operands};
pub use byte_shifts::Shifted;
pub use called::CalledRoutines;
pub use emission::{Emission, ROUTINES, routine_label};
pub use steps8080::{
    Base, Externals, Facts, Finished, LabelNumber, Located, Part, Site, Step, Steps, Task, Writer,
    reference_after,
};
pub use word_operators::Simple;
