//! Which routines code calls.

ghost use Rattle.std.specs.Prelude.{◌≡◌, ◌<◌, true, false, replicate, slice_index_or, IfOk};
ghost use Rattle.exprgen8080.specs.internal.Emitted.{HasAll, NotesOnly};

use std::alloc::{AllocError, Global};
use std::marker::Model;

/// Whether code calls each of the nine routines, in the order of their labels.
pub struct CalledRoutines {
    flags: Vec<bool>,
}

impl Model for CalledRoutines {
    ghost use Rattle.std.specs.Prelude.{◌≡◌, Bool, Vec, length};
    ghost use Rattle.std.specs.declared.alloc.Global.{Global};

    ghost Value = { Vec Bool Global };

    ghost view = { λ called. called.flags };

    ghost invariant = { λ called. length called.flags.items ≡ 9 };
}

impl CalledRoutines {
    /// Code that calls no routine.
    pub(crate) fn none(alloc: Global) -> Result<CalledRoutines, AllocError>
        ensures { IfOk result (λ called. called.items ≡ replicate 9 false) }
    {
        Ok(CalledRoutines {
            flags: vec![in alloc; false; 9]?,
        })
    }

    /// Notes that the code calls a routine, by its index.
    #[tactic(auto, using(crate::proofs::Emitting::note_kept, crate::proofs::Emitting::note_only))]
    pub(crate) fn note(&mut self, index: usize)
        requires { index < 9 }
        ensures noted { slice_index_or self.new.items index false ≡ true }
        ensures kept { HasAll self.old.items self.new.items }
        ensures only { NotesOnly index self.old.items self.new.items }
    {
        self.flags[index] = true;
    }

    /// The flag of each routine.
    pub(crate) fn into_flags(self) -> Vec<bool>
        ensures { result ≡ self }
    {
        let CalledRoutines { flags } = self;
        flags
    }
}

// Written out so that the field is dropped in one place, which other crates call.
impl Drop for CalledRoutines {
    fn drop(self) {
        let CalledRoutines { flags: _ } = self;
    }
}
