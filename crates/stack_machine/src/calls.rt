//! The calls that are under way.

use std::alloc::{AllocError, Global};
use std::marker::Model;

/// Where and how a caller continues, and how many arguments the call has.
#[derive(Clone, Copy)]
pub struct CallRecord {
    pub return_to: usize,
    pub number_of_module: usize,
    pub room: u16,
    pub arguments: usize,
}

/// Calls, the last one first.
#[derive(Drop)]
pub struct Calls {
    items: Vec<CallRecord>,
}

impl Model for Calls {
    ghost use Rattle.std.specs.Prelude.{List, reverse};
    ghost use Rattle.stack_machine.specs.declared.calls.CallRecord.{CallRecord};

    ghost Value = { List CallRecord };

    ghost view = { λ calls. reverse calls.items.items };
}

impl Calls {
    ghost use Rattle.std.specs.Prelude.{◌≡◌, [], ◌∷◌, OnOk, MatchOption};
    ghost use Rattle.stack_machine.specs.internal.Arguments.{arguments_of};

    /// No calls.
    pub fn new(alloc: Global) -> Calls
        ensures { result ≡ [] }
    {
        Calls {
            items: Vec::new(alloc),
        }
    }

    /// Adds a call.
    #[inline(always)]
    #[tactic(auto, using(crate::proofs::Reversed::pushed))]
    pub fn push(&mut self, call: CallRecord) -> Result<(), AllocError>
        ensures { OnOk result (self.new ≡ call ∷ self.old) }
    {
        self.items.push(call)?;
        Ok(())
    }

    /// Takes the last call.
    #[inline(always)]
    #[tactic(auto, using(crate::proofs::Reversed::popped_call, crate::proofs::Reversed::popped_none))]
    pub fn pop(&mut self) -> Option<CallRecord>
        ensures { MatchOption result (self.old ≡ []) (λ call. self.old ≡ call ∷ self.new) }
    {
        match self.items.pop() {
            Some(call) => Some(call),
            None => None,
        }
    }

    /// How many arguments the last call has.
    #[inline(always)]
    #[tactic(auto, using(crate::proofs::Reversed::last_arguments, crate::proofs::Reversed::no_arguments))]
    pub fn arguments(&self) -> usize
        ensures { result ≡ arguments_of self.now }
    {
        let count = self.items.len();
        if count == 0 {
            0
        } else {
            self.items[count - 1].arguments
        }
    }
}
