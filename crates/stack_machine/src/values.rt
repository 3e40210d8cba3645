//! A stack of values.

ghost use Rattle.std.specs.Prelude.{◌≡◌, [], ◌∷◌, ◌<◌, OnOk, drop, length, slice_index};
ghost use Rattle.stack_code.specs.internal.Machine.{below, top};

use std::alloc::{AllocError, Global};
use std::marker::Model;

/// Values, the last one on top. A look at an empty stack gives 0.
#[derive(Drop)]
pub struct Values {
    items: Vec<u16>,
}

impl Model for Values {
    ghost use Rattle.std.specs.Prelude.{List, ℕ, reverse};

    ghost Value = { List ℕ };

    ghost view = { λ values. reverse values.items.items };
}

impl Values {
    /// No values.
    pub fn new(alloc: Global) -> Values
        ensures { result ≡ [] }
    {
        Values {
            items: Vec::new(alloc),
        }
    }

    /// Puts a value on top.
    #[inline(always)]
    #[tactic(auto, using(crate::proofs::Reversed::pushed))]
    pub fn push(&mut self, value: u16) -> Result<(), AllocError>
        ensures { OnOk result (self.new ≡ value ∷ self.old) }
    {
        self.items.push(value)?;
        Ok(())
    }

    /// The value on top.
    #[inline(always)]
    #[tactic(auto, using(crate::proofs::Reversed::last_on_top, crate::proofs::Reversed::nothing_on_top))]
    pub fn top(&self) -> u16
        ensures { result ≡ top self.now }
    {
        let count = self.items.len();
        if count == 0 { 0 } else { self.items[count - 1] }
    }

    /// Takes the value on top.
    #[inline(always)]
    #[tactic(auto, using(crate::proofs::Reversed::popped_value, crate::proofs::Reversed::popped_rest, crate::proofs::Reversed::popped_nothing, crate::proofs::Reversed::popped_no_rest))]
    pub fn pop(&mut self) -> u16
        ensures value { result ≡ top self.old }
        ensures rest { self.new ≡ below self.old }
    {
        match self.items.pop() {
            Some(value) => value,
            None => 0,
        }
    }

    /// Puts a value in place of the one on top.
    #[inline(always)]
    #[tactic(auto, using(crate::proofs::Reversed::replaced, crate::proofs::Reversed::replaced_nothing))]
    pub fn put(&mut self, value: u16) -> Result<(), AllocError>
        ensures { OnOk result (self.new ≡ value ∷ below self.old) }
    {
        let count = self.items.len();
        if count == 0 {
            self.items.push(value)?;
            Ok(())
        } else {
            self.items[count - 1] = value;
            Ok(())
        }
    }

    /// Puts a value in place of the one on top, if there is one.
    #[inline(always)]
    #[tactic(auto, using(crate::proofs::Reversed::replaced, crate::proofs::Reversed::some_from_reverse))]
    pub fn replace(&mut self, value: u16)
        requires { 0 < length self.old }
        ensures { self.new ≡ value ∷ below self.old }
    {
        let count = self.items.len();
        self.items[count - 1] = value;
    }

    /// The value below `depth` others, or 0 if the stack has no such value.
    #[inline(always)]
    #[tactic(auto, using(crate::proofs::Reversed::looked, crate::proofs::Reversed::looked_past))]
    pub fn look(&self, depth: usize) -> u16
        ensures { result ≡ slice_index self.now depth }
    {
        let count = self.items.len();
        if depth < count {
            self.items[count - 1 - depth]
        } else {
            0
        }
    }

    /// Takes `count` values.
    #[inline(always)]
    #[tactic(auto, using(crate::proofs::Reversed::discarded, crate::proofs::Reversed::discarded_all))]
    pub fn discard(&mut self, count: usize)
        ensures { self.new ≡ drop count self.old }
    {
        let height = self.items.len();
        if count <= height {
            self.items.truncate(height - count);
        } else {
            self.items.clear();
        }
    }
}
