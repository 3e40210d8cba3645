//! Tables of numbers by other numbers.

use std::alloc::{AllocError, Global};

/// Optional numbers, indexed by other numbers.
#[derive(Drop)]
pub(crate) struct Numbers {
    entries: Vec<Option<u32>>,
}

impl Numbers {
    ghost use Rattle.std.specs.Prelude.{◌≡◌, [], Some, OnOk, slice_set};
    ghost use Rattle.treecode.specs.internal.Numbers.{number_in, reaching, with_number};

    /// An empty table.
    pub(crate) fn new(alloc: Global) -> Numbers
        ensures { result.entries.items ≡ [] }
    {
        Numbers {
            entries: Vec::new(alloc),
        }
    }

    /// The number for an index, if known.
    pub(crate) fn get(&self, index: u32) -> Option<u32>
        ensures { result ≡ number_in self.now.entries.items index }
    {
        match self.entries.get(index as usize) {
            Some(entry) => *entry,
            None => None,
        }
    }

    // Adds entries without a number up to this index.
    fn reach(&mut self, index: u32) -> Result<(), AllocError>
        ensures { OnOk result (self.new.entries.items ≡ reaching self.old.entries.items index) }
    {
        let index = index as usize;
        if index >= self.entries.len() {
            self.entries.resize(index + 1, None)?;
        }
        Ok(())
    }

    // Puts a number into an entry.
    fn put(&mut self, index: u32, number: u32)
        ensures { self.new.entries.items ≡ slice_set self.old.entries.items index (Some number) }
    {
        if let Some(entry) = self.entries.get_mut(index as usize) {
            *entry = Some(number);
        }
    }

    /// Sets the number for an index.
    #[tactic(auto, using(crate::proofs::NumberTables::number_put))]
    pub(crate) fn insert(&mut self, index: u32, number: u32) -> Result<(), AllocError>
        ensures { OnOk result (self.new.entries.items
            ≡ with_number self.old.entries.items index number) }
    {
        self.reach(index)?;
        self.put(index, number);
        Ok(())
    }
}
