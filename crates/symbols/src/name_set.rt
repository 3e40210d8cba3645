//! Names in a set.

ghost use Rattle.std.specs.Prelude.{◌≡◌, [], position, OnOk};
ghost use Rattle.std.specs.List.{list_any};
ghost use Rattle.std.specs.Str.{bytes_eq};
ghost use Rattle.indexmap.specs.IndexSet.{insert_key};

use crate::name::Name;
use indexmap::IndexSet;
use std::alloc::{AllocError, Global};
use std::marker::Model;

/// Names, each of them once, with numbers from 0 in the order in which they came.
pub struct NameSet {
    names: IndexSet<Name>,
}

impl Model for NameSet {
    ghost use Rattle.std.specs.Prelude.{ℕ, List};

    ghost Value = { List (List ℕ) };

    ghost view = { λ set. set.names.keys };
}

impl NameSet {
    /// No names.
    pub fn new(alloc: Global) -> NameSet
        ensures { result ≡ [] }
    {
        NameSet {
            names: IndexSet::new(alloc),
        }
    }

    /// Whether a name is among them.
    pub fn contains(&self, name: Name) -> bool
        ensures { result ≡ list_any (bytes_eq name) self.now }
    {
        self.names.contains(&name)
    }

    /// The number of a name; none if it is not among them.
    pub fn number_of(&self, name: Name) -> Option<usize>
        ensures { result ≡ position (bytes_eq name) self.now }
    {
        self.names.get_index_of(&name)
    }

    /// Adds a name after the others, if it is not among them. Fails only if memory runs out.
    pub fn insert(&mut self, name: Name) -> Result<(), AllocError>
        ensures { OnOk result (self.new ≡ insert_key bytes_eq self.old name) }
    {
        self.names.insert(name)?;
        Ok(())
    }
}

// Written out, so that the names are freed here, and each crate that frees a set calls this.
impl Drop for NameSet {
    fn drop(self) {
        let NameSet { names: _ } = self;
    }
}
