//! The EXTERNAL names that code refers to.

ghost use Rattle.std.specs.Prelude.{◌≡◌, ◌+◌, ◌<◌, ◌≤◌, [], Some, length, max, IfOk, IfSome, OnOk};
ghost use Rattle.steps8080.specs.internal.Externals.{AddsOnly, Extends, IsNumbering, entry};

use std::alloc::{AllocError, Global};
use std::marker::Model;

/// The EXTERNAL names that code refers to, numbered in the order of their first use.
pub struct Externals {
    /// The number of each name in use, by its index among the external names of the module. Names past the end are not in
    /// use.
    numbers: Vec<Option<u16>>,
    /// How many names are in use.
    used: u32,
}

impl Model for Externals {
    ghost use Rattle.std.specs.Prelude.{◌<◌, ℕ, List, Option};
    ghost use Rattle.steps8080.specs.internal.Externals.{IsNumbering};

    ghost Value = { List (Option ℕ) };

    ghost view = { λ externals. externals.numbers.items };

    ghost invariant = { λ externals.
        externals.used < 65536 → IsNumbering externals.used externals.numbers.items };
}

impl Externals {
    /// No name in use.
    pub fn new(alloc: Global) -> Externals
        ensures { result ≡ [] }
    {
        Externals {
            numbers: Vec::new(alloc),
            used: 0,
        }
    }

    // Makes the table long enough for the name with this index.
    fn reach(&mut self, name: u32) -> Result<(), AllocError>
        ensures reached { OnOk result (name < length self.new) }
        ensures kept { Extends self.old self.new }
        ensures none { Extends self.new self.old }
        ensures longer { length self.old ≤ length self.new }
        ensures within { length self.new ≤ max (length self.old) (name + 1) }
    {
        let index = name as usize;
        if index < self.numbers.len() {
            return Ok(());
        }
        self.numbers.resize(index + 1, None)?;
        Ok(())
    }

    // The number of the name with this index, which it gets at its first use.
    #[tactic(auto, using(crate::proofs::Numbered::same_names, crate::proofs::Numbered::one_name_more))]
    fn number_of(&mut self, name: u32) -> u16
        requires { name < length self.now }
        ensures found { entry self.new name ≡ Some result }
        ensures kept { Extends self.old self.new }
        ensures only { AddsOnly name self.old self.new }
        ensures count { length self.new ≡ length self.old }
    {
        let index = name as usize;
        if let Some(number) = self.numbers[index] {
            return number;
        }
        let number = u16::try_from(self.used).unwrap_or(u16::MAX);
        self.used = self.used.saturating_add(1);
        self.numbers[index] = Some(number);
        number
    }

    /// Returns the number of the name with this index, and numbers it at its first use. Names after the first 65535 share
    /// a number.
    #[tactic(auto, using(crate::proofs::Reached::name_reached, crate::proofs::Reached::name_added))]
    pub fn number(&mut self, name: u32) -> Result<u16, AllocError>
        ensures found { IfOk result (λ number. entry self.new name ≡ Some number) }
        ensures kept { Extends self.old self.new }
        ensures only { AddsOnly name self.old self.new }
        ensures longer { length self.old ≤ length self.new }
        ensures within { length self.new ≤ max (length self.old) (name + 1) }
    {
        self.reach(name)?;
        Ok(self.number_of(name))
    }

    /// How many names are in use, if each has a number of its own.
    pub fn count(&self) -> Option<u16>
        ensures { IfSome result (λ count. IsNumbering count self.now) }
    {
        match u16::try_from(self.used) {
            Ok(count) => Some(count),
            Err(_) => None,
        }
    }

    /// The number of each name in use, by its index among the external names of the module.
    pub fn numbers(&self) -> &[Option<u16>]
        ensures { result.now ≡ self.now }
    {
        self.numbers.as_slice()
    }
}

// Written out so that the fields are dropped in one place, which other crates call.
impl Drop for Externals {
    fn drop(self) {
        let Externals {
            numbers: _,
            used: _,
        } = self;
    }
}
