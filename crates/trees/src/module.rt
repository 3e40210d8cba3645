//! Modules.

use crate::identifier::{Identifier, Place};
use crate::statement::Block;

/// A module, with the name after its END, if there is one. It borrows nothing from the source.
pub struct Module {
    pub name: Identifier,
    /// Where the word DO stands.
    pub place: Place,
    pub body: Block,
    pub end_name: Option<Identifier>,
}

// Written out, so that a module is freed here, and each crate that frees one calls this.
impl Drop for Module {
    fn drop(self) {
        let Module {
            name: _,
            place: _,
            body: _,
            end_name: _,
        } = self;
    }
}
