//! Names, numbers and strings as they stand in a source.

use std::alloc::{AllocError, Global};
use symbols::Name;

/// Where a word stands: the place of its first byte, counted from 0, and its line, counted from 1.
#[derive(Clone, Copy, PartialEq, Eq)]
pub struct Place {
    pub start: u32,
    pub line: u32,
}

/// A name as it stands in a source.
#[derive(Clone, Copy)]
pub struct Identifier {
    pub name: Name,
    pub place: Place,
}

/// A number as it stands in a source.
#[derive(Clone, Copy)]
pub struct Number {
    pub value: u16,
    pub place: Place,
}

/// A string as it stands in a source: the bytes that it stands for.
pub struct StringLiteral {
    pub characters: Vec<u8>,
    pub place: Place,
}

/// A number or a string.
pub enum Constant {
    Number(Number),
    String(Box<StringLiteral>),
}

impl Constant {
    ghost use Rattle.std.specs.Prelude.{◌≡◌, IfOk};
    ghost use Rattle.trees.specs.Trees.{NumberConstant, StringConstant};
    ghost use Rattle.trees.specs.internal.Views.{constant_tree, string_tree};

    /// A number.
    pub fn number(number: Number) -> Constant
        ensures view { constant_tree result ≡ NumberConstant number }
    {
        Constant::Number(number)
    }

    /// A string.
    pub fn string(alloc: Global, literal: StringLiteral) -> Result<Constant, AllocError>
        ensures view { IfOk result (λ made. constant_tree made ≡ StringConstant (string_tree literal)) }
    {
        Ok(Constant::String(Box::new(alloc, literal)?))
    }
}

// Written out, so that these are freed here, and each crate that frees one calls this.
impl Drop for StringLiteral {
    fn drop(self) {
        let StringLiteral {
            characters: _,
            place: _,
        } = self;
    }
}

impl Drop for Constant {
    fn drop(self) {
        match self {
            Constant::Number(_) | Constant::String(_) => {}
        }
    }
}
