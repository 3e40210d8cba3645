//! Assembled code.

ghost use Rattle.std.specs.Prelude.{◌≡◌, IfOk};
ghost use Rattle.asm8080.specs.Assembled.{FitsSegment, place_of};
ghost use Rattle.asm8080.specs.internal.Assembling.{no_code, with_places};

use crate::assembling::place_word;
use crate::code::Label;
use object_modules::Fix;
use std::alloc::{AllocError, Global};
use std::marker::Model;

/// The bytes of code, which of them are set, and its fixes, as far as it is assembled.
#[derive(Drop)]
pub(crate) struct CodeParts {
    pub(crate) bytes: Vec<u8>,
    pub(crate) is_set: Vec<bool>,
    pub(crate) fixes: Vec<Fix>,
}

impl Model for CodeParts {
    ghost use Rattle.std.specs.Prelude.{[]};
    ghost use Rattle.asm8080.specs.Assembled.{Assembled};

    ghost Value = { Assembled };

    ghost view = { λ parts. record {
      bytes = parts.bytes.items;
      is_set = parts.is_set.items;
      fixes = parts.fixes.items;
      places = [];
    } };
}

impl CodeParts {
    /// No bytes, with memory for `room` of them.
    pub(crate) fn empty(alloc: Global, room: usize) -> Result<CodeParts, AllocError>
        ensures { IfOk result (λ parts. parts ≡ no_code) }
    {
        Ok(CodeParts {
            bytes: Vec::with_capacity(alloc, room)?,
            is_set: Vec::with_capacity(alloc, room)?,
            fixes: Vec::new(alloc),
        })
    }
}

/// The bytes of a code segment, 65535 at most, which of them are set, its fixes in the order of their offsets,
/// and where its labels lie. The words that are fixed to a segment are offsets in it.
#[derive(Drop)]
pub struct CodeBytes {
    parts: CodeParts,
    places: Vec<Option<u128>>,
}

impl Model for CodeBytes {
    ghost use Rattle.asm8080.specs.Assembled.{Assembled, FitsSegment};

    ghost Value = { Assembled };

    ghost view = { λ code. record {
      bytes = code.parts.bytes;
      is_set = code.parts.is_set;
      fixes = code.parts.fixes;
      places = code.places.items;
    } };

    ghost invariant = { λ code. FitsSegment (record {
      bytes = code.parts.bytes;
      is_set = code.parts.is_set;
      fixes = code.parts.fixes;
      places = code.places.items;
    }) };
}

impl CodeBytes {
    /// What was assembled, with its labels where a table has them.
    pub(crate) fn with_places(parts: CodeParts, places: Vec<Option<u128>>) -> CodeBytes
        requires fits { FitsSegment (with_places places.items parts) }
        ensures { result ≡ with_places places.items parts }
    {
        CodeBytes { parts, places }
    }

    /// How far a label is from the start of the bytes. The label is of the code that they were made of.
    pub fn place(&self, label: Label) -> u16
        ensures { result ≡ place_of self.now label }
    {
        place_word(self.places.as_slice(), label.number as usize)
    }

    /// The bytes, with nothing added to the words that are fixed. They are no more than a segment has.
    pub fn bytes(&self) -> &[u8]
        ensures bytes { result.now ≡ self.now.bytes }
        ensures fits { FitsSegment self.now }
    {
        self.parts.bytes.as_slice()
    }

    /// Of each byte, whether it is set.
    pub fn is_set(&self) -> &[bool]
        ensures { result.now ≡ self.now.is_set }
    {
        self.parts.is_set.as_slice()
    }

    /// The fixes, in the order of their offsets.
    pub fn fixes(&self) -> &[Fix]
        ensures { result.now ≡ self.now.fixes }
    {
        self.parts.fixes.as_slice()
    }

    /// The bytes, which of them are set, and the fixes.
    pub fn into_parts(self) -> (Vec<u8>, Vec<bool>, Vec<Fix>)
        ensures bytes { result.0.items ≡ self.bytes }
        ensures is_set { result.1.items ≡ self.is_set }
        ensures fixes { result.2.items ≡ self.fixes }
    {
        let CodeBytes { parts, .. } = self;
        let CodeParts {
            bytes,
            is_set,
            fixes,
        } = parts;
        (bytes, is_set, fixes)
    }
}
