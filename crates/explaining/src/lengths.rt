//! How many bytes the code and the data of a program have.

use crate::kept_files::{KeptFile, kept_bytes};
use crate::kinds::OBJECT;
use object_commands::{ObjectModule, Segment, link_records, read};
use std::alloc::Global;
use tool::compile;

/// How many bytes the code and the data of a program have. A sum stops at 4,294,967,295.
#[derive(Clone, Copy)]
pub(crate) struct Lengths {
    pub(crate) code: u32,
    pub(crate) variables: u32,
}

impl Lengths {
    // These, and those of one more object module.
    fn and(self, object: &ObjectModule) -> Lengths {
        Lengths {
            code: self
                .code
                .saturating_add(object.length(Segment::Code) as u32),
            variables: self
                .variables
                .saturating_add(object.length(Segment::Data) as u32),
        }
    }
}

// Those of nothing.
const NONE: Lengths = Lengths {
    code: 0,
    variables: 0,
};

// The lengths of the program of sources, where there is memory to compile them: its code and its data are those of each,
// one after another.
fn lengths_of_sources(alloc: Global, texts: &[&[u8]]) -> Option<Lengths> {
    let mut lengths = NONE;
    for text in texts {
        match compile(alloc, text) {
            Ok(object) => lengths = lengths.and(&object),
            Err(_) => return None,
        }
    }
    Some(lengths)
}

// The lengths of the merge of object files, where there is memory to merge them.
fn lengths_of_objects(alloc: Global, texts: &[&[u8]]) -> Option<Lengths> {
    let mut merged: Vec<u8> = Vec::new(alloc);
    if link_records(alloc, texts, &mut merged).is_err() {
        return None;
    }
    match read(alloc, merged.as_slice()) {
        Ok(object) => Some(NONE.and(&object)),
        Err(_) => None,
    }
}

// The bytes of files, where all were kept, and there is memory for the list.
fn texts_of<'f>(alloc: Global, files: &'f [KeptFile], names: &[&str]) -> Option<Vec<&'f [u8]>> {
    let mut texts = Vec::new(alloc);
    for name in names {
        match kept_bytes(files, name) {
            Some(bytes) if texts.push(bytes).is_ok() => {}
            _ => return None,
        }
    }
    Some(texts)
}

/// The lengths of the program that files make, where there is memory to make it once more. Where the first is an object file,
/// all are.
pub(crate) fn lengths_of(alloc: Global, files: &[KeptFile], names: &[&str]) -> Option<Lengths> {
    let texts = texts_of(alloc, files, names)?;
    match texts.as_slice() {
        [first, ..] if first.starts_with(&[OBJECT]) => lengths_of_objects(alloc, texts.as_slice()),
        _ => lengths_of_sources(alloc, texts.as_slice()),
    }
}
