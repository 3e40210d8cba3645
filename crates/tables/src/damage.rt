//! Object files with each byte in turn changed to each other value.

use crate::page::Page;
use crate::texts::Bytes;
use host::Failure;
use objmod::{Fault, read};
use std::alloc::Global;

// How many bytes a record may have at most after its heading.
const LENGTH_LIMIT: usize = 1028;

// How many changes there were, how many of them had another answer than the format gives them, and how many each fault
// belongs to that they can have.
#[derive(Drop)]
struct Counts {
    changes: u64,
    differ: u64,
    truncated: u64,
    wrong_sums: u64,
    wrong_lengths: u64,
}

impl Counts {
    // Counts a change, which the format gives a fault, if it is one of those, and its answer.
    fn add(&mut self, expected: Option<Fault>, is_as_expected: bool) {
        self.changes = self.changes.saturating_add(1);
        if !is_as_expected {
            self.differ = self.differ.saturating_add(1);
        }
        match expected {
            Some(Fault::Truncated) => self.truncated = self.truncated.saturating_add(1),
            Some(Fault::WrongSum) => self.wrong_sums = self.wrong_sums.saturating_add(1),
            Some(Fault::WrongLength) => self.wrong_lengths = self.wrong_lengths.saturating_add(1),
            _ => {}
        }
    }
}

// The bytes after the first record, or the fault of its length or of its sum.
fn after_record(bytes: &[u8]) -> Result<&[u8], Fault> {
    let [_, low, high, ..] = bytes else {
        return Err(Fault::Truncated);
    };
    let length = u16::from_le_bytes([*low, *high]) as usize;
    if length == 0 || length > LENGTH_LIMIT {
        return Err(Fault::WrongLength);
    }
    let Some((record, after)) = bytes.split_at_checked(length + 3) else {
        return Err(Fault::Truncated);
    };
    let mut sum = 0_u8;
    for byte in record {
        sum = sum.wrapping_add(*byte);
    }
    if sum == 0 {
        Ok(after)
    } else {
        Err(Fault::WrongSum)
    }
}

// The first fault of a length or of a sum, which comes before all others where one byte of an object is changed.
fn expected_fault(bytes: &[u8]) -> Option<Fault> {
    let mut rest = bytes;
    for _ in bytes {
        match after_record(rest) {
            Ok(after) => rest = after,
            Err(fault) => return Some(fault),
        }
        if rest.is_empty() {
            return None;
        }
    }
    None
}

// Whether bytes are read as no object, with this fault.
fn is_refused(alloc: Global, bytes: &[u8], fault: Fault) -> bool {
    match read(alloc, bytes) {
        Err(Failure::Fault(found)) => found == fault,
        Err(Failure::Memory) => false,
        Ok(_) => false,
    }
}

// Adds one to the byte of a place, modulo 256.
fn step_byte(bytes: &mut [u8], place: usize) {
    if let Some(byte) = bytes.get_mut(place) {
        *byte = byte.wrapping_add(1);
    }
}

// Gives a byte its 255 other values in turn and its own again, and counts the answer to each other value. Each of them has a fault.
fn change_byte(alloc: Global, bytes: &mut [u8], place: usize, counts: &mut Counts) {
    for _ in 0..255 {
        step_byte(bytes, place);
        let expected = expected_fault(bytes);
        let is_as_expected = match expected {
            Some(fault) => is_refused(alloc, bytes, fault),
            None => false,
        };
        counts.add(expected, is_as_expected);
    }
    step_byte(bytes, place);
}

/// Prints what is answered to each change of one byte of the object that hexadecimal digits write.
pub fn print_damage(page: &mut Page, digits: &str) {
    let mut object = Bytes::new(page.alloc());
    object.add_digits(digits);
    page.note(object.is_whole);
    let mut counts = Counts {
        changes: 0,
        differ: 0,
        truncated: 0,
        wrong_sums: 0,
        wrong_lengths: 0,
    };
    for place in 0..object.items.len() {
        change_byte(
            page.alloc(),
            object.items.as_mut_slice(),
            place,
            &mut counts,
        );
    }
    page.number("damage to ", object.items.len() as u64);
    page.number(" bytes: ", counts.changes);
    page.number(" changes, ", counts.differ);
    page.number(" answered otherwise, O1 ", counts.truncated);
    page.number(", O2 ", counts.wrong_sums);
    page.number(", O3 ", counts.wrong_lengths);
    page.text("\n");
}
