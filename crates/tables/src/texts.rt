//! Bytes that are put together from lines.

use std::alloc::Global;

/// Bytes that are put together piece by piece. No piece fails: where memory runs out, or digits write no byte, the bytes are not
/// whole.
#[derive(Drop)]
pub struct Bytes {
    /// What was added.
    pub items: Vec<u8>,
    /// Whether nothing is missing.
    pub is_whole: bool,
}

impl Bytes {
    /// No bytes.
    pub fn new(alloc: Global) -> Bytes {
        Bytes {
            items: Vec::new(alloc),
            is_whole: true,
        }
    }

    /// Whether these bytes are what was added, and nothing is missing.
    pub fn has(&self, bytes: &[u8]) -> bool {
        self.is_whole && self.items.as_slice() == bytes
    }

    /// Adds bytes.
    pub fn add(&mut self, bytes: &[u8]) {
        let is_added = self.items.extend_from_slice(bytes).is_ok();
        self.is_whole = self.is_whole && is_added;
    }

    /// Adds a text and its end.
    pub fn add_text(&mut self, text: &str, end: &str) {
        self.add(text.as_bytes());
        self.add(end.as_bytes());
    }

    /// Adds a piece and an end as often as a number says that stands before the piece and a blank.
    pub fn add_often(&mut self, line: &str, end: &str) {
        let (count, piece) = line.split_once(' ').unwrap_or((line, ""));
        for _ in 0..count.parse::<u32>().unwrap_or(0) {
            self.add_text(piece, end);
        }
    }

    /// Adds the bytes that hexadecimal digits write, two for each, with a blank between them.
    pub fn add_digits(&mut self, line: &str) {
        for digits in line.split(' ') {
            match u8::from_str_radix(digits, 16) {
                Ok(byte) => self.add(&[byte]),
                Err(_) => self.is_whole = false,
            }
        }
    }
}
