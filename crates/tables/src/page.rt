//! What is printed, put together in memory and written once.

use anyhow::{Result, bail};
use std::alloc::Global;
use std::fmt::Write;
use std::{fmt, io};

/// A text that is put together piece by piece. No piece fails: where memory runs out, that is told when the page is written. So a
/// function that prints is a row of calls with one way out, which is quickly proved.
#[derive(Drop)]
pub struct Page {
    alloc: Global,
    text: String,
    is_whole: bool,
}

impl Page {
    /// An empty page.
    pub fn new(alloc: Global) -> Page {
        Page {
            alloc,
            text: String::new(alloc),
            is_whole: true,
        }
    }

    /// Where it takes memory from, as may all that is printed on it.
    pub fn alloc(&self) -> Global {
        self.alloc
    }

    /// Notes whether a piece is there.
    pub fn note(&mut self, is_there: bool) {
        self.is_whole = self.is_whole && is_there;
    }

    /// Adds a text.
    pub fn text(&mut self, text: &str) {
        let is_added = self.text.push_str(text).is_ok();
        self.note(is_added);
    }

    /// Adds a text and a word after it that ends the line.
    pub fn line(&mut self, before: &str, word: &str) {
        self.text(before);
        self.text(word);
        self.text("\n");
    }

    /// Adds what a value shows itself as.
    pub fn value<T: fmt::Display>(&mut self, value: &T) {
        let is_added = write!(self.text, "{value}").is_ok();
        self.note(is_added);
    }

    /// Adds a text and a number after it.
    pub fn number(&mut self, before: &str, number: u64) {
        self.text(before);
        self.value(&number);
    }

    /// Adds a text and two hexadecimal digits after it.
    pub fn byte(&mut self, before: &str, byte: u8) {
        self.text(before);
        let is_added = write!(self.text, "{byte:02X}").is_ok();
        self.note(is_added);
    }

    /// Adds bytes, each as a blank and two hexadecimal digits.
    pub fn bytes(&mut self, bytes: &[u8]) {
        for byte in bytes {
            self.byte(" ", *byte);
        }
    }

    /// Adds a text and four hexadecimal digits after it.
    pub fn word(&mut self, before: &str, word: u16) {
        let [high, low] = word.to_be_bytes();
        self.byte(before, high);
        self.byte("", low);
    }

    /// Adds what another page has. Where something is missing there, it is missing here.
    pub fn page(&mut self, other: &Page) {
        self.text(other.text.as_str());
        self.note(other.is_whole);
    }

    /// Whether these bytes are what was added, and nothing is missing.
    pub fn has(&self, bytes: &[u8]) -> bool {
        self.is_whole && self.text.as_bytes() == bytes
    }

    /// Writes what was added, and fails where something is missing.
    pub fn write<W: io::Write>(&self, out: &mut W) -> Result<()> {
        out.write_all(self.text.as_bytes())?;
        if !self.is_whole {
            bail!("out of memory");
        }
        Ok(())
    }
}
