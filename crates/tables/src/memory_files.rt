//! Files in memory.

ghost use Rattle.std.specs.Prelude.{◌≡◌, ◌≤◌, length};
ghost use Rattle.ports.specs.Events.{CountsFailure};

use crate::texts::Bytes;
use host::{Failure, FileFault, Files};
use std::alloc::Global;

// A file of this name can't be begun.
const CLOSED: &str = "closed.obj";

// A file of this name takes a byte at a time, and no more than this many.
const BROKEN: &[u8] = b"broken.obj";

const BROKEN_LENGTH: usize = 3;

/// A file: its name and its bytes.
#[derive(Drop)]
pub struct File {
    pub name: Bytes,
    pub bytes: Bytes,
}

impl File {
    /// An empty file.
    pub fn new(alloc: Global, name: &str) -> File {
        let mut file = File {
            name: Bytes::new(alloc),
            bytes: Bytes::new(alloc),
        };
        file.name.add(name.as_bytes());
        file
    }

    /// Takes in the next line of its text: one that ends in a backslash without it and without an end, a piece that is
    /// added so often after a star, and bytes in hexadecimal digits after an `x`. Answers whether it is whole.
    pub fn read(&mut self, line: &str) -> bool {
        if let Some(digits) = line.strip_prefix("x ") {
            self.bytes.add_digits(digits);
        } else if let Some(pieces) = line.strip_prefix("* ") {
            self.bytes.add_often(pieces, "");
        } else if let Some(start) = line.strip_suffix("\\") {
            self.bytes.add(start.as_bytes());
        } else {
            self.bytes.add_text(line, "\n");
        }
        self.name.is_whole && self.bytes.is_whole
    }

    /// Whether it has this name and these bytes.
    pub fn is_same(&self, other: &File) -> bool {
        self.name.has(other.name.items.as_slice())
            && other.bytes.is_whole
            && self.bytes.has(other.bytes.items.as_slice())
    }

    /// Whether it has this name, and as its bytes a beginning of these.
    pub fn begins(&self, other: &File) -> bool {
        let bytes = self.bytes.items.as_slice();
        self.name.has(other.name.items.as_slice())
            && self.bytes.is_whole
            && other.bytes.items.as_slice().get(..bytes.len()) == Some(bytes)
    }

    // Adds as many bytes as it takes, and answers how many: the greater half, so that long texts take several calls.
    fn grow(&mut self, bytes: &[u8]) -> usize
        ensures { result ≤ length bytes.now }
    {
        let room = if !self.name.has(BROKEN) {
            (bytes.len() / 2).saturating_add(1)
        } else if self.bytes.items.len() < BROKEN_LENGTH {
            1
        } else {
            0
        };
        let count = room.min(bytes.len());
        self.bytes.add(&bytes[..count]);
        count
    }
}

// The number of the file of a name, or how many files there are.
fn number_of(files: &[File], name: &str) -> usize {
    for (number, file) in files.iter().enumerate() {
        if file.name.has(name.as_bytes()) {
            return number;
        }
    }
    files.len()
}

/// Some files, those that were written, and counts of the calls and of those that failed.
#[derive(Drop)]
pub struct MemoryFiles<'a> {
    alloc: Global,
    files: &'a [File],
    /// The files that were written, in the order in which they were begun.
    pub written: Vec<File>,
    /// How many calls there were.
    pub calls: u64,
    /// How many calls failed.
    pub failed: u64,
    /// The number of the call that fails, counted from 0, if there are that many calls.
    pub failing_call: u64,
}

impl<'a> MemoryFiles<'a> {
    /// These files, before any call. No call is to fail.
    pub fn new(alloc: Global, files: &'a [File]) -> MemoryFiles<'a>
        ensures { result.failed ≡ 0 }
    {
        MemoryFiles {
            alloc,
            files,
            written: Vec::new(alloc),
            calls: 0,
            failed: 0,
            failing_call: u64::MAX,
        }
    }

    // Counts a call, and answers whether it is another one than that which fails.
    fn is_good_call(&mut self) -> bool
        ensures { self.new.failed ≡ self.old.failed }
    {
        let is_good = self.calls != self.failing_call;
        self.calls = self.calls.saturating_add(1);
        is_good
    }

    // Counts a failure.
    fn fail(&mut self) -> FileFault
        ensures { CountsFailure self.old.failed self.new.failed }
    {
        self.failed = self.failed.saturating_add(1);
        FileFault
    }

    // A file: as it was written, where it was.
    fn file(&self, name: &str) -> Option<&File> {
        let written = self
            .written
            .as_slice()
            .get(number_of(self.written.as_slice(), name));
        if written.is_some() {
            written
        } else {
            self.files.get(number_of(self.files, name))
        }
    }

    // Makes a file empty, and answers whether there was memory for it.
    fn clear(&mut self, name: &str) -> bool
        ensures { self.new.failed ≡ self.old.failed }
    {
        let number = number_of(self.written.as_slice(), name);
        if number < self.written.len() {
            let bytes = &mut self.written[number].bytes;
            bytes.items.clear();
            bytes.is_whole = true;
            true
        } else {
            self.written.push(File::new(self.alloc, name)).is_ok()
        }
    }

    // Adds bytes to a file that was written, and answers how many.
    fn grow(&mut self, name: &str, bytes: &[u8]) -> usize
        ensures count { result ≤ length bytes.now }
        ensures failed { self.new.failed ≡ self.old.failed }
    {
        let number = number_of(self.written.as_slice(), name);
        if number < self.written.len() {
            self.written[number].grow(bytes)
        } else {
            0
        }
    }
}

impl Files for MemoryFiles<'_> {
    ghost failures = { λ files. files.failed };

    fn read_file(&mut self, name: &str) -> Result<Vec<u8>, Failure<FileFault>> {
        if !self.is_good_call() {
            return Err(Failure::Fault(self.fail()));
        }
        let Some(file) = self.file(name) else {
            return Err(Failure::Fault(self.fail()));
        };
        match Vec::from_slice(self.alloc, file.bytes.items.as_slice()) {
            Ok(bytes) => Ok(bytes),
            Err(_) => Err(Failure::Memory),
        }
    }

    fn find_file(&mut self, name: &str) -> Result<Option<Vec<u8>>, Failure<FileFault>> {
        if !self.is_good_call() {
            return Err(Failure::Fault(self.fail()));
        }
        let Some(file) = self.file(name) else {
            return Ok(None);
        };
        match Vec::from_slice(self.alloc, file.bytes.items.as_slice()) {
            Ok(bytes) => Ok(Some(bytes)),
            Err(_) => Err(Failure::Memory),
        }
    }

    fn begin(&mut self, name: &str) -> Result<(), Failure<FileFault>> {
        if !self.is_good_call() || name == CLOSED {
            Err(Failure::Fault(self.fail()))
        } else if self.clear(name) {
            Ok(())
        } else {
            Err(Failure::Memory)
        }
    }

    fn append(&mut self, name: &str, bytes: &[u8]) -> Result<usize, Failure<FileFault>> {
        let count = if self.is_good_call() {
            self.grow(name, bytes)
        } else {
            0
        };
        if count == 0 && !bytes.is_empty() {
            Err(Failure::Fault(self.fail()))
        } else {
            Ok(count)
        }
    }
}
