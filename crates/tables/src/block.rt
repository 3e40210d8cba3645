//! A command line with its files, what is said of its answer, and what it answers.

use crate::memory_files::{File, MemoryFiles};
use crate::page::Page;
use crate::texts::Bytes;
use anyhow::Result;
use explained_commands::{KeptFiles, KeptLines, run_words};
use std::alloc::Global;

/// A command line as far as it was read, with the line of standard input on which it stands.
#[derive(Drop)]
pub struct Block<'a> {
    /// The line of standard input on which its command line stands.
    pub place: u64,
    words: &'a str,
    /// Its files, before it is carried out.
    pub files: Vec<File>,
    written: Vec<File>,
    out: Said,
    err: Said,
    failed: &'a str,
    status: &'a str,
}

impl<'a> Block<'a> {
    /// A block before anything of it was read.
    pub fn new(alloc: Global) -> Block<'a> {
        Block {
            place: 0,
            words: "",
            files: Vec::new(alloc),
            written: Vec::new(alloc),
            out: Said::new(alloc),
            err: Said::new(alloc),
            failed: "0",
            status: "",
        }
    }

    /// Its words.
    pub fn words(&self, alloc: Global) -> Result<Vec<&str>> {
        Ok(self.words.split(' ').collect(alloc)?)
    }

    // Whether these files are those that are said to be written.
    fn are_written(&self, files: &[File]) -> bool {
        files.len() == self.written.len()
            && files
                .iter()
                .zip(&self.written)
                .all(|(file, said)| file.is_same(said))
    }

    /// Takes the next line in, and answers whether there was memory for it.
    pub fn read(&mut self, alloc: Global, place: u64, line: &'a str) -> bool {
        if let Some(words) = line.strip_prefix("$ ") {
            self.place = place;
            self.words = words;
            true
        } else if let Some(printed) = line.strip_prefix(">") {
            self.out.read(printed)
        } else if let Some(told) = line.strip_prefix("!") {
            self.err.read(told)
        } else if let Some(failed) = line.strip_prefix("% ") {
            self.failed = failed;
            true
        } else if let Some(status) = line.strip_prefix("= ") {
            self.status = status;
            true
        } else {
            self.read_file(alloc, line)
        }
    }

    // Takes in a line of a file. The first line of each file has its name.
    fn read_file(&mut self, alloc: Global, line: &str) -> bool {
        if let Some(name) = line.strip_prefix("@ ") {
            self.files.push(File::new(alloc, name)).is_ok()
        } else if let Some(name) = line.strip_prefix("& ") {
            self.written.push(File::new(alloc, name)).is_ok()
        } else if self.written.is_empty() {
            read_text(&mut self.files, line)
        } else {
            read_text(&mut self.written, line)
        }
    }
}

// Takes in a line of the last file.
fn read_text(files: &mut Vec<File>, line: &str) -> bool {
    match files.last_mut() {
        Some(file) => file.read(line),
        None => true,
    }
}

// What is said of an output: its text, or only that it has some text.
#[derive(Drop)]
struct Said {
    text: Bytes,
    is_any: bool,
}

impl Said {
    // That it has no text.
    fn new(alloc: Global) -> Said {
        Said {
            text: Bytes::new(alloc),
            is_any: false,
        }
    }

    // Takes in the rest of a line after the mark of an output: `?` if any text will do; a blank and a line; or `* `, the number
    // of times that a line stands, a blank and that line. Answers whether there was memory for it.
    fn read(&mut self, said: &str) -> bool {
        if said == "?" {
            self.is_any = true;
        } else if let Some(line) = said.strip_prefix("* ") {
            self.text.add_often(line, "\n");
        } else if let Some(line) = said.strip_prefix(" ") {
            self.text.add_text(line, "\n");
        }
        self.text.is_whole
    }

    // Whether it is said of these bytes.
    fn is_of(&self, bytes: &[u8]) -> bool {
        if self.is_any {
            !bytes.is_empty()
        } else {
            self.text.has(bytes)
        }
    }
}

/// What a command line answers: its exit status, its calls of files, the files that it writes, and what it prints, also as faults.
#[derive(Drop)]
pub struct Answer {
    /// Its exit status.
    pub status: u8,
    /// How many calls of files there were.
    pub calls: u64,
    failed: u64,
    written: Vec<File>,
    out: Vec<u8>,
    err: Vec<u8>,
}

impl Answer {
    /// The answer to the words of a command line, where a call of files fails, counted from 0.
    pub fn of(alloc: Global, block: &Block, words: &[&str], failing_call: u64) -> Answer {
        let mut files = MemoryFiles::new(alloc, block.files.as_slice());
        files.failing_call = failing_call;
        let mut files = KeptFiles::new(alloc, files);
        let mut out: Vec<u8> = Vec::new(alloc);
        let mut err = KeptLines::new(alloc, Vec::new(alloc));
        let status = run_words(alloc, words, &mut files, &mut out, &mut err).unwrap_or(1);
        let files = files.into_inner();
        Answer {
            status,
            calls: files.calls,
            failed: files.failed,
            written: files.written,
            out,
            err: err.into_inner(),
        }
    }

    /// Whether this is what is said.
    pub fn is_as_said(&self, block: &Block) -> bool {
        block.status.parse::<u8>() == Ok(self.status)
            && block.failed.parse::<u64>() == Ok(self.failed)
            && block.are_written(self.written.as_slice())
            && block.out.is_of(self.out.as_slice())
            && block.err.is_of(self.err.as_slice())
    }

    /// Whether it is refused for a file, prints nothing, and of what is said to be written has written at most beginnings.
    pub fn is_refused_for_file(&self, block: &Block) -> bool {
        self.status == 1
            && self.failed == 1
            && self.out.is_empty()
            && text(self.err.as_slice()).starts_with("U3 ")
            && self.written.len() <= block.written.len()
            && self
                .written
                .iter()
                .zip(&block.written)
                .all(|(file, said)| file.begins(said))
    }

    /// Whether it is what is said, with the same first line told, except that an explanation says that a table of
    /// `--explain=TABLE` can't be read.
    pub fn lacks_table(&self, block: &Block) -> bool {
        block.words.contains("--explain=")
            && block.status.parse::<u8>() == Ok(self.status)
            && self.failed == 1
            && block.are_written(self.written.as_slice())
            && block.out.is_of(self.out.as_slice())
            && first_line(self.err.as_slice()) == first_line(block.err.text.items.as_slice())
            && text(self.err.as_slice()).contains(" can't be read.\n")
    }

    /// Prints it.
    pub fn print(&self, page: &mut Page) {
        page.number("status ", u64::from(self.status));
        page.number(", ", self.failed);
        page.number(" calls of files failed, ", self.written.len() as u64);
        page.text(" files written\n");
        page.text(text(self.out.as_slice()));
        page.text(text(self.err.as_slice()));
    }
}

// The first line of a text.
fn first_line(bytes: &[u8]) -> &str {
    match text(bytes).split_once('\n') {
        Some((line, _)) => line,
        None => "",
    }
}

// Bytes as a text.
fn text(bytes: &[u8]) -> &str {
    std::str::from_utf8(bytes).unwrap_or("other bytes than text")
}
